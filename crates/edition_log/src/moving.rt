//! What accepted edits do to the transport.
ghost use Rattle.std.specs.Prelude.{◌≡◌, ◌+◌, ◌<◌, ◌≤◌};
ghost use Rattle.std.specs.Option.{option_map};
ghost use Rattle.engine_model.specs.Transport.{moved, started};
ghost use Rattle.locate_loop.specs.Transport.{transport_of, wrap_of, IsTransport};
ghost use Rattle.edition_log.specs.Steps.{MayMove};

use locate_loop::{Transport, Wrap};
use session_model::Edit;

// A generation starts at a place.
fn started(t: &Transport, target: u64, wrap: Option<Wrap>) -> Transport
    requires few { t.now.generation < 10000 }
    ensures started { transport_of result
        ≡ started (transport_of t.now) target (option_map wrap_of wrap) }
    ensures target { result.target ≡ target }
    ensures wrap { result.wrap ≡ wrap }
    ensures counted { result.generation ≡ t.now.generation + 1 }
{
    Transport {
        generation: t.generation + 1,
        target,
        wrap,
        ..*t
    }
}

/// The transport after an edit that was accepted.
pub(crate) fn moved(t: &Transport, edit: &Edit) -> Transport
    requires bounds { IsTransport t.now }
    requires may { MayMove (option_map wrap_of t.now.wrap) edit.now }
    requires few { t.now.generation < 10000 }
    ensures moved { transport_of result ≡ moved (transport_of t.now) edit.now }
    ensures bounds { IsTransport result }
    ensures counted { result.generation ≤ t.now.generation + 1 }
{
    match *edit {
        Edit::Roll => Transport {
            rolling: true,
            ..*t
        },
        Edit::Stop => Transport {
            rolling: false,
            ..*t
        },
        Edit::Quit => Transport { quit: true, ..*t },
        Edit::Recording { on } => Transport {
            recording: on,
            ..*t
        },
        Edit::Locate { to } => started(t, to, t.wrap),
        Edit::Loop { from, to } => started(t, from, Some(Wrap { from, to })),
        Edit::LoopOff => started(t, t.wrap.map_or(0, |wrap| wrap.to), None),
        Edit::Arm { .. }
        | Edit::Solo { .. }
        | Edit::Mute { .. }
        | Edit::Gain { .. }
        | Edit::Pan { .. }
        | Edit::Mode { .. }
        | Edit::Point { .. }
        | Edit::Unpoint { .. }
        | Edit::Connect { .. }
        | Edit::Send { .. }
        | Edit::Unsend { .. }
        | Edit::Add { .. }
        | Edit::Remove { .. }
        | Edit::Move { .. }
        | Edit::Trim { .. }
        | Edit::Layer { .. }
        | Edit::Opaque { .. }
        | Edit::RegionGain { .. }
        | Edit::Fade { .. }
        | Edit::Shape { .. } => *t,
    }
}
