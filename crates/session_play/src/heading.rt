//! The form of a run, as its report says it.
ghost use Rattle.std.specs.Prelude.{◌≡◌};
ghost use Rattle.session_model.specs.Valid.{IsValid};
ghost use Rattle.engine_model.specs.Played.{master_channels};
ghost use Rattle.session_play.specs.Reported.{head_of};

use cycle_journal::ReportHead;
use session_model::Session;

// The channels of the master, which is the last route.
fn master_channels(session: &Session) -> u16
    requires { IsValid session.now }
    ensures { result ≡ master_channels session.now }
{
    let routes = session.routes.as_slice();
    routes[routes.len() - 1].channels
}

/// The form of so many cycles of a session.
pub(crate) fn head_of(session: &Session, cycles: u32) -> ReportHead
    requires { IsValid session.now }
    ensures { result ≡ head_of session.now cycles }
{
    ReportHead {
        rate: session.rate,
        bits: session.bits,
        channels: master_channels(session),
        block: session.block,
        cycles,
    }
}
