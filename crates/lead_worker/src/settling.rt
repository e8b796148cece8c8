//! What a line awaits is waited for, and answered.
ghost use Rattle.std.specs.Prelude.{◌≡◌, None};
ghost use Rattle.control_desk.specs.Standing.{awaits_of};
ghost use Rattle.lead_worker.specs.Heard.{HasBest};
ghost use Rattle.lead_worker.specs.Leads.{Settles, after_pause, after_sync};
ghost use Rattle.lead_worker.specs.Links.{GoesOnLink};

use crate::link::ProcessLink;
use control_desk::{Awaited, Control, Progress};
use piece_item::Ack;
use run_bells::Bells;
use ses_io::{Sink, Source};
use std::sync::Wait;

// What control sees once the cycles of a wait were made.
fn after_pause(edits: u32, cycles: u32) -> Progress
    ensures { result ≡ after_pause edits cycles }
{
    Progress {
        edits,
        entries: cycles,
        settled: None,
        played_out: false,
    }
}

// What it sees after a sync.
fn after_sync(edits: u32, best: Option<Ack>, closed: bool) -> Progress
    ensures { result ≡ after_sync edits best closed }
{
    match best {
        Some(best) => Progress {
            edits,
            entries: best.cycle,
            settled: Some(best.settled),
            played_out: closed,
        },
        None => Progress {
            edits,
            entries: 0,
            settled: None,
            played_out: closed,
        },
    }
}

/// Waits for what a line awaits in this edition, and answers it.
pub(crate) fn settle<R: Wait, C: Source, O: Sink>(
    rt: &R,
    control: &mut Control<C, O>,
    link: &mut ProcessLink,
    edition: u32,
    bells: &Bells,
)
    ensures settles { Settles C.outside O.outside edition control.old link.old control.new link.new }
    ensures goes { GoesOnLink link.old link.new }
{
    match control.awaits() {
        Some(Awaited::Entries(cycles)) => {
            link.pause(rt, cycles, edition, bells);
            control.answer(&after_pause(edition, cycles));
        }
        Some(Awaited::SettledIn(_)) => {
            let closed = link.seek(rt, edition, bells);
            control.answer(&after_sync(edition, link.hearing.best(), closed));
        }
        None => (),
    }
}
