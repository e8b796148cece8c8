//! Out gets the report of a run that was played, and the line of a status.
ghost use Rattle.std.specs.Prelude.{◌≡◌};
ghost use Rattle.session_play.specs.Played.{HandsOn};
ghost use Rattle.cycle_journal.specs.Report.{report};
ghost use Rattle.cycle_journal.specs.RunReport.{reported};
ghost use Rattle.session_play.specs.Reported.{Ended, Reports, Wrote};
ghost use Rattle.session_play.specs.Unplayed.{IsRefusal};

use crate::ending::status_at_end;
use crate::outcome::{Outcome, unplayed};
use cycle_journal::{Journal, ReportHead, Status, write_report};
use fault_lines::write_fault;
use run_world::Finished;
use ses_io::{Sink, World};
use session_model::EditList;
use std::alloc::Global;

// Writes the report, unless a write of out has failed. Whether one has by then.
fn write_unless<O: Sink>(
    failed: bool,
    out: &mut O,
    head: &ReportHead,
    edits: &EditList,
    journal: &Journal,
) -> bool
    ensures { Wrote O.outside (report (reported head.now edits.now.items journal.now.items))
        failed out.old result out.new }
{
    failed || write_report(out, head, edits, journal).is_err()
}

// Writes the line of the status, unless a write of out has failed.
fn end_unless<O: Sink>(failed: bool, out: &mut O, status: &Status)
    ensures { Ended O.outside status.now failed out.old out.new }
{
    if !failed {
        // Where this write fails the status stays.
        let _ = write_fault(out, status);
    }
}

/// What a run gives back that was played: out gets its report, and the line of its status, unless a write of it has failed.
pub(crate) fn report<M, I, C, W, O: Sink>(
    head: &ReportHead,
    finished: Finished<M, I, C, W, O>,
) -> Outcome<M, I, C, W, O>
    ensures hands_on { HandsOn finished result }
    ensures reports { Reports O.outside head.now finished result.status result.world.out }
{
    let Finished {
        mut world,
        journal,
        edits,
        rings,
        acks,
        grants,
        mut faults,
    } = finished;
    faults.out = write_unless(faults.out, &mut world.out, head, &edits, &journal);
    let status = status_at_end(&faults);
    end_unless(faults.out, &mut world.out, &status);
    Outcome {
        status,
        world,
        journal: Some(journal),
        rings,
        acks: Some(acks),
        grants,
    }
}

/// What a run gives back that wasn't played: out gets the line of its status.
pub(crate) fn refuse<M, I, C, W, O: Sink>(
    alloc: Global,
    status: Status,
    world: World<M, I, C, W, O>,
) -> Outcome<M, I, C, W, O>
    ensures { IsRefusal O.outside status world result }
{
    let mut ended = unplayed(alloc, status, world);
    // Where this write fails the status stays.
    let _ = write_fault(&mut ended.world.out, &ended.status);
    ended
}
