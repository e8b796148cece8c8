//! What a play leaves, once its three threads have ended.
ghost use Rattle.std.specs.Prelude.{◌≡◌, ◌≤◌, true, false, length, Some};
ghost use Rattle.disk_ring.specs.Rings.{joined_of};
ghost use Rattle.control_desk.specs.State.{parts_of};
ghost use Rattle.process_ends.specs.Ends.{AreOtherEnds};
ghost use Rattle.run_end.specs.AtRest.{ProcessHasEnded};
ghost use Rattle.run_end.specs.Lists.{HaveRoomFor};
ghost use Rattle.run_end.specs.Started.{Started};
ghost use Rattle.thread_run.specs.Leaving.{Asked, HaveAllEnded, IsEndOf, IsGivenBack, IsLeft, finished_of};
ghost use Rattle.thread_run.specs.Leaving.{failures_left, input_failed, is_hushed, is_refused};
ghost use Rattle.thread_run.specs.Parting.{MayGiveUp};

use crate::giving_up::give_up;
use crate::meeting::meet_at_last;
use crate::side_by_side::Joined;
use crate::tying::tie;
use control_desk::ControlParts;
use disk_ring::{Ring, rejoin};
use lead_worker::Led;
use play_worker::{Ended, Played};
use process_cycle::CycleFault;
use run_end::{Failures, RunEnd, RunLists, leave};
use run_world::{Faults, Finished, Grant};
use serve_worker::{MediaFaults, ServeEnd, ServeWorker};
use ses_io::{Media, Sink, Source, World};
use std::sync::Wait;
use worker_pair::{Ending, Stopped};

// Whether a read of the input has failed.
fn input_failed(ended: Ended) -> bool
    ensures { result ≡ input_failed ended }
{
    match ended {
        Ended::Stopped(CycleFault::InputFault) => true,
        Ended::All | Ended::Quit | Ended::Refused | Ended::Stopped(CycleFault::MasterFault) =>
            false,
    }
}

// Whether the process's reader was refused.
fn is_refused(ended: Ended) -> bool
    ensures { result ≡ is_refused ended }
{
    match ended {
        Ended::Refused => true,
        Ended::All | Ended::Quit | Ended::Stopped(_) => false,
    }
}

// Whether the butler's reader was refused.
fn is_hushed(end: ServeEnd) -> bool
    ensures { result ≡ is_hushed end }
{
    match end {
        ServeEnd::Refused => true,
        ServeEnd::Over => false,
    }
}

// Whether the butler may take its last turns: both workers are tied to the list, and its reader wasn't refused.
fn goes_whole(tied: bool, end: ServeEnd) -> bool
    ensures only { result ≡ true → (tied ≡ true) × (is_hushed end ≡ false) }
    ensures so { tied ≡ true → is_hushed end ≡ false → result ≡ true }
{
    if !tied {
        return false;
    }
    !is_hushed(end)
}

// Whether memory was wanted: for an edit, for the end of the list, or by a reader.
fn wants_memory(edit: bool, tied: bool, listed: bool, end: ServeEnd, why: Ended) -> bool
    ensures { result ≡ false → (edit ≡ false) × (tied ≡ true) × (is_hushed end ≡ false)
        × (is_refused why ≡ false) }
{
    if edit || !tied {
        return true;
    }
    if is_hushed(end) || is_refused(why) {
        return true;
    }
    !listed
}

// What process and butler leave: where both were tied to the list the butler takes its last turns, and the takes are made whole.
fn parted<M: Media, I: Source, W: Sink>(
    ending: Ending<M>,
    stopped: Stopped<I, W>,
    failed: Failures,
    lists: RunLists,
    whole: bool,
) -> RunEnd<M, I, W>
    ghost on: { Started M I W }
    requires ended { whole ≡ true
        → ProcessHasEnded M.outside I.outside on ending stopped failed }
    requires may { MayGiveUp M.outside on ending stopped failed }
    requires lists { HaveRoomFor on.begun.session lists }
    requires records { on.begun.records ≡ true }
    ensures whole { whole ≡ true → IsEndOf M.outside I.outside on ending stopped failed result }
    ensures given { IsGivenBack M.outside on ending stopped failed result }
    ensures cut_short { whole ≡ false → result.media ≡ ending.butler.media }
{
    if whole {
        leave(ending, stopped, failed, lists, true)
    } else {
        give_up(ending, stopped, failed, lists)
    }
}

// What the workers leave, with what control leaves.
fn finished<M, I, C, W, O>(
    ended: RunEnd<M, I, W>,
    control: ControlParts<C, O>,
    grants: Ring<Grant>,
    memory: bool,
) -> Finished<M, I, C, W, O>
    ensures { result ≡ finished_of ended control grants memory }
{
    let RunEnd {
        media,
        input,
        master,
        journal,
        edits,
        rings,
        acks,
        failed,
    } = ended;
    Finished {
        world: World {
            media,
            input,
            control: control.source,
            master,
            out: control.out,
        },
        journal,
        edits,
        rings,
        acks,
        grants: Some(grants),
        faults: Faults {
            input: failed.input,
            master: failed.master,
            read: failed.read,
            write: failed.write,
            control: control.read_failed,
            long: control.long,
            out: control.write_failed,
            memory,
        },
    }
}

/// What the three leave together. Memory was wanted where control had none for an edit or for the end of the list, or where a reader
/// was refused.
pub(crate) fn finish<'r, R: Wait, M: Media, I: Source, C: Source, W: Sink, O: Sink>(
    joined: Joined<'r, R, M, I, C, W, O>,
    lists: RunLists,
) -> Finished<M, I, C, W, O>
    ghost on: { Asked M I C W O }
    requires { HaveAllEnded M.outside I.outside C.outside W.outside O.outside on joined lists }
    ensures { IsLeft R M.outside I.outside C.outside W.outside O.outside on result }
{
    let Joined {
        led,
        served,
        played,
    } = joined;
    let (worker, end) = served;
    let failed = Failures {
        input: input_failed(played.ended),
        master: played.cut_off,
        read: worker.failed.read,
        write: worker.failed.write,
    };
    let tied = tie(led.lists, played.reader, worker.reader);
    let (ending, stopped) = meet_at_last(tied.edition, worker.butler, played.process, led.acks);
    let whole = goes_whole(tied.tied, end);
    let ended = parted(ending, stopped, failed, lists, whole);
    // it has no more entries than it has room for
    let _made = ended.journal.entries();
    let memory = wants_memory(led.memory, tied.tied, tied.ended, end, played.ended);
    let grants = rejoin(led.grants, played.grants.from);
    finished(ended, led.control.parts(), grants, memory)
}
