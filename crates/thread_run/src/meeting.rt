//! The ends of process, butler and control meet for the first time, once their threads have ended.
ghost use Rattle.std.specs.Prelude.{◌≡◌};
ghost use Rattle.process_ends.specs.Ends.{AllMeet, AreOfOneRing, AreOtherEnds, EndsMeet};
ghost use Rattle.thread_run.specs.Met.{HaveMetAtLast};

use butler::Butler;
use disk_ring::{RingIn, RingOut, Roomy, meet};
use edition_log::Edition;
use piece_item::{Ack, ButlerEnds};
use process_cycle::ProcessParts;
use process_ends::ProcessEnds;
use ses_io::Media;
use worker_pair::{Ending, Stopped};

// Each pair of ends tells each other what it knows.
fn meet_each<T: Roomy>(senders: &mut [RingIn<T>], receivers: &mut [RingOut<T>])
    requires one_ring { AreOfOneRing senders.old receivers.old }
    ensures { AllMeet senders.old receivers.old senders.new receivers.new }
{
    for t in 0..senders.len() {
        meet(&mut senders[t], &mut receivers[t]);
    }
}

// Each end of the process and the butler's end of the same ring.
fn meet_ends(ours: &mut ProcessEnds, theirs: &mut ButlerEnds)
    requires { AreOtherEnds ours.old theirs.old }
    ensures { EndsMeet ours.old theirs.old ours.new theirs.new }
{
    meet_each(theirs.sends.as_mut_slice(), ours.plays.as_mut_slice());
    meet_each(ours.takes.as_mut_slice(), theirs.takes.as_mut_slice());
    meet(&mut ours.to_butler, &mut theirs.acks);
}

/// All ends have met: a butler that may take its last turns in this edition, and what the process leaves.
pub(crate) fn meet_at_last<M: Media, I, W>(
    edition: Edition,
    butler: Butler<M>,
    process: ProcessParts<I, W>,
    acks: RingOut<Ack>,
) -> (Ending<M>, Stopped<I, W>)
    requires others { AreOtherEnds process.ends butler.ends }
    requires control { acks.ring ≡ process.ends.to_control.ring }
    ensures { HaveMetAtLast edition butler process acks result.0 result.1 }
{
    let ProcessParts {
        input,
        master,
        journal,
        mut ends,
    } = process;
    let mut acks = acks;
    let (resting, mut theirs) = butler.rest();
    meet_ends(&mut ends, &mut theirs);
    meet(&mut ends.to_control, &mut acks);
    let ending = Ending {
        edition,
        butler: resting.resume(theirs),
        ends,
    };
    let stopped = Stopped {
        input,
        master,
        journal,
        acks,
    };
    (ending, stopped)
}
