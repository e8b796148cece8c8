//! How the ends of many rings meet, and are closed.
ghost use Rattle.std.specs.Prelude.{◌≡◌, ℕ, ◌<◌, length, map, slice_index_or};
ghost use Rattle.process_ends.specs.Ends.{AreOfOneRing, AllMeet, AllStillMet, EndsMeet, MayMeet, MayMeetPlays, shut};

use crate::ends::ProcessEnds;
use disk_ring::{RingIn, RingOut, Roomy, meet_again};
use piece_item::ButlerEnds;

/// Each pair of ends tells each other what it knows, but for those on which nothing moved since they met.
pub fn meet_all<T: Roomy>(senders: &mut [RingIn<T>], receivers: &mut [RingOut<T>])
    requires one_ring { AreOfOneRing senders.old receivers.old }
    requires still_met { AllStillMet senders.old receivers.old }
    ensures { AllMeet senders.old receivers.old senders.new receivers.new }
{
    for t in 0..senders.len() {
        meet_again(&mut senders[t], &mut receivers[t]);
    }
}

/// Each end that the process has and the butler's end of the same ring tell each other what they
/// know.
pub fn meet_ends(ours: &mut ProcessEnds, theirs: &mut ButlerEnds)
    requires { MayMeet ours.old theirs.old }
    ensures { EndsMeet ours.old theirs.old ours.new theirs.new }
{
    meet_all(theirs.sends.as_mut_slice(), ours.plays.as_mut_slice());
    meet_all(ours.takes.as_mut_slice(), theirs.takes.as_mut_slice());
    meet_again(&mut ours.to_butler, &mut theirs.acks);
}

/// The same where only the ends of playback rings have something to tell: no other is asked.
pub fn meet_plays(ours: &mut ProcessEnds, theirs: &mut ButlerEnds)
    requires { MayMeetPlays ours.old theirs.old }
    ensures { EndsMeet ours.old theirs.old ours.new theirs.new }
{
    meet_all(theirs.sends.as_mut_slice(), ours.plays.as_mut_slice());
}

/// Closes each ring.
pub fn close_all<T: Roomy>(senders: &mut [RingIn<T>])
    ensures { senders.new ≡ map shut senders.old }
{
    for t in 0..senders.len() {
        senders[t].close();
    }
}
