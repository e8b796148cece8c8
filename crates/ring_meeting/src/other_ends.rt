//! Who holds the other ends of the butler's rings.
ghost use Rattle.ring_meeting.specs.Meeting.{Meeting};
ghost use Rattle.ring_meeting.specs.Told.{AreTold};

use piece_item::ButlerEnds;

/// The holder of the other ends of the butler's rings. In a meeting the two ends of a ring tell
/// each other what they know, and nothing is moved.
pub trait OtherEnds {
    /// When the ends may meet, and what a meeting leaves of both.
    ghost meeting: { Meeting Self };

    /// Each pair of ends meets, but where nothing moved since it met.
    fn meet(&mut self, ends: &mut ButlerEnds)
        requires { meeting.may self.old ends.old }
        ensures told { AreTold ends.old ends.new }
        ensures meets { meeting.meets self.old ends.old self.new ends.new };

    /// The same where only the ends of playback rings have something to tell: no other is asked.
    fn meet_plays(&mut self, ends: &mut ButlerEnds)
        requires { meeting.may_plays self.old ends.old }
        ensures told { AreTold ends.old ends.new }
        ensures meets { meeting.meets self.old ends.old self.new ends.new };
}
