//! A butler's ends meet the other ends of their rings.
ghost use Rattle.std.specs.Prelude.{◌≡◌};
ghost use Rattle.ring_meeting.specs.Told.{AreTold};

use crate::butler::Butler;
use ring_meeting::OtherEnds;
use ses_io::Media;

impl<M: Media> Butler<M> {
    /// Each of its ends and the other end of the same ring tell each other what they know, but
    /// where nothing moved since they met. Nothing else changes, and nothing is moved.
    pub fn meet<T: OtherEnds>(&mut self, other: &mut T)
        requires { T.meeting.may other.old self.old.ends }
        ensures same { self.new ≡ record self.old { ends = self.new.ends } }
        ensures told { AreTold self.old.ends self.new.ends }
        ensures meets { T.meeting.meets other.old self.old.ends other.new self.new.ends }
    {
        other.meet(&mut self.ends);
    }

    /// The same where only the ends of playback rings have something to tell: no other is asked.
    pub fn meet_plays<T: OtherEnds>(&mut self, other: &mut T)
        requires { T.meeting.may_plays other.old self.old.ends }
        ensures same { self.new ≡ record self.old { ends = self.new.ends } }
        ensures told { AreTold self.old.ends self.new.ends }
        ensures meets { T.meeting.meets other.old self.old.ends other.new self.new.ends }
    {
        other.meet_plays(&mut self.ends);
    }
}
