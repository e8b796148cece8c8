//! How a process meets the butler on one thread, and what it leaves when it is taken apart.
ghost use Rattle.std.specs.Prelude.{◌≡◌};
ghost use Rattle.process_ends.specs.Ends.{shut_ends};

use crate::process::Process;
use cycle_journal::Journal;
use piece_item::ButlerEnds;
use process_ends::{ProcessEnds, close_all, meet_ends, meet_plays};
use ring_meeting::OtherEnds;
use ses_io::{Sink, Source};

/// What a process leaves.
#[derive(Drop)]
pub struct ProcessParts<I, W> {
    pub input: I,
    pub master: W,
    pub journal: Journal,
    /// Those that put are closed.
    pub ends: ProcessEnds,
}

impl<I: Source, W: Sink> OtherEnds for Process<I, W> {
    ghost use Rattle.process_ends.specs.Ends.{MayMeet, MayMeetPlays};
    ghost use Rattle.process_cycle.specs.Meetings.{MeetsOthers};

    ghost meeting = { record {
      may = λ p theirs. MayMeet p.ends theirs;
      may_plays = λ p theirs. MayMeetPlays p.ends theirs;
      meets = MeetsOthers I.outside W.outside;
    } };

    fn meet(&mut self, ends: &mut ButlerEnds) {
        meet_ends(&mut self.ends, ends);
    }

    fn meet_plays(&mut self, ends: &mut ButlerEnds) {
        meet_plays(&mut self.ends, ends);
    }
}

impl<I: Source, W: Sink> Process<I, W> {
    /// Closes the rings of takes and of acknowledgements, and gives everything back.
    pub fn parts(self) -> ProcessParts<I, W>
        ensures input { result.input ≡ self.input.input }
        ensures master { result.master ≡ self.master.sink }
        ensures journal { result.journal ≡ self.journal }
        ensures ends { result.ends ≡ shut_ends self.ends }
    {
        let Process {
            input,
            master,
            mut ends,
            journal,
            ..
        } = self;
        close_all(ends.takes.as_mut_slice());
        ends.to_butler.close();
        ends.to_control.close();
        ProcessParts {
            input: input.into_input(),
            master: master.into_sink(),
            journal,
            ends,
        }
    }
}
