//! How the process ends, and the butler's last turns: it serves the rings that the process left.
ghost use Rattle.std.specs.Prelude.{◌≡◌};
ghost use Rattle.worker_pair.specs.Begun.{At, turned};
ghost use Rattle.worker_pair.specs.Runs.{Serves, Rests};
ghost use Rattle.worker_pair.specs.Closes.{Closes, ClosesAsMachine};
ghost use Rattle.worker_pair.specs.Steps.{Turns, TurnsAsMachine};

use crate::pair::Pair;
use butler::{Butler, ButlerFault, Turn};
use cycle_journal::Journal;
use disk_ring::{RingOut, meet};
use edition_log::Edition;
use piece_item::Ack;
use process_cycle::ProcessParts;
use process_ends::{ProcessEnds, meet_ends};
use ses_io::{Media, Sink, Source};

/// The butler in the newest edition, and the ends that the process left.
pub struct Ending<M: Media> {
    pub edition: Edition,
    pub butler: Butler<M>,
    /// Those that put are closed.
    pub ends: ProcessEnds,
}

/// What the process gives back.
pub struct Stopped<I, W> {
    pub input: I,
    pub master: W,
    pub journal: Journal,
    /// Control's end of its ring.
    pub acks: RingOut<Ack>,
}

impl<M: Media, I: Source, W: Sink> Pair<M, I, W> {
    /// Ends the process: the rings of takes and of acknowledgements are closed, and all ends meet, control's too.
    pub fn close(self) -> (Ending<M>, Stopped<I, W>)
        ghost at: { At }
        requires { Rests M.outside at self }
        ensures serves { Serves M.outside at result.0 }
        ensures closes { Closes self result.0 result.1 }
        ensures as_machine { ClosesAsMachine at.begun.session self result.0 }
    {
        let Pair {
            edition,
            playing: _,
            in_cycle: _,
            butler,
            process,
            mut acks,
        } = self;
        let ProcessParts {
            input,
            master,
            journal,
            mut ends,
        } = process.parts();
        let (resting, mut theirs) = butler.rest();
        meet_ends(&mut ends, &mut theirs);
        meet(&mut ends.to_control, &mut acks);
        let ending = Ending {
            edition,
            butler: resting.resume(theirs),
            ends,
        };
        let stopped = Stopped {
            input,
            master,
            journal,
            acks,
        };
        (ending, stopped)
    }
}

impl<M: Media> Ending<M> {
    /// A turn of the butler, of one item, and a meeting of the ends.
    pub fn turn(self) -> (Ending<M>, Result<Turn, ButlerFault>)
        ghost at: { At }
        requires { Serves M.outside at self }
        ensures serves { Serves M.outside (turned self.edition.edits at) result.0 }
        ensures turns { Turns M.outside at self result.1 result.0 }
        ensures as_machine { TurnsAsMachine at.begun.session self result.1 result.0 }
    {
        let Ending {
            edition,
            mut butler,
            mut ends,
        } = self;
        let answer = butler.turn(&edition, 1);
        let (resting, mut theirs) = butler.rest();
        meet_ends(&mut ends, &mut theirs);
        let butler = resting.resume(theirs);
        let ending = Ending {
            edition,
            butler,
            ends,
        };
        (ending, answer)
    }
}
