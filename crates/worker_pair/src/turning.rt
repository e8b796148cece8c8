//! An edit is published, and the butler takes a turn.
ghost use Rattle.std.specs.Prelude.{◌≡◌, false, IsTrue};
ghost use Rattle.engine_model.specs.Edits.{keeps_forms};
ghost use Rattle.edition_log.specs.EditionState.{IsOpen};
ghost use Rattle.edition_log.specs.Steps.{Applies};
ghost use Rattle.process_cycle.specs.Promised.{IsMastered};
ghost use Rattle.worker_pair.specs.Begun.{At, playing_at, turned};
ghost use Rattle.worker_pair.specs.Never.{starts_recording};
ghost use Rattle.worker_pair.specs.Tied.{rings_of};
ghost use Rattle.worker_pair.specs.Runs.{HearsInput, Rests, Runs};
ghost use Rattle.worker_pair.specs.Steps.{PairTurnsAsMachine, PublishesAsMachine, Turns, TurnsOnly};

use crate::pair::Pair;
use butler::{ButlerFault, Turn};
use edit_resolve::Refusal;
use ses_io::{Media, Sink, Source};
use session_model::Edit;

impl<M: Media, I: Source, W: Sink> Pair<M, I, W> {
    /// Publishes an edit, or answers why it is refused, and then nothing changes.
    pub fn publish(&mut self, edit: &Edit) -> Result<u32, Refusal>
        ghost at: { At }
        requires rests { Rests M.outside at self.old }
        requires forms { IsTrue (keeps_forms edit.now) }
        requires open { IsOpen self.old.edition }
        requires never { at.begun.records ≡ false → starts_recording edit.now ≡ false }
        ensures rests { Rests M.outside at self.new }
        ensures runs { Runs M.outside I.outside W.outside at self.old
            → Runs M.outside I.outside W.outside at self.new }
        ensures same { self.new ≡ record self.old { edition = self.new.edition } }
        ensures applies { Applies self.old.edition edit.now result self.new.edition }
        ensures as_machine { PublishesAsMachine at.begun.session self.old edit.now result self.new }
    {
        self.edition.apply(edit)
    }

    /// A turn of the butler, of one item, and a meeting of the ends.
    pub fn turn(&mut self) -> Result<Turn, ButlerFault>
        ghost at: { At }
        requires { Rests M.outside at self.old }
        ensures rests { Rests M.outside (turned self.old.edition.edits at) self.new }
        ensures runs { Runs M.outside I.outside W.outside at self.old
            → Runs M.outside I.outside W.outside (turned self.old.edition.edits at) self.new }
        ensures mastered { IsMastered W.outside (playing_at at) self.old.process
            → IsMastered W.outside (playing_at at) self.new.process }
        ensures hears { HearsInput I.outside at self.old → HearsInput I.outside at self.new }
        ensures same { TurnsOnly self.old self.new }
        ensures turns { Turns M.outside at (rings_of self.old) result (rings_of self.new) }
        ensures as_machine { PairTurnsAsMachine at.begun.session self.old result self.new }
    {
        let answer = self.butler.turn(&self.edition, 1);
        self.butler.meet(&mut self.process);
        answer
    }
}
