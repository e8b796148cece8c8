//! The process enters the newest edition.
ghost use Rattle.std.specs.Prelude.{◌≡◌};
ghost use Rattle.session_model.specs.declared.session.Session.{Session as Opening};
ghost use Rattle.edition_log.specs.EditionState.{IsEditionOf};
ghost use Rattle.worker_pair.specs.Begun.{At};
ghost use Rattle.worker_pair.specs.Catching.{MayCatchUp};
ghost use Rattle.worker_pair.specs.Runs.{Runs};
ghost use Rattle.worker_pair.specs.Steps.{Enters, EntersAsMachine};

use crate::pair::Pair;
use edition_log::Edition;
use ses_io::{Media, Sink, Source};

// Takes in the edits that an edition lacks of a newer one.
fn catch_up(edition: &mut Edition, newest: &Edition)
    ghost s: { Opening }
    requires { MayCatchUp s edition.old newest.now }
    ensures edits { edition.new.edits ≡ newest.now.edits }
    ensures edition_of { IsEditionOf s edition.new }
    ensures ended { edition.new.ended ≡ edition.old.ended }
{
    let edits = newest.edits().as_slice();
    for at in edition.number()..newest.number() {
        // each was accepted in its turn
        let _ = edition.apply(&edits[at as usize]);
    }
}

impl<M: Media, I: Source, W: Sink> Pair<M, I, W> {
    /// The process enters the newest edition and so begins a cycle, unless one is open, all that
    /// were asked are made, or it has entered a quit. In an edition that has quit none begins.
    pub fn enter(&mut self)
        ghost at: { At }
        requires { Runs M.outside I.outside W.outside at self.old }
        ensures runs { Runs M.outside I.outside W.outside at self.new }
        ensures enters { Enters self.old self.new }
        ensures as_machine { EntersAsMachine at.begun.session self.old self.new }
    {
        let journal = self.process.journal();
        let all = journal.entries().len() >= journal.room() as usize;
        if self.in_cycle || all || self.playing.transport().quit {
            return;
        }
        catch_up(&mut self.playing, &self.edition);
        self.in_cycle = !self.playing.transport().quit;
    }
}
