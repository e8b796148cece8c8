//! The letter C: what control awaits is answered where it is over, and then the next line is carried out.
ghost use Rattle.run_end.specs.Started.{Started};
ghost use Rattle.engine_core.specs.Carrying.{CarriesALine, PublishesAsMachine};
ghost use Rattle.engine_core.specs.Going.{MayGoOn};

use crate::engine::{Engine, progress};
use ses_io::{Media, Sink, Source};

impl<M: Media, I: Source, C: Source, W: Sink, O: Sink> Engine<M, I, C, W, O> {
    /// What control awaits is answered, where it is over. Where nothing is awaited then, the next
    /// line is carried out: an edit is published and answered. It takes no memory.
    pub fn carry(&mut self)
        ghost on: { Started M I W }
        requires { MayGoOn M.outside I.outside W.outside on self.old }
        ensures may { MayGoOn M.outside I.outside W.outside on self.new }
        ensures carries { CarriesALine C.outside O.outside on.begun.session self.old self.new }
        ensures as_machine { PublishesAsMachine on.begun.session self.old self.new }
    {
        let seen = progress(&self.run);
        if !self.control.answer(&seen) {
            return;
        }
        let Some(edit) = self.control.next(&seen) else {
            return;
        };
        let answer = self.run.pair.publish(&edit);
        self.control.published(&edit, answer);
    }
}
