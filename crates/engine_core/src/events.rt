//! The events that a run is given, before its serial rest.
ghost use Rattle.run_letters.specs.Events.{letter_of};
ghost use Rattle.engine_core.specs.Events.{Course, and_given, given};
ghost use Rattle.engine_core.specs.Going.{GoesOnBy, IsGoing, MayGoOn};
ghost use Rattle.engine_core.specs.Opening.{Opening};

use crate::engine::Engine;
use run_letters::Event;
use ses_io::{Media, Sink, Source};

impl<M: Media, I: Source, C: Source, W: Sink, O: Sink> Engine<M, I, C, W, O> {
    /// One event. What can't be done is left: past the cycles that were asked, after a fault of the
    /// process, or once it has entered a quit the process does nothing.
    pub fn event(&mut self, event: Event)
        ghost on: { Opening M I C W O }
        requires { MayGoOn M.outside I.outside W.outside on.started self.old }
        ensures may { MayGoOn M.outside I.outside W.outside on.started self.new }
        ensures goes { GoesOnBy M.outside I.outside C.outside W.outside O.outside on
            (letter_of event) self.old self.new }
    {
        match event {
            Event::Control => self.carry(),
            Event::Butler => {
                self.run.turn();
            }
            Event::Enter => self.run.enter(),
            Event::Gather => self.run.gather(),
            Event::Cycle => self.run.cycle(),
        }
    }

    /// These events, in their order.
    pub fn events(&mut self, events: &[Event])
        ghost on: { Course M I C W O }
        requires { IsGoing M.outside I.outside C.outside W.outside O.outside (given on) self.old }
        ensures { IsGoing M.outside I.outside C.outside W.outside O.outside
            (given (and_given events.now on)) self.new }
    {
        for at in 0..events.len() {
            let event = events[at];
            self.event(event);
        }
    }
}
