//! How a process looks at its tracks.
ghost use Rattle.std.specs.Prelude.{◌≡◌};
ghost use Rattle.track_playback.specs.Answers.{AllShow};
ghost use Rattle.process_cycle.specs.ProcessState.{Playing, entered, position_of};
ghost use Rattle.process_cycle.specs.Promised.{IsMastered};
ghost use Rattle.process_cycle.specs.Playing.{IsPlaying};
ghost use Rattle.process_cycle.specs.Looked.{Finds, HasLooked, Keeps, LookAnswers, LooksAtAll, MayLook, rolled_by_now};

use crate::process::{Look, Process};
use edition_log::Edition;
use ses_io::{Sink, Source};
use track_playback::{PlayPosition, all_there, look_at_all};

impl<I: Source, W: Sink> Process<I, W> {
    /// One look of each track, in an edition that goes on from the one given last. It takes no
    /// memory, and waits for nobody.
    pub fn look(&mut self, e: &Edition)
        ghost at: { Playing }
        requires { MayLook I.outside at self.old e.now }
        ensures playing { IsPlaying I.outside (entered e.now.edits at) self.new }
        ensures looked { HasLooked (entered e.now.edits at) self.new }
        ensures looks { LooksAtAll e.now self.old self.new }
        ensures shows { AllShow (position_of self.new) self.new.ends.plays.items
            self.new.playbacks }
        ensures keeps { Keeps self.old self.new }
        ensures master { IsMastered W.outside at self.old
            → IsMastered W.outside (entered e.now.edits at) self.new }
    {
        let transport = e.transport();
        let at = PlayPosition {
            depth: self.depth,
            generation: transport.generation,
            next: self.rolled_in(transport.generation),
        };
        look_at_all(
            self.ends.plays.as_mut_slice(),
            self.playbacks.as_mut_slice(),
            at,
        );
        self.entered = e.number();
        self.generation = at.generation;
        self.next = at.next;
    }

    /// The same, and what it found.
    pub fn gather(&mut self, e: &Edition) -> Look
        ghost at: { Playing }
        requires { MayLook I.outside at self.old e.now }
        ensures playing { IsPlaying I.outside (entered e.now.edits at) self.new }
        ensures looked { HasLooked (entered e.now.edits at) self.new }
        ensures looks { LooksAtAll e.now self.old self.new }
        ensures answer { LookAnswers e.now.transport.rolling self.old result self.new }
        ensures keeps { Keeps self.old self.new }
        ensures master { IsMastered W.outside at self.old
            → IsMastered W.outside (entered e.now.edits at) self.new }
    {
        self.look(e);
        self.found(e.transport().rolling)
    }

    // What the last look found, where the transport rolls or doesn't.
    fn found(&self, rolling: bool) -> Look
        requires { AllShow (position_of self.now) self.now.ends.plays.items self.now.playbacks }
        ensures { Finds rolling self.now result }
    {
        let at = self.position();
        if !rolling || all_there(self.ends.plays.as_slice(), self.playbacks.as_slice(), at) {
            Look::Ready
        } else {
            Look::Short
        }
    }

    // How many entries rolled in a generation that isn't older than the one last given.
    fn rolled_in(&self, generation: u32) -> u32
        ensures { result ≡ rolled_by_now self.now generation }
    {
        if self.generation == generation {
            self.next
        } else {
            0
        }
    }
}
