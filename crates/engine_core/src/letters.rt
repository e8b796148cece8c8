//! The letters B, E, G and P: a turn of the butler, and what the process does. Once the process has stopped, its letters do nothing.
ghost use Rattle.std.specs.Prelude.{◌≡◌, true};
ghost use Rattle.process_cycle.specs.Looked.{HasLooked};
ghost use Rattle.worker_pair.specs.Begun.{playing_at};
ghost use Rattle.run_end.specs.Started.{Started};
ghost use Rattle.engine_core.specs.Now.{now_of};
ghost use Rattle.engine_core.specs.UnderWay.{IsUnderWay};
ghost use Rattle.engine_core.specs.Letters.{TurnsOn, EntersOn, GathersOn, CyclesOn, TurnIsB, EnteringIsE, GatheringIsG, CycleIsP};

use crate::run::Run;
use run_end::is_idle;
use ses_io::{Media, Sink, Source};

impl<M: Media, I: Source, W: Sink> Run<M, I, W> {
    /// The letter B: a turn of the butler of one item, in the newest edition. Whether it was Idle.
    pub fn turn(&mut self) -> bool
        ghost on: { Started M I W }
        requires { IsUnderWay M.outside I.outside W.outside on self.old }
        ensures under_way { IsUnderWay M.outside I.outside W.outside on self.new }
        ensures turns { TurnsOn M.outside on self.old result self.new }
        ensures letter { TurnIsB on.begun.session self.old result self.new }
    {
        let answer = self.pair.turn();
        self.failed = self.failed.after_turn(&answer);
        is_idle(&answer)
    }

    /// The letter E: the process enters the newest edition, where it may.
    pub fn enter(&mut self)
        ghost on: { Started M I W }
        requires { IsUnderWay M.outside I.outside W.outside on self.old }
        ensures under_way { IsUnderWay M.outside I.outside W.outside on self.new }
        ensures enters { EntersOn self.old self.new }
        ensures letter { EnteringIsE on.begun.session self.old self.new }
    {
        if !self.failed.has_stopped() {
            self.pair.enter();
        }
    }

    /// The letter G: the process enters likewise, and looks once at each track.
    pub fn gather(&mut self)
        ghost on: { Started M I W }
        requires { IsUnderWay M.outside I.outside W.outside on self.old }
        ensures under_way { IsUnderWay M.outside I.outside W.outside on self.new }
        ensures gathers { GathersOn self.old self.new }
        ensures looked { self.new.pair.in_cycle ≡ true
            → HasLooked (playing_at (now_of on self.new)) self.new.pair.process }
        ensures letter { GatheringIsG on.begun.session self.old self.new }
    {
        self.enter();
        if !self.pair.in_cycle {
            return;
        }
        self.pair.look();
    }

    /// The letter P: the process does the same, and makes its cycle.
    pub fn cycle(&mut self)
        ghost on: { Started M I W }
        requires { IsUnderWay M.outside I.outside W.outside on self.old }
        ensures under_way { IsUnderWay M.outside I.outside W.outside on self.new }
        ensures cycles { CyclesOn I.outside W.outside on self.old self.new }
        ensures letter { CycleIsP on.begun.session self.old self.new }
    {
        self.gather();
        if !self.pair.in_cycle {
            return;
        }
        // by which the session of its edition is valid
        let _session = self.pair.playing.session();
        let answer = self.pair.cycle();
        self.failed = self.failed.after_cycle(&answer);
    }
}
