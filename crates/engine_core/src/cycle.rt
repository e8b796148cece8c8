//! A serial cycle: the process enters, the butler serves it by turns with looks in between, and the process makes it.
ghost use Rattle.machine_model.specs.Rest.{BeforeTurn, BeforeEntry};
ghost use Rattle.run_end.specs.Started.{Started};
ghost use Rattle.engine_core.specs.UnderWay.{IsUnderWay};
ghost use Rattle.engine_core.specs.Fed.{Feeds, PlaysPlain};
ghost use Rattle.engine_core.specs.Lost.{CapturesStand, IsFlushed, LosesNone};
ghost use Rattle.engine_core.specs.Serial.{PlaysNewest};
ghost use Rattle.engine_core.specs.WentOn.{WentOn};
ghost use Rattle.engine_core.specs.Cycles.{EndsIdle, GoesAsMachine, IsServed, MakesAnEntry, MayPlay, PlaysAsMachine};

use crate::run::Run;
use ses_io::{Media, Sink, Source};

// Turns and looks in turn, until a turn is idle. A turn that failed isn't.
fn serve<M: Media, I: Source, W: Sink>(run: &mut Run<M, I, W>)
    ghost on: { Started M I W }
    requires { IsUnderWay M.outside I.outside W.outside on run.old }
    ensures under_way { IsUnderWay M.outside I.outside W.outside on run.new }
    ensures served { IsServed run.old run.new }
    ensures captures { CapturesStand run.old run.new }
    ensures ends_idle { EndsIdle M.outside on run.new }
    ensures flushed { IsFlushed run.new }
    ensures feeds { Feeds on.begun.session run.old run.new }
    ensures as_machine { GoesAsMachine on.begun.session BeforeTurn BeforeEntry run.old run.new }
{
    'serving: loop {
        let idle = run.turn();
        if idle {
            return;
        }
        run.gather();
    }
}

/// A serial cycle, where one may be made. It takes no memory.
pub(crate) fn serial_cycle<M: Media, I: Source, W: Sink>(run: &mut Run<M, I, W>)
    ghost on: { Started M I W }
    requires under_way { IsUnderWay M.outside I.outside W.outside on run.old }
    requires may { MayPlay run.old }
    ensures under_way { IsUnderWay M.outside I.outside W.outside on run.new }
    ensures went_on { WentOn run.old run.new }
    ensures makes { MakesAnEntry run.old run.new }
    ensures loses_none { LosesNone run.old run.new }
    ensures newest { PlaysNewest run.old run.new }
    ensures plays_plain { PlaysPlain on.begun.session run.old run.new }
    ensures as_machine { PlaysAsMachine on.begun.session run.old run.new }
{
    run.enter();
    serve(run);
    run.cycle();
}
