//! The serial rest of a run: a line where one is due, else a cycle, until neither is left.
ghost use Rattle.std.specs.Prelude.{◌≡◌};
ghost use Rattle.machine_model.specs.Rest.{Between};
ghost use Rattle.run_end.specs.Started.{Started};
ghost use Rattle.engine_core.specs.UnderWay.{IsUnderWay};
ghost use Rattle.engine_core.specs.Events.{Course, given};
ghost use Rattle.engine_core.specs.Going.{IsGoing};
ghost use Rattle.engine_core.specs.Shows.{shows};
ghost use Rattle.engine_core.specs.Due.{IsFinished, in_rest, is_finished, is_line_due};

use crate::cycle::serial_cycle;
use crate::engine::{Engine, progress};
use ses_io::{Media, Sink, Source};

// Whether control has a line to carry out, or may find that none is left.
fn is_line_due<M: Media, I: Source, C: Source, W: Sink, O: Sink>(
    engine: &Engine<M, I, C, W, O>,
) -> bool
    ghost on: { Started M I W }
    requires { IsUnderWay M.outside I.outside W.outside on engine.now.run }
    ensures { result ≡ is_line_due (shows engine.now.run) engine.now.control.standing }
{
    let seen = progress(&engine.run);
    match engine.control.awaits() {
        Some(awaited) => seen.is_over(awaited),
        None => !engine.control.has_ended(),
    }
}

// Whether control has ended, and no cycle is made any more: after a quit, or where none can run.
fn is_finished<M: Media, I: Source, C: Source, W: Sink, O: Sink>(
    engine: &Engine<M, I, C, W, O>,
) -> bool
    ghost on: { Started M I W }
    requires { IsUnderWay M.outside I.outside W.outside on engine.now.run }
    ensures { result ≡ is_finished engine.now }
{
    engine.control.has_ended()
        && (engine.run.pair.edition.transport().quit || engine.run.is_played_out())
}

/// The serial rest of a run whose letters are over, but for the butler's last turns. While something
/// is awaited cycles are made, until it is over; then the next line is carried out. Once control has
/// ended cycles are made until no further one can run; after a quit none is. It takes no memory.
pub fn play_on<M: Media, I: Source, C: Source, W: Sink, O: Sink>(engine: &mut Engine<M, I, C, W, O>)
    ghost on: { Course M I C W O }
    requires { IsGoing M.outside I.outside C.outside W.outside O.outside (given on) engine.old }
    ensures going { IsGoing M.outside I.outside C.outside W.outside O.outside
        (in_rest Between on) engine.new }
    ensures finished { IsFinished engine.new }
{
    'playing: while !is_finished(engine) {
        if is_line_due(engine) {
            engine.carry();
        } else {
            serial_cycle(&mut engine.run);
        }
    }
}
