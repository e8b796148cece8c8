//! The looks of a cycle.
ghost use Rattle.std.specs.Prelude.{◌≡◌, ◌≤◌, true};
ghost use Rattle.process_cycle.specs.declared.process.Look.TheVariants.{Ready};
ghost use Rattle.process_cycle.specs.Looked.{HasLooked, Keeps, LookAnswers, LooksAtAll, MayLook};
ghost use Rattle.process_cycle.specs.Playing.{IsPlaying};
ghost use Rattle.process_cycle.specs.ProcessState.{Playing, entered};
ghost use Rattle.process_cycle.specs.Promised.{IsMastered};
ghost use Rattle.play_worker.specs.Patient.{AllGoOn, LooksPatiently};

use edition_log::Edition;
use process_cycle::{Look, Process};
use run_bells::Bells;
use ses_io::{Sink, Source};
use std::thread;

// Whether a look found all.
fn is_ready(look: Look) -> bool
    ensures { result ≡ true → look ≡ Ready }
{
    match look {
        Look::Ready => true,
        Look::Short => false,
    }
}

/// Looks at each track in an edition that goes on from the one given last, and again while a piece isn't there, so many
/// times at most in all, and the butler is woken before each; a closed ring ends this at once. It takes no memory, no lock and no wait.
pub fn look_up<I: Source, W: Sink>(
    process: &mut Process<I, W>,
    e: &Edition,
    patience: u64,
    bells: &Bells,
)
    ghost at: { Playing }
    requires some { 1 ≤ patience }
    requires may { MayLook I.outside at process.old e.now }
    requires mastered { IsMastered W.outside at process.old }
    ensures playing { IsPlaying I.outside (entered e.now.edits at) process.new }
    ensures looked { HasLooked (entered e.now.edits at) process.new }
    ensures patient { LooksPatiently patience e.now process.old process.new }
    ensures rings { AllGoOn process.old.ends.plays.items process.new.ends.plays.items }
    ensures keeps { Keeps process.old process.new }
    ensures mastered { IsMastered W.outside (entered e.now.edits at) process.new }
{
    let mut look = process.gather(e);
    for _look in 1..patience {
        if is_ready(look) {
            return;
        }
        if process.closed() {
            return;
        }
        bells.wake_butler();
        thread::yield_now();
        look = again(process, e);
    }
}

// One look more in the same edition.
fn again<I: Source, W: Sink>(process: &mut Process<I, W>, e: &Edition) -> Look
    ghost at: { Playing }
    requires may { MayLook I.outside at process.old e.now }
    requires mastered { IsMastered W.outside at process.old }
    ensures playing { IsPlaying I.outside (entered e.now.edits at) process.new }
    ensures looked { HasLooked (entered e.now.edits at) process.new }
    ensures looks { LooksAtAll e.now process.old process.new }
    ensures answer { LookAnswers e.now.transport.rolling process.old result process.new }
    ensures keeps { Keeps process.old process.new }
    ensures mastered { IsMastered W.outside (entered e.now.edits at) process.new }
{
    process.gather(e)
}
