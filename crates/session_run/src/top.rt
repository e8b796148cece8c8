//! The top calls: the words are read, and what they ask for is done with the world.
ghost use Rattle.std.specs.Prelude.{◌≡◌, ◌↔◌, None};
ghost use Rattle.session_run.specs.Headline.{EndsAsAsked, HasCauses, IsComplete, LeavesTheRest, PlaysAsAsked, RendersAsAsked, RepliesAsAsked};
ghost use Rattle.session_run.specs.Status.{IsStatusOf};
ghost use Rattle.session_run.specs.Tasks.{asked_by};

use crate::answer::answer;
use crate::task::asked_by;
use cycle_journal::Status;
use ses_io::{Media, Sink, Source, World};
use session_play::Outcome;
use std::alloc::Global;
use std::sync::Wait;
use std::thread::Threads;

/// Does what the words ask for, on one thread. The words are those after the program's name. What a run plays, writes, records and answers
/// is said by `played`. It is for a caller that has no threads: it needs no runtime and can't wait, so it returns where each call of its
/// world does.
pub fn run_alone<M: Media, I: Source, C: Source, W: Sink, O: Sink>(
    alloc: Global,
    words: &[&str],
    world: World<M, I, C, W, O>,
) -> Outcome<M, I, C, W, O>
    ensures usage { (result.status ≡ Status.Usage) ↔ (asked_by words.now ≡ None) }
    ensures ends { EndsAsAsked M.outside I.outside world (asked_by words.now) result.status }
    ensures status { IsStatusOf (asked_by words.now) result.status }
    ensures played { PlaysAsAsked M.outside I.outside C.outside W.outside O.outside world
        (asked_by words.now) result }
    ensures rendered { M.outside.tells
        → RendersAsAsked M.outside W.outside world (asked_by words.now) result }
    ensures replies { RepliesAsAsked M.outside O.outside world (asked_by words.now) result }
    ensures complete { IsComplete M.outside I.outside C.outside W.outside O.outside world
        (asked_by words.now) result }
    ensures causes { HasCauses M.outside I.outside C.outside W.outside O.outside world
        (asked_by words.now) result }
    ensures rest { LeavesTheRest M.outside world (asked_by words.now)
        result.status result.world }
{
    answer(alloc, asked_by(words), world)
}

/// Does what the words ask for, by `run_alone`: a run, which is an export or a play, goes on one thread, so the runtime has nothing to do
/// yet. Its contract doesn't say that it returns, as its runtime may wait; that of `run_alone` does.
pub fn run<R, M, I, C, W, O>(
    _rt: &R,
    alloc: Global,
    words: &[&str],
    world: World<M, I, C, W, O>,
) -> Outcome<M, I, C, W, O>
where
    R: Threads + Wait + Sync,
    M: Media + Send,
    I: Source + Send,
    C: Source + Send,
    W: Sink + Send,
    O: Sink + Send,
    ensures usage { (result.status ≡ Status.Usage) ↔ (asked_by words.now ≡ None) }
    ensures ends { EndsAsAsked M.outside I.outside world (asked_by words.now) result.status }
    ensures status { IsStatusOf (asked_by words.now) result.status }
    ensures played { PlaysAsAsked M.outside I.outside C.outside W.outside O.outside world
        (asked_by words.now) result }
    ensures rendered { M.outside.tells
        → RendersAsAsked M.outside W.outside world (asked_by words.now) result }
    ensures replies { RepliesAsAsked M.outside O.outside world (asked_by words.now) result }
    ensures complete { IsComplete M.outside I.outside C.outside W.outside O.outside world
        (asked_by words.now) result }
    ensures causes { HasCauses M.outside I.outside C.outside W.outside O.outside world
        (asked_by words.now) result }
    ensures rest { LeavesTheRest M.outside world (asked_by words.now)
        result.status result.world }
{
    run_alone(alloc, words, world)
}
