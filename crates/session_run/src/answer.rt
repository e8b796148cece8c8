//! A task is carried out; of one that isn't a run the line is written then that says how it failed.
ghost use Rattle.std.specs.Prelude.{IfSome, Some};
ghost use Rattle.std.specs.Option.{option_map};
ghost use Rattle.session_run.specs.Headline.{Does};
ghost use Rattle.session_run.specs.Replied.{WritesItsLine};
ghost use Rattle.session_run.specs.Tasks.{IsTaskInRange, task_view};

use crate::check::check;
use crate::generate::generate;
use crate::migrate::migrate;
use crate::render::render;
use crate::task::Task;
use crate::verify::verify;
use cycle_journal::Status;
use fault_lines::write_fault;
use ses_io::{Media, Sink, Source, World};
use session_play::{Outcome, play, unplayed};
use std::alloc::Global;

// Writes the line of the status to out, where it has one.
fn with_line<M, I, C, W, O: Sink>(ended: Outcome<M, I, C, W, O>) -> Outcome<M, I, C, W, O>
    ensures { WritesItsLine O.outside ended result }
{
    let mut ended = ended;
    // Where this write fails too the status stays.
    let _ = write_fault(&mut ended.world.out, &ended.status);
    ended
}

// Does a task. The line of its status is written by a run itself, and behind what another command does.
fn done<M: Media, I: Source, C: Source, W: Sink, O: Sink>(
    alloc: Global,
    task: Task<'_>,
    world: World<M, I, C, W, O>,
) -> Outcome<M, I, C, W, O>
    requires { IsTaskInRange task }
    ensures { Does M.outside I.outside C.outside W.outside O.outside world
        (Some (task_view task.entry)) result }
{
    match task {
        Task::Run(asked) => play(alloc, &asked, world),
        Task::Migrate { session } => with_line(migrate(alloc, session, world)),
        Task::Check { session } => with_line(check(alloc, session, world)),
        Task::Render(asked) => with_line(render(alloc, &asked, world)),
        Task::Verify(asked) => with_line(verify(alloc, &asked, world)),
        Task::Gen { number } => with_line(generate(alloc, number, world)),
    }
}

/// Does what is asked for, and writes the line of the status to out, where it has one.
pub(crate) fn answer<M: Media, I: Source, C: Source, W: Sink, O: Sink>(
    alloc: Global,
    asked: Option<Task<'_>>,
    world: World<M, I, C, W, O>,
) -> Outcome<M, I, C, W, O>
    requires { IfSome asked IsTaskInRange }
    ensures { Does M.outside I.outside C.outside W.outside O.outside world
        (option_map task_view asked.entry) result }
{
    match asked {
        Some(task) => done(alloc, task, world),
        None => with_line(unplayed(alloc, Status::Usage, world)),
    }
}
