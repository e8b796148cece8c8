//! What a command is carried out as. What isn't built yet is no command: a play with threads.
ghost use Rattle.std.specs.Prelude.{◌≡◌, ℕ, IfSome};
ghost use Rattle.std.specs.Option.{option_map};
ghost use Rattle.command_words.specs.Spoken.{KeepsRanges, command_view, export_view, mode_view, play_view, IsInRange, IsPlayInRange};
ghost use Rattle.session_play.specs.Request.{IsAsked, letters_of, request_view};
ghost use Rattle.session_run.specs.Tasks as spec;
ghost use Rattle.session_run.specs.Tasks.{IsTaskInRange, task_view};

use command_words::{Command, Export, Mode, Play, Render, Verify, command};
use run_world::Script;
use session_play::{Letters, Request};

/// What is to be done.
#[derive(Clone, Copy)]
pub(crate) enum Task<'a> {
    /// A run on one thread: an export or a play.
    Run(Request<'a>),
    Migrate { session: &'a str },
    Check { session: &'a str },
    Render(Render<'a>),
    Verify(Verify<'a>),
    Gen { number: u32 },
}

// An export is a run by its own two lines.
fn export_request<'a>(asked: &Export<'a>) -> Request<'a>
    requires { IsInRange asked.now }
    ensures value { request_view result ≡ spec.export_request (export_view asked.now) }
    ensures range { IsAsked result }
{
    Request {
        session: asked.session,
        cycles: asked.cycles,
        script: Some(Script { from: asked.from }),
        letters: Letters::Absent,
    }
}

// The letters of a play; None where it is to run on threads.
fn letters_by<'a>(mode: Mode<'a>) -> Option<Letters<'a>>
    ensures { (cycles : ℕ) → option_map (λ l. letters_of l cycles) result
        ≡ spec.letters_by (mode_view mode.entry) cycles }
{
    match mode {
        Mode::Serial => Some(Letters::Absent),
        Mode::Steps(text) => Some(Letters::Steps(text)),
        Mode::Seed(seed) => Some(Letters::Seed(seed)),
        Mode::Threads { .. } => None,
    }
}

// A play is a run by control's lines.
fn play_request<'a>(asked: &Play<'a>) -> Option<Request<'a>>
    requires { IsPlayInRange asked.now }
    ensures value { option_map request_view result
        ≡ option_map (spec.play_request (play_view asked.now))
        (spec.letters_by (mode_view asked.now.mode) asked.now.cycles) }
    ensures range { IfSome result IsAsked }
{
    let letters = letters_by(asked.mode)?;
    Some(Request {
        session: asked.session,
        cycles: asked.cycles,
        script: None,
        letters,
    })
}

// What a command is carried out as; None of one that isn't built yet.
fn task_of(asked: Command<'_>) -> Option<Task<'_>>
    requires { KeepsRanges asked }
    ensures value { option_map task_view result ≡ spec.task_of (command_view asked.entry) }
    ensures range { IfSome result IsTaskInRange }
{
    match asked {
        Command::Export(asked) => Some(Task::Run(export_request(&asked))),
        Command::Play(asked) => Some(Task::Run(play_request(&asked)?)),
        Command::Migrate { session } => Some(Task::Migrate { session }),
        Command::Check { session } => Some(Task::Check { session }),
        Command::Render(asked) => Some(Task::Render(asked)),
        Command::Verify(asked) => Some(Task::Verify(asked)),
        Command::Gen { number } => Some(Task::Gen { number }),
    }
}

/// What the words ask to be done.
pub(crate) fn asked_by<'a>(words: &[&'a str]) -> Option<Task<'a>>
    ensures value { option_map task_view result ≡ spec.asked_by words.now }
    ensures range { IfSome result IsTaskInRange }
{
    let asked = command(words)?;
    task_of(asked)
}
