//! The command that the words of the command line are.
ghost use Rattle.std.specs.Prelude.{◌≡◌, IfSome};
ghost use Rattle.std.specs.Option.{option_map};
ghost use Rattle.command_words.specs.Options.{marked};
ghost use Rattle.command_words.specs.Words as spec;
ghost use Rattle.command_words.specs.Spoken.{texts, export_view, render_view, play_view, verify_view, command_view, settings_view, parts_view, verb_view, IsInRange, IsRenderInRange, IsPlayInRange, KeepsRanges};

use crate::asked::{Command, Export, Play, Render, Verify};
use crate::modes::mode_of;
use crate::numbers::{number, within};
use crate::options::Setting;
use crate::parts::{Parts, parted};
use crate::verbs::{Verb, verb_of};
use ses_units::limits::{CYCLES, END};
use session_model::is_file_name;

// The most frames of a render: as many as the longest run has.
const FRAMES: u128 = 409_600_000;

// The greatest number that a session is made from.
const NUMBER: u128 = 8_191;

#[tactic(auto, unfolding(crate::specs::Words::export_of))]
fn export_of<'a>(session: &'a str, from: &str, cycles: &str) -> Option<Export<'a>>
    ensures value { option_map export_view result ≡ spec.export_of session.now from.now cycles.now }
    ensures range { IfSome result IsInRange }
{
    if !is_file_name(session.as_bytes()) {
        return None;
    }
    let from = within(0, u128::from(END - 1), number(from))?;
    let cycles = within(1, u128::from(CYCLES), number(cycles))?;
    Some(Export {
        session,
        from: from as u64,
        cycles: cycles as u32,
    })
}

#[tactic(auto, unfolding(crate::specs::Words::export_of))]
fn export_by<'a>(words: &[&'a str]) -> Option<Command<'a>>
    ensures value { option_map command_view result ≡ spec.export_by (texts words.now) }
    ensures range { IfSome result KeepsRanges }
{
    match words {
        [session, from, cycles] => Some(Command::Export(export_of(session, from, cycles)?)),
        _ => None,
    }
}

#[tactic(auto, unfolding(crate::specs::Words::render_of))]
fn render_of<'a>(session: &'a str, from: &str, frames: &str) -> Option<Render<'a>>
    ensures value { option_map render_view result ≡ spec.render_of session.now from.now frames.now }
    ensures range { IfSome result IsRenderInRange }
{
    if !is_file_name(session.as_bytes()) {
        return None;
    }
    let from = within(0, u128::from(END - 1), number(from))?;
    let frames = within(1, FRAMES, number(frames))?;
    Some(Render {
        session,
        from: from as u64,
        frames: frames as u32,
    })
}

#[tactic(auto, unfolding(crate::specs::Words::render_of))]
fn render_by<'a>(words: &[&'a str]) -> Option<Command<'a>>
    ensures value { option_map command_view result ≡ spec.render_by (texts words.now) }
    ensures range { IfSome result KeepsRanges }
{
    match words {
        [session, from, frames] => Some(Command::Render(render_of(session, from, frames)?)),
        _ => None,
    }
}

#[tactic(auto, unfolding(crate::specs::Words::play_of))]
fn play_of<'a>(session: &'a str, cycles: &str, setting: Option<Setting<'a>>) -> Option<Play<'a>>
    ensures value { option_map play_view result
        ≡ spec.play_of session.now cycles.now (settings_view setting.entry) }
    ensures range { IfSome result IsPlayInRange }
{
    if !is_file_name(session.as_bytes()) {
        return None;
    }
    let cycles = within(1, u128::from(CYCLES), number(cycles))?;
    let mode = mode_of(setting)?;
    Some(Play {
        session,
        cycles: cycles as u32,
        mode,
    })
}

#[tactic(auto, unfolding(crate::specs::Words::play_of))]
fn play_by<'a>(words: &[&'a str], setting: Option<Setting<'a>>) -> Option<Command<'a>>
    ensures value { option_map command_view result
        ≡ spec.play_by (texts words.now) (settings_view setting.entry) }
    ensures range { IfSome result KeepsRanges }
{
    match words {
        [session, cycles] => Some(Command::Play(play_of(session, cycles, setting)?)),
        _ => None,
    }
}

#[tactic(auto, unfolding(crate::specs::Words::verify_of))]
fn verify_of<'a>(session: &'a str, report: &'a str, master: &'a str) -> Option<Verify<'a>>
    ensures { option_map verify_view result
        ≡ spec.verify_of session.now report.now master.now }
{
    if is_file_name(session.as_bytes())
        && is_file_name(report.as_bytes())
        && is_file_name(master.as_bytes())
    {
        Some(Verify {
            session,
            report,
            master,
        })
    } else {
        None
    }
}

#[tactic(auto, unfolding(crate::specs::Words::verify_of))]
fn verify_by<'a>(words: &[&'a str]) -> Option<Command<'a>>
    ensures value { option_map command_view result ≡ spec.verify_by (texts words.now) }
    ensures range { IfSome result KeepsRanges }
{
    match words {
        [session, report, master] => { Some(Command::Verify(verify_of(session, report, master)?)) }
        _ => None,
    }
}

fn gen_by<'a>(words: &[&'a str]) -> Option<Command<'a>>
    ensures value { option_map command_view result ≡ spec.gen_by (texts words.now) }
    ensures range { IfSome result KeepsRanges }
{
    match words {
        [word] => {
            let number = within(0, NUMBER, number(word))?;
            Some(Command::Gen {
                number: number as u32,
            })
        }
        _ => None,
    }
}

// The one word, where it is a file's name.
fn session_by<'a>(words: &[&'a str]) -> Option<&'a str>
    ensures { option_map (λ w. w.now) result ≡ spec.session_by (texts words.now) }
{
    match words {
        [session] if is_file_name(session.as_bytes()) => Some(session),
        _ => None,
    }
}

// The command of that name, with these words and no option.
fn bare<'a>(verb: Verb, words: &[&'a str]) -> Option<Command<'a>>
    ensures value { option_map command_view result
        ≡ spec.made (verb_view verb) (marked (texts words.now)) }
    ensures range { IfSome result KeepsRanges }
{
    match verb {
        Verb::Check => Some(Command::Check {
            session: session_by(words)?,
        }),
        Verb::Render => render_by(words),
        Verb::Export => export_by(words),
        Verb::Migrate => Some(Command::Migrate {
            session: session_by(words)?,
        }),
        Verb::Play => play_by(words, None),
        Verb::Verify => verify_by(words),
        Verb::Gen => gen_by(words),
    }
}

// The command of that name, with these words.
fn made<'a>(verb: Verb, parts: &Parts<'a>) -> Option<Command<'a>>
    ensures value { option_map command_view result
        ≡ spec.made (verb_view verb) (parts_view parts.now) }
    ensures range { IfSome result KeepsRanges }
{
    let words = parts.positional.as_slice();
    match (verb, parts.setting) {
        (_, None) => bare(verb, words),
        (Verb::Play, setting) => play_by(words, setting),
        (_, Some(_)) => None,
    }
}

/// The command that the words are; None where they are none.
pub fn command<'a>(words: &[&'a str]) -> Option<Command<'a>>
    ensures value { option_map command_view result ≡ spec.command (texts words.now) }
    ensures range { IfSome result KeepsRanges }
{
    let (name, others) = words.split_first()?;
    let verb = verb_of(name)?;
    let parts = parted(others)?;
    made(verb, &parts)
}
