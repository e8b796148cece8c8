//! What one line says.
ghost use Rattle.std.specs.Prelude.{◌≡◌};
ghost use Rattle.std.specs.List.{list_all};
ghost use Rattle.edit_script.specs.Reading.{command_of, seen_as, read_line, line_of, said};
ghost use Rattle.edit_script.specs.Words.{is_text};
ghost use Rattle.edit_script.specs.Kept.{kept};
ghost use Rattle.edit_script.specs.declared.command.Command.TheVariants.{Do};
ghost use Rattle.edit_script.specs.declared.verb.Verb.TheVariants as verbs;

use crate::command::Command;
use crate::refusal::LineRefusal;
use crate::verb::{Blend, Desk, Region, Strip, Transport, Verb};
use crate::words::Words;
use session_model::Edit;

// The longest line, in bytes.
const LONGEST: usize = 4_096;

fn transport(verb: Transport, words: &Words) -> Result<Edit, LineRefusal>
    ensures { seen_as Do result ≡ command_of (verbs.Transport verb) (kept words.now) }
{
    Ok(match verb {
        Transport::Roll => Edit::Roll,
        Transport::Stop => Edit::Stop,
        Transport::Quit => Edit::Quit,
        Transport::Record => Edit::Recording {
            on: words.switch(2)?,
        },
        Transport::Locate => Edit::Locate {
            to: words.number(2)?,
        },
        Transport::Loop => Edit::Loop {
            from: words.number(2)?,
            to: words.number(3)?,
        },
        Transport::LoopOff => {
            words.off(2)?;
            Edit::LoopOff
        }
    })
}

fn strip(verb: Strip, words: &Words) -> Result<Edit, LineRefusal>
    ensures { seen_as Do result ≡ command_of (verbs.Strip verb) (kept words.now) }
{
    Ok(match verb {
        Strip::Arm => Edit::Arm {
            track: words.name(2)?,
            on: words.switch(3)?,
        },
        Strip::Solo => Edit::Solo {
            track: words.name(2)?,
            on: words.switch(3)?,
        },
        Strip::Mute => Edit::Mute {
            route: words.name(2)?,
            on: words.switch(3)?,
        },
        Strip::Gain => Edit::Gain {
            route: words.name(2)?,
            gain: words.number(3)?,
        },
        Strip::Pan => Edit::Pan {
            route: words.name(2)?,
            left: words.number(3)?,
            right: words.number(4)?,
        },
        Strip::Mode => Edit::Mode {
            route: words.name(2)?,
            mode: words.mode(3)?,
        },
    })
}

fn desk(verb: Desk, words: &Words) -> Result<Edit, LineRefusal>
    ensures { seen_as Do result ≡ command_of (verbs.Desk verb) (kept words.now) }
{
    Ok(match verb {
        Desk::Point => Edit::Point {
            route: words.name(2)?,
            at: words.number(3)?,
            gain: words.number(4)?,
        },
        Desk::Unpoint => Edit::Unpoint {
            route: words.name(2)?,
            at: words.number(3)?,
        },
        Desk::Connect => Edit::Connect {
            route: words.name(2)?,
            target: words.name(3)?,
        },
        Desk::Send => Edit::Send {
            route: words.name(2)?,
            target: words.name(3)?,
            pre: words.pre(4)?,
            gain: words.number(5)?,
        },
        Desk::Unsend => Edit::Unsend {
            route: words.name(2)?,
            target: words.name(3)?,
        },
    })
}

fn region(verb: Region, words: &Words) -> Result<Edit, LineRefusal>
    ensures { seen_as Do result ≡ command_of (verbs.Region verb) (kept words.now) }
{
    Ok(match verb {
        Region::Add => Edit::Add {
            track: words.name(2)?,
            id: words.id(3)?,
            source: words.name(4)?,
            start: words.number(5)?,
            length: words.length(6)?,
            at: words.number(7)?,
            layer: words.layer(8)?,
        },
        Region::Remove => Edit::Remove {
            track: words.name(2)?,
            id: words.id(3)?,
        },
        Region::Move => Edit::Move {
            track: words.name(2)?,
            id: words.id(3)?,
            at: words.number(4)?,
        },
        Region::Trim => Edit::Trim {
            track: words.name(2)?,
            id: words.id(3)?,
            start: words.number(4)?,
            length: words.length(5)?,
        },
    })
}

fn blend(verb: Blend, words: &Words) -> Result<Edit, LineRefusal>
    ensures { seen_as Do result ≡ command_of (verbs.Blend verb) (kept words.now) }
{
    Ok(match verb {
        Blend::Layer => Edit::Layer {
            track: words.name(2)?,
            id: words.id(3)?,
            layer: words.layer(4)?,
        },
        Blend::Opaque => Edit::Opaque {
            track: words.name(2)?,
            id: words.id(3)?,
            on: words.switch(4)?,
        },
        Blend::Gain => Edit::RegionGain {
            track: words.name(2)?,
            id: words.id(3)?,
            gain: words.number(4)?,
        },
        Blend::Fade => Edit::Fade {
            track: words.name(2)?,
            id: words.id(3)?,
            fade_in: words.number(4)?,
            fade_out: words.number(5)?,
        },
        Blend::Shape => Edit::Shape {
            track: words.name(2)?,
            id: words.id(3)?,
            shape_in: words.shape(4)?,
            shape_out: words.shape(5)?,
        },
    })
}

fn command(verb: Verb, words: &Words) -> Result<Command, LineRefusal>
    ensures { result ≡ command_of verb (kept words.now) }
{
    Ok(match verb {
        Verb::Transport(verb) => Command::Do(transport(verb, words)?),
        Verb::Strip(verb) => Command::Do(strip(verb, words)?),
        Verb::Desk(verb) => Command::Do(desk(verb, words)?),
        Verb::Region(verb) => Command::Do(region(verb, words)?),
        Verb::Blend(verb) => Command::Do(blend(verb, words)?),
        Verb::Wait => Command::Wait(words.cycles(2)?),
        Verb::Sync => Command::Sync,
    })
}

fn is_text(line: &[u8]) -> bool
    ensures { result ≡ list_all is_text line.now }
{
    line.iter()
        .all(|b| *b == b'\t' || (b' ' <= *b && *b <= b'~'))
}

/// What a line says; it stands without its line feed and the carriage return before that. Words
/// count from 1, and the first refusal is given, in the order of `LineRefusal`. It takes no memory.
#[tactic(auto, unfolding(crate::specs::Reading::read_line))]
pub fn parse(line: &[u8]) -> Result<Command, LineRefusal>
    ensures said { result ≡ said line.now }
    ensures line { line_of result ≡ read_line line.now }
{
    if line.len() > LONGEST {
        return Err(LineRefusal::Long);
    }
    if !is_text(line) {
        return Err(LineRefusal::NotText);
    }
    let words = Words::of(line);
    if words.count() == 0 || words.at(1).starts_with(b"#") {
        return Ok(Command::Nothing);
    }
    let verb = Verb::of(words.at(1), words.count())?;
    command(verb, &words)
}
