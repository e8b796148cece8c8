//! How the workers of a run take turns, by the option that comes.
ghost use Rattle.std.specs.Prelude.{◌≡◌, IfSome};
ghost use Rattle.std.specs.List.{list_all};
ghost use Rattle.std.specs.Option.{option_map};
ghost use Rattle.command_words.specs.Options as option;
ghost use Rattle.command_words.specs.Words as spec;
ghost use Rattle.command_words.specs.Spoken.{mode_view, settings_view, IsModeInRange};

use crate::asked::Mode;
use crate::numbers::{number, within};
use crate::options::{Kind, Setting};

// The most letters of `--steps`.
const STEPS: usize = 10_000;

// The most patience, and what it is without `--patience`.
const PATIENCE: u128 = 100_000_000;

const USUAL_PATIENCE: u32 = 1_000_000;

fn is_letter(b: u8) -> bool
    ensures { result ≡ spec.is_letter b }
{
    b == b'c' || b == b'b' || b == b'e' || b == b'g' || b == b'p'
}

fn are_letters(word: &[u8]) -> bool
    ensures { result ≡ list_all spec.is_letter word.now }
{
    word.iter().all(|b| is_letter(*b))
}

fn are_steps(word: &str) -> bool
    ensures { result ≡ spec.are_steps word.now }
{
    1 <= word.len() && word.len() <= STEPS && are_letters(word.as_bytes())
}

fn by_seed<'a>(value: &str) -> Option<Mode<'a>>
    ensures value { option_map mode_view result ≡ spec.mode_by option.Seed value.now }
    ensures range { IfSome result IsModeInRange }
{
    let seed = within(0, u128::from(u64::MAX), number(value))?;
    Some(Mode::Seed(seed as u64))
}

fn by_patience<'a>(value: &str) -> Option<Mode<'a>>
    ensures value { option_map mode_view result ≡ spec.mode_by option.Patience value.now }
    ensures range { IfSome result IsModeInRange }
{
    let patience = within(1, PATIENCE, number(value))?;
    Some(Mode::Threads {
        patience: patience as u32,
    })
}

fn by_steps<'a>(value: &'a str) -> Option<Mode<'a>>
    ensures value { option_map mode_view result ≡ spec.mode_by option.Steps value.now }
    ensures range { IfSome result IsModeInRange }
{
    if are_steps(value) {
        Some(Mode::Steps(value))
    } else {
        None
    }
}

/// The mode that the option makes, or that of no option.
pub(crate) fn mode_of<'a>(setting: Option<Setting<'a>>) -> Option<Mode<'a>>
    ensures value { option_map mode_view result ≡ spec.mode_of (settings_view setting.entry) }
    ensures range { IfSome result IsModeInRange }
{
    match setting {
        None => Some(Mode::Threads {
            patience: USUAL_PATIENCE,
        }),
        Some(Setting::Serial) => Some(Mode::Serial),
        Some(Setting::With(Kind::Seed, value)) => by_seed(value),
        Some(Setting::With(Kind::Steps, value)) => by_steps(value),
        Some(Setting::With(Kind::Patience, value)) => by_patience(value),
    }
}
