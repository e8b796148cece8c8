//! Why a control line isn't read.
ghost use Rattle.std.specs.Prelude.{Some};
ghost use Rattle.edit_script.specs.Reading.{refusal_of};
ghost use Rattle.edit_script.specs.Refusals.{refusal_text};

use std::fmt;

/// The first reason that holds. Words count from 1, the command being word 1.
#[derive(Clone, Copy, Debug, PartialEq, Eq)]
pub enum LineRefusal {
    /// The line has more than 4,096 bytes.
    Long,
    /// A byte is neither a tab nor between a space and a tilde.
    NotText,
    /// The first word is no command.
    NotCommand,
    /// The line has so many words, and its command takes another number.
    Words(u32),
    /// This word isn't a name.
    BadName(u32),
    /// This word isn't a number, or not one of its range.
    Number(u32),
    /// This word is none of those that may stand there.
    Choice(u32),
}

/// The words behind `refused `.
impl fmt::Display for LineRefusal {
    ghost output = { λ why. Some (refusal_text (refusal_of why)) };

    fn fmt<W: fmt::Write>(&self, f: &mut fmt::Formatter<W>) -> fmt::Result {
        match self {
            LineRefusal::Long => f.write_str("long"),
            LineRefusal::NotText => f.write_str("text"),
            LineRefusal::NotCommand => f.write_str("not-command"),
            LineRefusal::Words(n) => write!(f, "words {n}"),
            LineRefusal::BadName(i) => write!(f, "name {i}"),
            LineRefusal::Number(i) => write!(f, "number {i}"),
            LineRefusal::Choice(i) => write!(f, "choice {i}"),
        }
    }
}
