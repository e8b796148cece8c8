//! The words that say why an edit isn't accepted.
ghost use Rattle.std.specs.Prelude.{Some, ◌++◌, decimal};
ghost use Rattle.std.specs.Fmt.{WritesOnOk};
ghost use Rattle.edit_resolve.specs.Reason.{bound_of, refusal_of};
ghost use Rattle.edit_resolve.specs.Texts.{bound_text, refusal_text};

use crate::reason::{Bound, Refusal};
use ses_units::Name;
use std::fmt;

/// What is full, and how many there may be.
impl fmt::Display for Bound {
    ghost output = { λ bound. Some (bound_text (bound_of bound)) };

    fn fmt<W: fmt::Write>(&self, f: &mut fmt::Formatter<W>) -> fmt::Result {
        f.write_str(match self {
            Bound::Edits => "edits 10000",
            Bound::Points => "points 1024",
            Bound::Sends => "sends 8",
            Bound::Regions => "regions 256",
        })
    }
}

// A word, and the name behind it.
fn named<W: fmt::Write>(f: &mut fmt::Formatter<W>, word: &str, name: &Name) -> fmt::Result
    ensures { WritesOnOk W.write_str_gives f.old result (word.now ++ name.now) f.new }
{
    write!(f, "{word}{}", name.as_str())
}

// A word, and the number behind it.
fn numbered<W: fmt::Write>(f: &mut fmt::Formatter<W>, word: &str, number: u64) -> fmt::Result
    ensures { WritesOnOk W.write_str_gives f.old result (word.now ++ decimal number) f.new }
{
    write!(f, "{word}{number}")
}

/// The words behind `refused `.
impl fmt::Display for Refusal {
    ghost output = { λ why. Some (refusal_text (refusal_of why)) };

    fn fmt<W: fmt::Write>(&self, f: &mut fmt::Formatter<W>) -> fmt::Result {
        match self {
            Refusal::Limit(bound) => write!(f, "limit {bound}"),
            Refusal::NoRoute(name) => named(f, "no-route ", name),
            Refusal::NotTrack(name) => named(f, "not-track ", name),
            Refusal::NotBus(name) => named(f, "not-bus ", name),
            Refusal::NoSource(name) => named(f, "no-source ", name),
            Refusal::NoRegion(id) => numbered(f, "no-region ", u64::from(*id)),
            Refusal::RegionTwice(id) => numbered(f, "region-twice ", u64::from(*id)),
            Refusal::NoInput(name) => named(f, "no-input ", name),
            Refusal::OnMaster => f.write_str("master"),
            Refusal::Gain(gain) => numbered(f, "gain ", *gain),
            Refusal::Far(place) => numbered(f, "far ", *place),
            Refusal::LoopEmpty => f.write_str("loop-empty"),
            Refusal::NoLoop => f.write_str("no-loop"),
            Refusal::NoPoint(place) => numbered(f, "no-point ", *place),
            Refusal::NoSend(name) => named(f, "no-send ", name),
            Refusal::Channels(name) => named(f, "channels ", name),
            Refusal::Cycle(name) => named(f, "cycle ", name),
            Refusal::Fades(id) => numbered(f, "fades ", u64::from(*id)),
        }
    }
}
