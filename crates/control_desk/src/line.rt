//! A reply's line, which is written piece by piece.
ghost use Rattle.std.specs.Prelude.{◌≡◌, ◌+◌, ◌≤◌, ◌++◌, length, decimal};
ghost use Rattle.edit_script.specs.Reading as script;
ghost use Rattle.edit_script.specs.Refusals as line;
ghost use Rattle.edit_resolve.specs.Reason.{bound_of, refusal_of};
ghost use Rattle.edit_resolve.specs.Texts.{bound_text, refusal_text};

use arrayvec::ArrayString;
use edit_resolve::{Bound, Refusal};
use edit_script::LineRefusal;
use itoa::Buffer;
use ses_units::Name;

/// The pieces so far. The longest line fits.
#[derive(Clone, Copy)]
pub(crate) struct Line {
    pub text: ArrayString<64>,
}

impl Line {
    /// A line of one piece.
    pub(crate) fn of(text: &str) -> Line
        requires { length text.now ≤ 64 }
        ensures bytes { result.text.bytes ≡ text.now }
    {
        let mut line = ArrayString::new();
        line.push_str(text);
        Line { text: line }
    }

    /// The line with a text more.
    pub(crate) fn word(self, text: &str) -> Line
        requires { length self.text.bytes + length text.now ≤ 64 }
        ensures bytes { result.text.bytes ≡ self.text.bytes ++ text.now }
        ensures long { length result.text.bytes ≡ length self.text.bytes + length text.now }
    {
        let mut line = self.text;
        line.push_str(text);
        Line { text: line }
    }

    /// The line with a number more.
    pub(crate) fn number(self, n: u64) -> Line
        requires { length self.text.bytes + 20 ≤ 64 }
        ensures bytes { result.text.bytes ≡ self.text.bytes ++ decimal n }
        ensures long { length result.text.bytes ≤ length self.text.bytes + 20 }
    {
        self.word(Buffer::new().format(n))
    }

    // The line with a text and a name more.
    fn named(self, text: &str, name: &Name) -> Line
        requires { length self.text.bytes + length text.now + 24 ≤ 64 }
        ensures bytes { result.text.bytes ≡ self.text.bytes ++ (text.now ++ name.now) }
        ensures long { length result.text.bytes
            ≤ length self.text.bytes + length text.now + 24 }
    {
        self.word(text).word(name.as_str())
    }

    /// The line with a text and a number more.
    pub(crate) fn numbered(self, text: &str, n: u64) -> Line
        requires { length self.text.bytes + length text.now + 20 ≤ 64 }
        ensures bytes { result.text.bytes ≡ self.text.bytes ++ (text.now ++ decimal n) }
        ensures long { length result.text.bytes
            ≤ length self.text.bytes + length text.now + 20 }
    {
        self.word(text).number(n)
    }

    fn bound(self, bound: Bound) -> Line
        requires { length self.text.bytes + 11 ≤ 64 }
        ensures bytes { result.text.bytes ≡ self.text.bytes ++ bound_text (bound_of bound) }
        ensures long { length result.text.bytes ≤ length self.text.bytes + 11 }
    {
        self.word(match bound {
            Bound::Edits => "edits 10000",
            Bound::Points => "points 1024",
            Bound::Sends => "sends 8",
            Bound::Regions => "regions 256",
        })
    }

    /// The line with the words more that say why an edit isn't accepted.
    pub(crate) fn refusal(self, why: &Refusal) -> Line
        requires { length self.text.bytes ≤ 8 }
        ensures bytes { result.text.bytes ≡ self.text.bytes ++ refusal_text (refusal_of why.now) }
        ensures long { length result.text.bytes ≤ length self.text.bytes + 36 }
    {
        match why {
            Refusal::Limit(bound) => self.word("limit ").bound(*bound),
            Refusal::NoRoute(name) => self.named("no-route ", name),
            Refusal::NotTrack(name) => self.named("not-track ", name),
            Refusal::NotBus(name) => self.named("not-bus ", name),
            Refusal::NoSource(name) => self.named("no-source ", name),
            Refusal::NoRegion(id) => self.numbered("no-region ", u64::from(*id)),
            Refusal::RegionTwice(id) => self.numbered("region-twice ", u64::from(*id)),
            Refusal::NoInput(name) => self.named("no-input ", name),
            Refusal::OnMaster => self.word("master"),
            Refusal::Gain(gain) => self.numbered("gain ", *gain),
            Refusal::Far(place) => self.numbered("far ", *place),
            Refusal::LoopEmpty => self.word("loop-empty"),
            Refusal::NoLoop => self.word("no-loop"),
            Refusal::NoPoint(place) => self.numbered("no-point ", *place),
            Refusal::NoSend(name) => self.named("no-send ", name),
            Refusal::Channels(name) => self.named("channels ", name),
            Refusal::Cycle(name) => self.named("cycle ", name),
            Refusal::Fades(id) => self.numbered("fades ", u64::from(*id)),
        }
    }

    /// The line with the words more that say why a line isn't read.
    pub(crate) fn line_refusal(self, why: &LineRefusal) -> Line
        requires { length self.text.bytes ≤ 8 }
        ensures bytes { result.text.bytes
            ≡ self.text.bytes ++ line.refusal_text (script.refusal_of why.now) }
        ensures long { length result.text.bytes ≤ length self.text.bytes + 36 }
    {
        match why {
            LineRefusal::Long => self.word("long"),
            LineRefusal::NotText => self.word("text"),
            LineRefusal::NotCommand => self.word("not-command"),
            LineRefusal::Words(n) => self.numbered("words ", u64::from(*n)),
            LineRefusal::BadName(i) => self.numbered("name ", u64::from(*i)),
            LineRefusal::Number(i) => self.numbered("number ", u64::from(*i)),
            LineRefusal::Choice(i) => self.numbered("choice ", u64::from(*i)),
        }
    }
}
