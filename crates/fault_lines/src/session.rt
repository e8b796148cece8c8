//! Why a session is refused, in words.
ghost use Rattle.std.specs.Prelude.{◌≡◌, ◌+◌, ◌≤◌, ◌++◌, length};
ghost use Rattle.session_walk.specs.Words.{word};
ghost use Rattle.fault_lines.specs.Session.{key_words, session_words};

use crate::line::Line;
use session_model::{Key, Place, SessionRefusal};
use session_walk::word;

#[tactic(auto, unfolding(session_walk::specs::Words::word))]
fn key_word(key: Key) -> &'static str
    ensures word { result.now ≡ word key }
    ensures short { length result.now ≤ 9 }
{
    word(key)
}

impl Line {
    fn key(self, place: &Place, key: Key) -> Line
        requires { length self.text.bytes + 62 ≤ 96 }
        ensures bytes { result.text.bytes ≡ self.text.bytes ++ key_words place.now key }
        ensures long { length result.text.bytes ≤ length self.text.bytes + 62 }
    {
        self.place(place).word(" ").word(key_word(key))
    }

    /// The line with the refusal of a session more.
    pub(crate) fn session(self, why: &SessionRefusal) -> Line
        requires { length self.text.bytes + 70 ≤ 96 }
        ensures bytes { result.text.bytes ≡ self.text.bytes ++ session_words why.now }
        ensures long { length result.text.bytes ≤ length self.text.bytes + 70 }
    {
        match why {
            SessionRefusal::Absent => self.word("absent"),
            SessionRefusal::TooLong(size) => self.word("too-long ").number(*size),
            SessionRefusal::NotToml => self.word("not-toml"),
            SessionRefusal::Unknown(place) => self.word("unknown ").place(place),
            SessionRefusal::Missing(place, key) => self.word("missing ").key(place, *key),
            SessionRefusal::Kind(place, key) => self.word("kind ").key(place, *key),
            SessionRefusal::Range(place, key) => self.word("range ").key(place, *key),
            SessionRefusal::Twice(name) => self.word("twice ").name(name),
            SessionRefusal::SendTwice(name) => self.word("send-twice ").name(name),
            SessionRefusal::RegionTwice(name, id) => {
                let line = self.word("region-twice ").name(name);
                line.word(" ").number(u64::from(*id))
            }
            SessionRefusal::NoSource(name) => self.word("no-source ").name(name),
            SessionRefusal::NoRoute(name) => self.word("no-route ").name(name),
            SessionRefusal::NotBus(name) => self.word("not-bus ").name(name),
            SessionRefusal::Channels(name) => self.word("channels ").name(name),
            SessionRefusal::Cycle(name) => self.word("cycle ").name(name),
        }
    }
}
