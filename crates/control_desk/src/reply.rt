//! What a line is answered, and the line that says so.
ghost use Rattle.std.specs.Prelude.{◌≡◌, ◌≤◌, length};
ghost use Rattle.control_desk.specs.Texts.{reply_of, reply_words, reply_text};

use crate::line::Line;
use edit_resolve::Refusal;
use edit_script::LineRefusal;

/// What a line is answered.
#[derive(Clone, Copy)]
pub(crate) enum Reply {
    /// The edit made this edition.
    Accepted(u32),
    Refused(Refusal),
    /// The line isn't read.
    LineRefused(LineRefusal),
    /// A wait is over.
    Done,
    /// The edition, and an entry that has it settled, from 1.
    Synced(u32, u32),
    /// No entry has the edition settled, and none will.
    NotSynced(u32),
}

impl Reply {
    // Without its line feed.
    fn words(&self) -> Line
        ensures bytes { result.text.bytes ≡ reply_words (reply_of self.now) }
        ensures short { length result.text.bytes ≤ 63 }
    {
        match self {
            Reply::Accepted(edition) => Line::of("ok ").number(u64::from(*edition)),
            Reply::Refused(why) => Line::of("refused ").refusal(why),
            Reply::LineRefused(why) => Line::of("refused ").line_refusal(why),
            Reply::Done => Line::of("done"),
            Reply::Synced(edition, entry) => {
                let line = Line::of("synced ").number(u64::from(*edition));
                line.numbered(" ", u64::from(*entry))
            }
            Reply::NotSynced(edition) => Line::of("not synced ").number(u64::from(*edition)),
        }
    }

    /// Its line.
    pub(crate) fn line(&self) -> Line
        ensures { result.text.bytes ≡ reply_text (reply_of self.now) }
    {
        self.words().word("\n")
    }
}
