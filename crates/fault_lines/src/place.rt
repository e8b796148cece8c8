//! A place in a session's text, in words.
ghost use Rattle.std.specs.Prelude.{◌≡◌, ◌+◌, ◌≤◌, ◌++◌, length};
ghost use Rattle.fault_lines.specs.Place.{part_word, item_words, place_words};

use crate::line::Line;
use session_model::{Part, Place};

fn part_word(part: Part) -> &'static str
    ensures word { result.now ≡ part_word part }
    ensures short { length result.now ≤ 10 }
{
    match part {
        Part::Top => "top",
        Part::Session => "session",
        Part::Source => "source",
        Part::Track => "track",
        Part::Region => "region",
        Part::TrackSend => "track-send",
        Part::Bus => "bus",
        Part::BusSend => "bus-send",
        Part::Master => "master",
    }
}

impl Line {
    fn item(self, part: Part, item: u32) -> Line
        requires { length self.text.bytes + 21 ≤ 96 }
        ensures bytes { result.text.bytes ≡ self.text.bytes ++ item_words part item }
        ensures long { length result.text.bytes ≤ length self.text.bytes + 21 }
    {
        match part {
            Part::Region | Part::TrackSend | Part::BusSend => {
                self.word(" ").number(u64::from(item))
            }
            Part::Top | Part::Session | Part::Source | Part::Track | Part::Bus | Part::Master =>
                self,
        }
    }

    /// The line with a place more.
    pub(crate) fn place(self, place: &Place) -> Line
        requires { length self.text.bytes + 52 ≤ 96 }
        ensures bytes { result.text.bytes ≡ self.text.bytes ++ place_words place.now }
        ensures long { length result.text.bytes ≤ length self.text.bytes + 52 }
    {
        let line = self.word(part_word(place.part)).word(" ");
        line.number(u64::from(place.row))
            .item(place.part, place.item)
    }
}
