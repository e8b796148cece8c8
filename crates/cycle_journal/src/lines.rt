//! The lines of a report, piece by piece.
ghost use Rattle.std.specs.Prelude.{◌≡◌, ◌+◌, ◌*◌, ◌≤◌, [], ◌∷◌, ◌++◌, length, map, codes};
ghost use Rattle.ses_units.specs.Bits.{bits_of};
ghost use Rattle.cycle_journal.specs.JournalView.{seen_play, seen_take, seen_note, seen_state, seen_entry};
ghost use Rattle.cycle_journal.specs.Page.{page_size, longest_line};
ghost use Rattle.cycle_journal.specs.Report.{play_text, take_text, note_text, notes_text, state_text, first_line, format_line, edit_line, entry_line, end_line, ended};

use crate::entry::{Entry, State};
use crate::head::ReportHead;
use crate::note::{Note, Play, Take};
use crate::page::Page;
use arrayvec::ArrayString;
use edit_script::text_of;
use ses_units::Bits;
use session_model::Edit;

fn bit_count(bits: Bits) -> u64
    ensures { result ≡ bits_of bits }
{
    match bits {
        Bits::B16 => 16,
        Bits::B24 => 24,
    }
}

impl Page {
    fn play(&mut self, play: Play)
        requires { length self.old.text.bytes + 21 ≤ page_size }
        ensures bytes { self.new.text.bytes ≡ self.old.text.bytes ++ play_text (seen_play play) }
        ensures long { length self.new.text.bytes ≤ length self.old.text.bytes + 21 }
    {
        match play {
            Play::Silent => self.word("-"),
            Play::Heard(touched) => self.numbered("h", u64::from(touched)),
            Play::Short(tail) => self.numbered("s", tail),
        }
    }

    fn take(&mut self, take: Take)
        requires { length self.old.text.bytes + 63 ≤ page_size }
        ensures bytes { self.new.text.bytes ≡ self.old.text.bytes ++ take_text (seen_take take) }
        ensures long { length self.new.text.bytes ≤ length self.old.text.bytes + 63 }
    {
        match take {
            Take::Off => self.word("-"),
            Take::Taken { take, index } => {
                self.numbered("t", u64::from(take));
                self.numbered(".", u64::from(index));
            }
            Take::Lost { take, index, head } => {
                self.numbered("l", u64::from(take));
                self.numbered(".", u64::from(index));
                self.numbered(".", head);
            }
        }
    }

    // A note behind a blank.
    fn note(&mut self, note: &Note)
        requires { length self.old.text.bytes + 86 ≤ page_size }
        ensures bytes { self.new.text.bytes
            ≡ self.old.text.bytes ++ (codes " " ++ note_text (seen_note note.now)) }
        ensures long { length self.new.text.bytes ≤ length self.old.text.bytes + 86 }
    {
        self.word(" ");
        self.play(note.play);
        self.word("/");
        self.take(note.take);
    }

    fn notes(&mut self, notes: &[Note])
        requires { length self.old.text.bytes + 86 * length notes.now ≤ page_size }
        ensures bytes { self.new.text.bytes
            ≡ self.old.text.bytes ++ notes_text (map seen_note notes.now) }
        ensures long { length self.new.text.bytes
            ≤ length self.old.text.bytes + 86 * length notes.now }
    {
        for note in notes {
            self.note(note);
        }
    }

    // Tracks count from 1 in it.
    fn state(&mut self, state: State)
        requires { length self.old.text.bytes + 49 ≤ page_size }
        ensures bytes { self.new.text.bytes
            ≡ self.old.text.bytes ++ state_text (seen_state state) }
        ensures long { length self.new.text.bytes ≤ length self.old.text.bytes + 49 }
    {
        match state {
            State::Stopped => self.word("stopped"),
            State::Seeking { track, tail } => {
                self.numbered("seeking ", u64::from(track) + 1);
                self.numbered(" ", tail);
            }
            State::Rolling { generation, seq } => {
                self.numbered("rolling ", u64::from(generation));
                self.numbered(" ", u64::from(seq));
            }
        }
    }

    // The line of a form.
    fn format(&mut self, head: &ReportHead)
        requires { length self.old.text.bytes + 112 ≤ page_size }
        ensures { self.new.text.bytes
            ≡ self.old.text.bytes ++ (format_line head.now ++ 10 ∷ []) }
    {
        self.numbered("format ", u64::from(head.rate));
        self.numbered(" ", bit_count(head.bits));
        self.numbered(" ", u64::from(head.channels));
        self.numbered(" ", u64::from(head.block));
        self.numbered(" ", u64::from(head.cycles));
        self.word("\n");
    }

    /// Adds the first two lines of a report.
    pub(crate) fn head(&mut self, head: &ReportHead)
        requires { length self.old.text.bytes + longest_line ≤ page_size }
        ensures { self.new.text.bytes
            ≡ self.old.text.bytes ++ ended (first_line ∷ format_line head.now ∷ []) }
    {
        self.word("report 1\n");
        self.format(head);
    }

    /// Adds the line of an edit, by its number.
    pub(crate) fn edit(&mut self, k: u64, edit: &Edit)
        requires { length self.old.text.bytes + longest_line ≤ page_size }
        ensures { self.new.text.bytes
            ≡ self.old.text.bytes ++ (edit_line k edit.now ++ 10 ∷ []) }
    {
        let mut line = ArrayString::new();
        text_of(edit, &mut line);
        self.numbered("edit ", k);
        self.word(" ");
        self.word(line.as_str());
        self.word("\n");
    }

    /// Adds the line of an entry, by its number.
    pub(crate) fn entry(&mut self, c: u64, e: &Entry)
        requires { length self.old.text.bytes + longest_line ≤ page_size }
        ensures { self.new.text.bytes
            ≡ self.old.text.bytes ++ (entry_line c (seen_entry e.now) ++ 10 ∷ []) }
    {
        self.numbered("cycle ", c);
        self.numbered(" ", u64::from(e.edition));
        self.numbered(" ", u64::from(e.settled));
        self.word(" ");
        self.state(e.state);
        self.notes(e.notes.as_slice());
        self.word("\n");
    }

    /// Adds the last line, of so many entries.
    pub(crate) fn end(&mut self, entries: u64)
        requires { length self.old.text.bytes + longest_line ≤ page_size }
        ensures { self.new.text.bytes ≡ self.old.text.bytes ++ ended (end_line entries ∷ []) }
    {
        self.numbered("end ", entries);
        self.word("\n");
    }
}
