//! The notes and the state of a cycle, from the front of a text.
ghost use Rattle.std.specs.Prelude.{◌≡◌, map};
ghost use Rattle.std.specs.Option.{option_map};
ghost use Rattle.cycle_journal.specs.JournalView.{seen_play, seen_take, seen_note, seen_state};
ghost use Rattle.report_reader.specs.Fields.{seen};
ghost use Rattle.report_reader.specs.Notes as spec;

use crate::fields::{after, number, numbered};
use arrayvec::ArrayVec;
use cycle_journal::{Note, Play, State, Take};

#[tactic(auto, unfolding(crate::specs::Notes::play_in))]
fn play(bytes: &[u8]) -> Option<(Play, &[u8])>
    ensures { option_map (seen seen_play) result ≡ spec.play_in bytes.now }
{
    if let Some(rest) = after(b"-", bytes) {
        return Some((Play::Silent, rest));
    }
    if let Some(rest) = after(b"h", bytes) {
        let (touched, rest) = number(0, 10_000, rest)?;
        return Some((Play::Heard(touched as u32), rest));
    }
    let (tail, rest) = number(0, u64::MAX, after(b"s", bytes)?)?;
    Some((Play::Short(tail), rest))
}

#[tactic(auto, unfolding(crate::specs::Notes::taken_in))]
fn taken(bytes: &[u8]) -> Option<(Take, &[u8])>
    ensures { option_map (seen seen_take) result ≡ spec.taken_in bytes.now }
{
    let (take, rest) = number(1, 100_000, bytes)?;
    let (index, rest) = numbered(b".", 0, 99_999, rest)?;
    let taken = Take::Taken {
        take: take as u32,
        index: index as u32,
    };
    Some((taken, rest))
}

#[tactic(auto, unfolding(crate::specs::Notes::lost_in))]
fn lost(bytes: &[u8]) -> Option<(Take, &[u8])>
    ensures { option_map (seen seen_take) result ≡ spec.lost_in bytes.now }
{
    let (take, rest) = number(1, 100_000, bytes)?;
    let (index, rest) = numbered(b".", 0, 99_999, rest)?;
    let (head, rest) = numbered(b".", 0, u64::MAX, rest)?;
    let lost = Take::Lost {
        take: take as u32,
        index: index as u32,
        head,
    };
    Some((lost, rest))
}

#[tactic(auto, unfolding(crate::specs::Notes::take_in))]
fn take(bytes: &[u8]) -> Option<(Take, &[u8])>
    ensures { option_map (seen seen_take) result ≡ spec.take_in bytes.now }
{
    if let Some(rest) = after(b"-", bytes) {
        return Some((Take::Off, rest));
    }
    if let Some(rest) = after(b"t", bytes) {
        return taken(rest);
    }
    lost(after(b"l", bytes)?)
}

#[tactic(auto, unfolding(crate::specs::Notes::note_in))]
fn note(bytes: &[u8]) -> Option<(Note, &[u8])>
    ensures { option_map (seen seen_note) result ≡ spec.note_in bytes.now }
{
    let (play, rest) = play(bytes)?;
    let (take, rest) = take(after(b"/", rest)?)?;
    Some((Note { play, take }, rest))
}

/// At most 32 notes, each behind a blank. They are all of the text.
pub(crate) fn notes(bytes: &[u8]) -> Option<ArrayVec<Note, 32>>
    ensures { option_map (λ notes. map seen_note notes.items) result
        ≡ spec.notes_in 32 bytes.now }
{
    let mut notes = ArrayVec::new();
    let mut rest = bytes;
    while !rest.is_empty() {
        if notes.is_full() {
            return None;
        }
        let (note, behind) = note(after(b" ", rest)?)?;
        notes.push(note);
        rest = behind;
    }
    Some(notes)
}

// Tracks count from 1 in it.
#[tactic(auto, unfolding(crate::specs::Notes::seeking_in))]
fn seeking(bytes: &[u8]) -> Option<(State, &[u8])>
    ensures { option_map (seen seen_state) result ≡ spec.seeking_in bytes.now }
{
    let (track, rest) = number(1, 32, bytes)?;
    let (tail, rest) = numbered(b" ", 0, u64::MAX, rest)?;
    let seeking = State::Seeking {
        track: track as u32 - 1,
        tail,
    };
    Some((seeking, rest))
}

#[tactic(auto, unfolding(crate::specs::Notes::rolling_in))]
fn rolling(bytes: &[u8]) -> Option<(State, &[u8])>
    ensures { option_map (seen seen_state) result ≡ spec.rolling_in bytes.now }
{
    let (generation, rest) = number(0, 10_000, bytes)?;
    let (seq, rest) = numbered(b" ", 0, 99_999, rest)?;
    let rolling = State::Rolling {
        generation: generation as u32,
        seq: seq as u32,
    };
    Some((rolling, rest))
}

/// What the transport did.
#[tactic(auto, unfolding(crate::specs::Notes::state_in))]
pub(crate) fn state(bytes: &[u8]) -> Option<(State, &[u8])>
    ensures { option_map (seen seen_state) result ≡ spec.state_in bytes.now }
{
    if let Some(rest) = after(b"stopped", bytes) {
        return Some((State::Stopped, rest));
    }
    if let Some(rest) = after(b"seeking ", bytes) {
        return seeking(rest);
    }
    rolling(after(b"rolling ", bytes)?)
}
