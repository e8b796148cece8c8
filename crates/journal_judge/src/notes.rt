//! What an entry says of its tracks, held against what is kept of them.
ghost use Rattle.std.specs.Prelude.{◌≡◌, ◌<◌, ◌≤◌, length, map};
ghost use Rattle.engine_model.specs.Fits as engine;
ghost use Rattle.cycle_journal.specs.JournalView.{seen_note};
ghost use Rattle.edition_log.specs.EditionState.{state_of};
ghost use Rattle.journal_judge.specs.Deciding.{is_good_note, are_good_notes};
ghost use Rattle.journal_judge.specs.Noting.{HasRoom, AreNoted};

use crate::judge::Judge;
use crate::plays::{fits, is_well_heard};
use crate::tracks::TrackCount;
use cycle_journal::Note;
use edit_history::EditHistory;
use edition_log::Edition;

// Whether an edition records a track while it rolls: it is armed, and recording is on.
fn records(e: &Edition, track: u32) -> bool
    requires { track < length e.now.session.tracks.items }
    ensures { result ≡ engine.records (state_of e.now) track }
{
    e.transport().recording && e.session().tracks.as_slice()[track as usize].armed
}

impl Judge {
    // Whether the note of a track is good.
    fn is_good_note(&self, history: &EditHistory, rolling: bool, track: u32, note: &Note) -> bool
        requires few { track < 32 }
        requires entered { track < length self.now.entered.session.tracks.items }
        requires settled { track < length self.now.settled.session.tracks.items }
        ensures { result
            ≡ is_good_note history.now.changes self.now rolling track (seen_note note.now) }
    {
        let count = self.tracks[track as usize];
        let recorded = rolling && records(&self.entered, track);
        let floor = self.settled.touched(track);
        fits(rolling, self.rolled, note.play)
            && count.takes.fits(recorded, note.take)
            && is_well_heard(history, track, floor, count.heard, note.play)
    }

    /// Whether the notes are good, of which the first is that of the first track.
    pub(crate) fn are_good_notes(
        &self,
        history: &EditHistory,
        rolling: bool,
        notes: &[Note],
    ) -> bool
        requires few { length notes.now ≤ 32 }
        requires entered { length notes.now ≤ length self.now.entered.session.tracks.items }
        requires settled { length notes.now ≤ length self.now.settled.session.tracks.items }
        ensures { result
            ≡ are_good_notes history.now.changes self.now rolling 0 (map seen_note notes.now) }
    {
        for (t, note) in notes.iter().enumerate() {
            if !self.is_good_note(history, rolling, t as u32, note) {
                return false;
            }
        }
        true
    }
}

/// Takes up the notes of an entry, of which the first is that of the first track.
pub(crate) fn note_tracks(tracks: &mut [TrackCount; 32], notes: &[Note])
    requires few { length notes.now ≤ 32 }
    requires room { HasRoom (length notes.now) tracks.old }
    ensures long { length tracks.new ≡ 32 }
    ensures noted { AreNoted tracks.old (map seen_note notes.now) tracks.new }
{
    for (t, note) in notes.iter().enumerate() {
        let count = tracks[t];
        tracks[t] = count.after(note);
    }
}
