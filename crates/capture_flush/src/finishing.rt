//! Take files finished: each take that a journal names is closed.
ghost use Rattle.std.specs.Prelude.{◌≡◌, ◌-◌, ◌<◌, ◌≤◌, length, All, ◌||◌, OnOk, OnErr};
ghost use Rattle.std.specs.Option.{option_map_or};
ghost use Rattle.ses_io.specs.Outside.{WriteCause};
ghost use Rattle.session_model.specs.declared.session.Session.{Session as Opened};
ghost use Rattle.engine_model.specs.Journal.{note_of};
ghost use Rattle.cycle_journal.specs.JournalView.{seen_take, seen_entry, seen_entries};
ghost use Rattle.capture_flush.specs.Closing.{ended_by, runs_of, track_runs, Ends, HasHeadUnless};
ghost use Rattle.capture_flush.specs.Finished.{IsCounted, Recorded, tape_of, AreTakesBut, AreTakesInPart, AreWholeBut};
ghost use Rattle.capture_flush.specs.Flushed.{IsFlushed};
ghost use Rattle.capture_flush.specs.Taking.{IsTakingOf};

use crate::fault::WriteFault;
use crate::run::{Run, open_after};
use crate::takes::TakeFiles;
use cycle_journal::{Entry, Journal, Take};
use ses_io::Media;

// What an entry took of a track.
fn take_of(e: &Entry, track: u32) -> Take
    requires { track < length e.now.notes.items }
    ensures { seen_take result ≡ (note_of track (seen_entry e.now)).take }
{
    e.notes.as_slice()[track as usize].take
}

// Whether one of two calls failed.
fn either(first: bool, last: bool) -> bool
    ensures { result ≡ (first || last) }
{
    first || last
}

impl TakeFiles {
    // Closes the take that a note ends, if it ends one and it hasn't failed, and answers whether a write failed.
    fn close_ended<M: Media>(
        &mut self,
        media: &mut M,
        track: u32,
        before: Option<Run>,
        take: Take,
    ) -> bool
        ghost s: { Opened }
        requires of { IsTakingOf s self.old }
        requires track { track < length s.tracks.items }
        requires few { option_map_or (λ r. r.blocks) before 0 ≤ 100000 }
        requires heads { M.outside.tells → All
            (HasHeadUnless self.old s track (M.outside.files media.old))
            (ended_by before (seen_take take)) }
        ensures ends { Ends M.outside s
            (track_runs self.old track (ended_by before (seen_take take)))
            media.old media.new result }
        ensures same { self.new ≡ self.old }
    {
        match (before, take) {
            (Some(run), Take::Off) => {
                if self.has_failed(track, run.take) {
                    return false;
                }
                self.close(media, track, run).is_err()
            }
            _ => false,
        }
    }

    // Closes the takes of a track, also those behind one at which a write fails, and answers whether one failed.
    fn close_track<M: Media>(&mut self, media: &mut M, track: u32, entries: &[Entry]) -> bool
        ghost s: { Opened }
        requires of { IsTakingOf s self.old }
        requires track { track < length s.tracks.items }
        requires few { length entries.now ≤ 100000 }
        requires notes { All (λ e. length e.notes.items ≡ length s.tracks.items) entries.now }
        requires heads { M.outside.tells → All
            (HasHeadUnless self.old s track (M.outside.files media.old))
            (runs_of track (seen_entries entries.now)) }
        ensures ends { Ends M.outside s (track_runs self.old track
            (runs_of track (seen_entries entries.now))) media.old media.new result }
        ensures same { self.new ≡ self.old }
    {
        let mut run: Option<Run> = None;
        let mut failed = false;
        for i in 0..entries.len() {
            let take = take_of(&entries[i], track);
            let fails = self.close_ended(media, track, run, take);
            failed = either(failed, fails);
            run = open_after(run, take);
        }
        let last = self.close_ended(media, track, run, Take::Off);
        either(failed, last)
    }

    /// Makes each take that the journal names whole: zeros for blocks that were lost, also where all were, the pad byte
    /// and the header. The blocks passed were those that the journal took. A take that has failed is left as it is. It
    /// goes on behind a take at which a write fails: after a WriteFault no more of the others aren't whole than writes
    /// failed, and each file has a front of its sound; what the header of one that isn't whole is then isn't said.
    pub fn finish<M: Media>(&mut self, media: &mut M, j: &Journal) -> Result<(), WriteFault>
        ghost run: { Recorded }
        requires of { IsTakingOf run.session self.old }
        requires few { length j.now.items ≤ 100000 }
        requires counted { IsCounted run.session (seen_entries j.now.items) }
        requires flushed { M.outside.tells → IsFlushed (tape_of run (seen_entries j.now.items))
            self.old (M.outside.files media.old) }
        ensures takes { M.outside.tells → OnOk result
            (AreTakesBut run (seen_entries j.now.items) self.old (M.outside.files media.new)) }
        ensures in_part { M.outside.tells → OnErr result
            (AreTakesInPart run (seen_entries j.now.items) (M.outside.files media.new)) }
        ensures goes_on { M.outside.tells → OnErr result
            (AreWholeBut run (seen_entries j.now.items) self.old (M.outside.write_faults media.old)
            (M.outside.write_faults media.new) (M.outside.files media.new)) }
        ensures cause { WriteCause M.outside media.old media.new result }
        ensures reads { M.outside.read_faults media.new ≡ M.outside.read_faults media.old }
        ensures same { self.new ≡ self.old }
    {
        let mut failed = false;
        for track in 0..self.tracks.len() {
            let fails = self.close_track(media, track as u32, j.entries());
            failed = either(failed, fails);
        }
        if failed {
            return Err(WriteFault);
        }
        Ok(())
    }
}
