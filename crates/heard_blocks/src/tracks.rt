//! The blocks of all tracks for one block of the master: what was heard of each is rendered, and the others are silent.
ghost use Rattle.std.specs.Prelude.{◌≡◌, ℕ, ◌*◌, ◌<◌, ◌≤◌, IfOk, OnOk, [], length, take};
ghost use Rattle.session_model.specs.declared.session.Session.{Session as Opening};
ghost use Rattle.session_model.specs.Valid.{IsValid};
ghost use Rattle.engine_model.specs.Journal.{note_of, Heard};
ghost use Rattle.locate_loop.specs.Transport.{transport_of};
ghost use Rattle.audio_source.specs.Opened.{IsListed};
ghost use Rattle.audio_source.specs.Told.{source_sound};
ghost use Rattle.track_render.specs.Reading.{IsReadOn};
ghost use Rattle.edit_history.specs.History.{IsHistoryOf};
ghost use Rattle.cycle_journal.specs.JournalView.{seen_entry, seen_play};
ghost use Rattle.heard_blocks.specs.State.{IsReady};
ghost use Rattle.heard_blocks.specs.Playing.{PutsTrack, PutsTracks, MayHear, edition_at, playing, session_block, track_samples};
ghost use Rattle.heard_blocks.specs.Reading.{IsTold};

use crate::blocks::HeardBlocks;
use audio_source::{ReadFault, Sources};
use cycle_journal::{Entry, Play};
use edit_history::EditHistory;
use edition_log::Edition;
use playlist_layers::Scratch;
use ses_io::Media;
use session_model::Session;
use track_render::render;

// The first frame of a block of a generation.
fn first_frame(block: u32, seq: u32) -> u64
    requires block { block ≤ 4096 }
    requires seq { seq < 100000 }
    ensures frame { result ≡ seq * block }
    ensures near { result ≤ 409595904 }
{
    u64::from(seq) * u64::from(block)
}

// How many samples a block of a track has.
fn samples(session: &Session, track: u32) -> usize
    requires valid { IsValid session.now }
    requires track { track < length session.now.tracks.items }
    ensures samples { result ≡ track_samples session.now track }
    ensures most { result ≤ 2 * session.now.block }
{
    let channels = session.routes.as_slice()[track as usize].channels;
    session.block as usize * channels as usize
}

// Fills the front of the room with a block of a track by the session's playlist, and answers how many samples it has.
fn fill<M: Media>(
    sources: &mut Sources,
    media: &mut M,
    session: &Session,
    track: u32,
    now: &Edition,
    seq: u32,
    scratch: &mut Scratch,
    room: &mut [i32],
) -> Result<usize, ReadFault>
    requires valid { IsValid session.now }
    requires track { track < length session.now.tracks.items }
    requires listed { IsListed session.now.rate session.now.sources.items sources.old.opened }
    requires few { seq < 100000 }
    requires frames { scratch.old ≡ session.now.block }
    requires room { 2 * session.now.block ≤ length room.old }
    ensures told { IsTold M.outside media.old sources.old → IfOk result (λ count.
        take count room.new ≡ session_block (source_sound (M.outside.files media.old)
        sources.old.opened) session.now track (transport_of now.now.transport) seq) }
    ensures count { IfOk result (λ count. count ≡ track_samples session.now track) }
    ensures same { (scratch.new ≡ scratch.old) × (length room.new ≡ length room.old) }
    ensures read { IsReadOn M.outside media.old media.new sources.old sources.new result }
{
    let first = first_frame(session.block, seq);
    let count = samples(session, track);
    let out = &mut room[..count];
    render(
        sources,
        media,
        session,
        track,
        now.transport(),
        first,
        scratch,
        out,
    )?;
    Ok(count)
}

impl HeardBlocks {
    // Puts the block of a track by its playlist in an edition.
    fn hear<M: Media>(
        &mut self,
        sources: &mut Sources,
        media: &mut M,
        history: &EditHistory,
        now: &Edition,
        track: u32,
        touched: u32,
        seq: u32,
    ) -> Result<(), ReadFault>
        ghost s: { Opening }
        requires history { IsHistoryOf s history.now }
        requires ready { IsReady s history.now.edits self.old }
        requires listed { IsListed s.rate s.sources.items sources.old.opened }
        requires track { track < length s.tracks.items }
        requires may { MayHear history.now.edits (edition_at self.old track) (Heard touched) }
        requires few { seq < 100000 }
        ensures put { OnOk result (PutsTrack (IsTold M.outside media.old sources.old)
            (playing s history.now.edits (source_sound (M.outside.files media.old)
            sources.old.opened) now.now seq) track (Heard touched) self.old self.new) }
        ensures read { IsReadOn M.outside media.old media.new sources.old sources.new result }
    {
        self.lists.bring(track, touched, history);
        let room = self.samples.as_mut_slice();
        let count = fill(
            sources,
            media,
            self.lists.session(),
            track,
            now,
            seq,
            &mut self.scratch,
            room,
        )?;
        let block = &self.samples.as_slice()[..count];
        self.master.put(track, Some(block));
        Ok(())
    }

    // Puts the block of what was played of a track.
    fn put_track<M: Media>(
        &mut self,
        sources: &mut Sources,
        media: &mut M,
        history: &EditHistory,
        now: &Edition,
        track: u32,
        play: Play,
        seq: u32,
    ) -> Result<(), ReadFault>
        ghost s: { Opening }
        requires history { IsHistoryOf s history.now }
        requires ready { IsReady s history.now.edits self.old }
        requires listed { IsListed s.rate s.sources.items sources.old.opened }
        requires track { track < length s.tracks.items }
        requires may { MayHear history.now.edits (edition_at self.old track) (seen_play play) }
        requires few { seq < 100000 }
        ensures put { OnOk result (PutsTrack (IsTold M.outside media.old sources.old)
            (playing s history.now.edits (source_sound (M.outside.files media.old)
            sources.old.opened) now.now seq) track (seen_play play) self.old self.new) }
        ensures read { IsReadOn M.outside media.old media.new sources.old sources.new result }
    {
        match play {
            Play::Heard(touched) => self.hear(sources, media, history, now, track, touched, seq),
            Play::Silent | Play::Short(_) => {
                self.master.put(track, None);
                Ok(())
            }
        }
    }

    /// Puts the block of what was played of each track in an entry, by a transport at this block of its generation.
    pub(crate) fn put_tracks<M: Media>(
        &mut self,
        sources: &mut Sources,
        media: &mut M,
        history: &EditHistory,
        now: &Edition,
        entry: &Entry,
        seq: u32,
    ) -> Result<(), ReadFault>
        ghost s: { Opening }
        requires history { IsHistoryOf s history.now }
        requires ready { IsReady s history.now.edits self.old }
        requires listed { IsListed s.rate s.sources.items sources.old.opened }
        requires notes { length entry.now.notes.items ≡ length s.tracks.items }
        requires may { (t : ℕ) → t < length s.tracks.items → MayHear history.now.edits
            (edition_at self.old t) (note_of t (seen_entry entry.now)).play }
        requires few { seq < 100000 }
        ensures put { OnOk result (PutsTracks (IsTold M.outside media.old sources.old)
            (playing s history.now.edits (source_sound (M.outside.files media.old)
            sources.old.opened) now.now seq) (λ t. (note_of t (seen_entry entry.now)).play)
            (length s.tracks.items) self.old self.new) }
        ensures read { IsReadOn M.outside media.old media.new sources.old sources.new result }
    {
        for t in 0..entry.notes.len() {
            let play = entry.notes.as_slice()[t].play;
            self.put_track(sources, media, history, now, t as u32, play, seq)?;
        }
        Ok(())
    }
}
