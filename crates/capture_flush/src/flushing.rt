//! Blocks that come: each goes to the end of the file of its take, behind zeros for those that were skipped.
ghost use Rattle.std.specs.Prelude.{◌≡◌, ◌<◌, ◌≤◌, ◌*◌, length, Some, true, false, is_err, IsOk};
ghost use Rattle.ses_units.specs.Bits.{bits_of};
ghost use Rattle.sound_model.specs.Wav.{sound_bytes};
ghost use Rattle.session_model.specs.declared.session.Session.{Session as Opened};
ghost use Rattle.engine_model.specs.Changes.{changed_at};
ghost use Rattle.engine_model.specs.Takes.{take_name};
ghost use Rattle.capture_flush.specs.Blocks.{block_of, block_samples, is_kept};
ghost use Rattle.capture_flush.specs.Flushed.{Tape, with_block, IsFlushed, Gives, added, is_new, next_index};
ghost use Rattle.capture_flush.specs.Taking.{IsTakingOf, after_block, is_given, last_of};
ghost use Rattle.capture_flush.specs.Writes.{Adds};

use crate::fault::WriteFault;
use crate::takes::{TakeFiles, sample_size};
use crate::track::{FailedTake, Place, TrackTakes};
use crate::writes::{append_all, begin};
use piece_item::TakeBlock;
use ses_io::{FixedList, Media};
use ses_units::Bits;
use wav_codec::encode;

// Whether the file of this take is new, where a block was given last.
fn is_new(last: Option<Place>, take: u32) -> bool
    ensures { result ≡ is_new last take }
{
    match last {
        Some(last) => last.take != take,
        None => true,
    }
}

// How many blocks that file has.
fn next_index(last: Option<Place>, take: u32) -> u64
    ensures { result ≡ next_index last take }
{
    match last {
        Some(last) if last.take == take => u64::from(last.index) + 1,
        _ => 0,
    }
}

// Adds samples to the end of a file, by a buffer with room for their bytes.
fn append_sound<M: Media>(
    media: &mut M,
    name: &str,
    samples: &[i32],
    bits: Bits,
    bytes: &mut [u8],
) -> Result<(), WriteFault>
    requires room { length samples.now * 3 ≤ length bytes.old }
    ensures { Adds M.outside name.now (sound_bytes (bits_of bits) samples.now)
        media.old media.new result }
{
    let part = &mut bytes[..samples.len() * sample_size(bits)];
    encode(samples, bits, part);
    append_all(media, name, part)
}

// Notes the last block that was kept of a track.
fn keep(tracks: &mut FixedList<TrackTakes>, track: u32, place: Place)
    requires { track < length tracks.old.items }
    ensures { tracks.new ≡ record tracks.old {
      items
          = changed_at (λ k. record k { last = Some place }) track tracks.old.items;
    } }
{
    tracks.as_mut_slice()[track as usize].last = Some(place);
}

impl TakeFiles {
    // The last block that was kept of a track.
    fn last(&self, track: u32) -> Option<Place>
        ghost s: { Opened }
        requires of { IsTakingOf s self.now }
        requires track { track < length s.tracks.items }
        ensures { result ≡ last_of self.now track }
    {
        self.tracks.as_slice()[track as usize].last
    }

    // Whether the block is kept: it is one block of the track, and comes after the last one.
    fn keeps(&self, track: u32, b: &TakeBlock) -> bool
        ghost s: { Opened }
        requires of { IsTakingOf s self.now }
        requires track { track < length s.tracks.items }
        ensures { result ≡ is_kept s track (last_of self.now track) (block_of b.now) }
    {
        if b.samples.len() != self.block_samples(track) {
            return false;
        }
        match self.last(track) {
            Some(last) => last.take < b.take || (b.take == last.take && last.index < b.index),
            None => true,
        }
    }

    // Adds the block to the file of its take.
    fn add<M: Media>(&mut self, media: &mut M, track: u32, b: &TakeBlock) -> Result<(), WriteFault>
        ghost s: { Opened }
        requires of { IsTakingOf s self.old }
        requires track { track < length s.tracks.items }
        requires whole { length b.now.samples.items ≡ block_samples s track }
        ensures adds { Adds M.outside (take_name s track b.now.take)
            (added s track (last_of self.old track) (block_of b.now)) media.old media.new result }
        ensures same { self.new ≡ self.old }
    {
        let name = self.file_name(track, b.take);
        let name = name.as_str();
        let last = self.last(track);
        let none = self.header(track, 0);
        begin(media, name, &none, is_new(last, b.take))?;
        let skipped = u64::from(b.index).saturating_sub(next_index(last, b.take));
        let size = self.block_size(track);
        self.add_zeros(media, name, size, skipped)?;
        let bytes = self.bytes.as_mut_slice();
        append_sound(media, name, b.samples.as_slice(), self.bits, bytes)
    }

    // Gives the block to the file of its take: adds it, and then renews the head.
    fn give<M: Media>(&mut self, media: &mut M, track: u32, b: &TakeBlock) -> Result<(), WriteFault>
        ghost s: { Opened }
        requires of { IsTakingOf s self.old }
        requires track { track < length s.tracks.items }
        requires given { is_given s self.old track (block_of b.now) ≡ true }
        ensures gives { Gives M.outside s self.old track (block_of b.now)
            media.old media.new result }
        ensures same { self.new ≡ self.old }
    {
        let before = next_index(self.last(track), b.take);
        self.add(media, track, b)?;
        self.renew(media, track, b.take, before, u64::from(b.index) + 1)
    }

    /// Adds the block to the end of the file of its take, which a new take begins with the header of no blocks; blocks
    /// that were skipped are zeros before it. Then the head is written anew, after a new take's first block and after each
    /// second: at no time it tells of more blocks than stand in the file. A block that isn't one block of the track, or doesn't come after its last,
    /// is left out, and nothing changes. Tracks count from 0. After a WriteFault a front of it is there, and its take has
    /// failed: what else comes of that take is left out, while other takes, later ones of the track too, are written.
    pub fn block<M: Media>(
        &mut self,
        media: &mut M,
        track: u32,
        b: &TakeBlock,
    ) -> Result<(), WriteFault>
        ghost tape: { Tape }
        requires of { IsTakingOf tape.session self.old }
        requires track { track < length tape.session.tracks.items }
        ensures state { self.new
            ≡ after_block tape.session self.old track (block_of b.now) (is_err result) }
        ensures of { IsTakingOf tape.session self.new }
        ensures flushed { M.outside.tells → IsFlushed tape self.old (M.outside.files media.old)
            → IsFlushed (with_block tape track (block_of b.now)) self.new
            (M.outside.files media.new) }
        ensures left_out { is_given tape.session self.old track (block_of b.now) ≡ false
            → (IsOk result) × (media.new ≡ media.old) }
        ensures gives { Gives M.outside tape.session self.old track (block_of b.now)
            media.old media.new result }
    {
        if !self.keeps(track, b) {
            return Ok(());
        }
        let place = Place::new(b.take, b.index);
        if self.has_failed(track, b.take) {
            keep(&mut self.tracks, track, place);
            return Ok(());
        }
        if let Err(fault) = self.give(media, track, b) {
            keep(&mut self.tracks, track, place);
            let take = b.take;
            self.failed.push(FailedTake { track, take });
            return Err(fault);
        }
        keep(&mut self.tracks, track, place);
        Ok(())
    }
}
