//! The take files of a run: how they are named and made, and the last block that each track's files were given.
ghost use Rattle.std.specs.Prelude.{◌≡◌, ◌*◌, ◌/◌, ◌<◌, ◌≤◌, [], ◌++◌, length, false, replicate, codes, IfOk, IsTrue};
ghost use Rattle.ses_units.specs.Bits.{bits_of};
ghost use Rattle.ses_units.specs.Name.{is_name};
ghost use Rattle.ses_io.specs.Files.{Files as AllFiles, HasNameUnder};
ghost use Rattle.session_model.specs.declared.session.Session.{Session as Opened};
ghost use Rattle.session_model.specs.Valid.{IsValid};
ghost use Rattle.engine_model.specs.Takes.{take_name};
ghost use Rattle.capture_flush.specs.Blocks.{block_samples};
ghost use Rattle.capture_flush.specs.Taking.{new_takes, has_failed, is_noted, most_failed, IsTakingOf};
ghost use Rattle.capture_flush.specs.Laws.{HasNamedTracks};
ghost use Rattle.capture_flush.specs.Flushed.{IsFlushed, block_bytes};
ghost use Rattle.capture_flush.specs.Writes.{Adds};

use crate::fault::WriteFault;
use crate::names::file_name;
use crate::track::{FailedTake, TrackTakes};
use crate::writes::append_repeated;
use arrayvec::ArrayString;
use ses_io::{FixedList, Media, NoMemory};
use ses_units::{Bits, Name};
use session_model::Session;
use std::alloc::Global;
use std::marker::Model;

/// How many takes at which a write failed can be noted.
pub(crate) const MOST_FAILED: u32 = 1024;

/// Writes the takes of a session's tracks. Contracts see what it knows of them, as a record of `specs/Taking.antt`.
#[derive(Drop)]
pub struct TakeFiles {
    pub(crate) takes: Name,
    pub(crate) rate: u32,
    pub(crate) bits: Bits,
    pub(crate) block: u32,
    pub(crate) tracks: FixedList<TrackTakes>,
    pub(crate) failed: FixedList<FailedTake>,
    pub(crate) bytes: Vec<u8>,
}

impl Model for TakeFiles {
    ghost use Rattle.std.specs.Prelude.{◌≡◌, ◌*◌, ◌≤◌, length};
    ghost use Rattle.capture_flush.specs.Taking.{Taking, most_failed};

    ghost Value = { Taking };

    ghost view = { λ f. record {
      takes = f.takes;
      rate = f.rate;
      bits = f.bits;
      block = f.block;
      tracks = f.tracks.items;
      failed = f.failed.items;
    } };

    ghost invariant = { λ f. (length f.bytes.items ≡ f.block * 6) × (f.failed.room ≡ most_failed) };
}

/// The bytes of a sample.
pub(crate) fn sample_size(bits: Bits) -> usize
    ensures size { result ≡ bits_of bits / 8 }
    ensures most { result ≤ 3 }
{
    match bits {
        Bits::B16 => 2,
        Bits::B24 => 3,
    }
}

// The name, which keeps the rule of names.
fn named(name: &Name) -> Name
    ensures name { result ≡ name.now }
    ensures rule { IsTrue (is_name result) }
{
    let _text = name.as_str();
    *name
}

// The tracks of a session, none of which was given a block.
fn tracks_of(alloc: Global, s: &Session) -> Result<FixedList<TrackTakes>, NoMemory>
    requires { IsValid s.now }
    ensures tracks { IfOk result (λ tracks. tracks.items ≡ (new_takes s.now).tracks) }
    ensures named { IfOk result (λ _. HasNamedTracks s.now) }
{
    let routes = s.routes.as_slice();
    let mut tracks = FixedList::new(alloc, s.tracks.len() as u32)?;
    for t in 0..s.tracks.len() {
        let route = &routes[t];
        tracks.push(TrackTakes {
            name: named(&route.name),
            channels: route.channels,
            last: None,
        });
    }
    Ok(tracks)
}

// Whether a take is among these.
fn is_noted(failed: &[FailedTake], track: u32, take: u32) -> bool
    ensures { result ≡ is_noted failed.now track take }
{
    failed.iter().any(|k| k.track == track && k.take == take)
}

impl TakeFiles {
    /// Files for the takes of this session's tracks, none of which is begun. No other call takes memory.
    pub fn new(alloc: Global, s: &Session) -> Result<TakeFiles, NoMemory>
        requires { IsValid s.now }
        ensures new { IfOk result (λ f. f ≡ new_takes s.now) }
        ensures of { IfOk result (IsTakingOf s.now) }
        ensures nothing { IfOk result (λ f. (held : AllFiles)
            → ¬ (HasNameUnder held (s.now.takes ++ codes "-"))
            → IsFlushed (record { session = s.now; held = held; blocks = λ _. [] }) f held) }
    {
        Ok(TakeFiles {
            takes: s.takes,
            rate: s.rate,
            bits: s.bits,
            block: s.block,
            tracks: tracks_of(alloc, s)?,
            failed: FixedList::new(alloc, MOST_FAILED)?,
            bytes: vec![in alloc; 0; s.block as usize * 6]?,
        })
    }

    /// The name of the file of a take.
    pub(crate) fn file_name(&self, track: u32, take: u32) -> ArrayString<96>
        ghost s: { Opened }
        requires of { IsTakingOf s self.now }
        requires track { track < length s.tracks.items }
        ensures { result.bytes ≡ take_name s track take }
    {
        file_name(
            &self.takes,
            &self.tracks.as_slice()[track as usize].name,
            take,
        )
    }

    /// Whether nothing more is written of a take: a write of it failed, or of as many takes as can be noted.
    pub(crate) fn has_failed(&self, track: u32, take: u32) -> bool
        ensures failed { result ≡ has_failed self.now track take }
        ensures room { result ≡ false → length self.now.failed < most_failed }
    {
        if is_noted(self.failed.as_slice(), track, take) {
            return true;
        }
        self.failed.len() == MOST_FAILED as usize
    }

    /// The samples of a block of a track.
    pub(crate) fn block_samples(&self, track: u32) -> usize
        ghost s: { Opened }
        requires of { IsTakingOf s self.now }
        requires track { track < length s.tracks.items }
        ensures samples { result ≡ block_samples s track }
        ensures few { result ≤ self.now.block * 2 }
        ensures some { 0 < result }
        ensures small { self.now.block ≤ 4096 }
    {
        self.block as usize * usize::from(self.tracks.as_slice()[track as usize].channels)
    }

    /// The bytes of a block of a track.
    pub(crate) fn block_size(&self, track: u32) -> usize
        ghost s: { Opened }
        requires of { IsTakingOf s self.now }
        requires track { track < length s.tracks.items }
        ensures size { result ≡ block_bytes s track }
        ensures few { result ≤ self.now.block * 6 }
        ensures some { 0 < result }
        ensures small { self.now.block ≤ 4096 }
    {
        self.block_samples(track) * sample_size(self.bits)
    }

    /// Adds so many blocks of this size to the end of a file, all zeros.
    pub(crate) fn add_zeros<M: Media>(
        &mut self,
        media: &mut M,
        name: &str,
        size: usize,
        blocks: u64,
    ) -> Result<(), WriteFault>
        requires room { size ≤ self.old.block * 6 }
        ensures adds { Adds M.outside name.now (replicate (blocks * size) 0)
            media.old media.new result }
        ensures same { self.new ≡ self.old }
    {
        if blocks == 0 {
            return Ok(());
        }
        let zeros = &mut self.bytes.as_mut_slice()[..size];
        zeros.fill(0);
        append_repeated(media, name, zeros, blocks)
    }
}
