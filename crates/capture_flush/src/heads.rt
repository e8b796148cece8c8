//! The head of a take's file: of how many blocks it tells, and when it is written anew.
ghost use Rattle.std.specs.Prelude.{◌≡◌, ◌*◌, ◌<◌, ◌≤◌, length, OnOk, OnErr};
ghost use Rattle.ses_io.specs.Files.{HasRange, OverwritesSome};
ghost use Rattle.ses_io.specs.Outside.{WriteCause};
ghost use Rattle.sound_model.specs.Wav.{header};
ghost use Rattle.session_model.specs.declared.session.Session.{Session as Opened};
ghost use Rattle.session_model.specs.Formed.{channels_at};
ghost use Rattle.engine_model.specs.Takes.{take_form, take_name};
ghost use Rattle.capture_flush.specs.Flushed.{block_bytes, second_blocks, stated, head_of, renewed};
ghost use Rattle.capture_flush.specs.Taking.{IsTakingOf};

use crate::fault::WriteFault;
use crate::takes::TakeFiles;
use crate::writes::overwrite_front;
use ses_io::Media;
use wav_codec::WavForm;

impl TakeFiles {
    // The channels of a track.
    fn channels(&self, track: u32) -> u16
        ghost s: { Opened }
        requires of { IsTakingOf s self.now }
        requires track { track < length s.tracks.items }
        ensures channels { result ≡ channels_at s track }
        ensures least { 1 ≤ result }
        ensures most { result ≤ 2 }
    {
        self.tracks.as_slice()[track as usize].channels
    }

    /// The header of a file of so many blocks.
    pub(crate) fn header(&self, track: u32, blocks: u32) -> [u8; 44]
        ghost s: { Opened }
        requires of { IsTakingOf s self.now }
        requires track { track < length s.tracks.items }
        requires few { blocks ≤ 100000 }
        ensures { result ≡ header (take_form s track) (blocks * block_bytes s track) }
    {
        let form = WavForm {
            channels: self.channels(track),
            rate: self.rate,
            bits: self.bits,
        };
        wav_codec::header(&form, u64::from(blocks) * u64::from(self.block))
    }

    // The blocks of about a second.
    fn second_blocks(&self) -> u32
        ghost s: { Opened }
        requires { IsTakingOf s self.now }
        ensures { result ≡ second_blocks s }
    {
        (self.rate / self.block).max(1)
    }

    // Of how many blocks the head tells where so many stand.
    fn stated(&self, track: u32, blocks: u64) -> u32
        ghost s: { Opened }
        requires of { IsTakingOf s self.now }
        requires track { track < length s.tracks.items }
        ensures stated { result ≡ stated s track blocks }
        ensures few { result ≤ 100000 }
    {
        let few = blocks.min(100_000) as u32;
        if self.block_size(track) < 44 {
            return few.min(1);
        }
        let second = self.second_blocks();
        few.min((few / second * second).max(1))
    }

    /// Writes the head of a take's file anew, which had so many blocks before and has so many after, where it tells of others.
    pub(crate) fn renew<M: Media>(
        &self,
        media: &mut M,
        track: u32,
        take: u32,
        before: u64,
        after: u64,
    ) -> Result<(), WriteFault>
        ghost s: { Opened }
        requires of { IsTakingOf s self.now }
        requires track { track < length s.tracks.items }
        requires inside { M.outside.tells → ¬ (stated s track before ≡ stated s track after)
            → HasRange (M.outside.files media.old) (take_name s track take) 0 44 }
        ensures all { M.outside.tells → OnOk result (M.outside.files media.new
            ≡ renewed s track (take_name s track take) before after
            (M.outside.files media.old)) }
        ensures part { M.outside.tells → OnErr result (OverwritesSome
            (M.outside.files media.old) (M.outside.files media.new) (take_name s track take) 0
            (head_of s track after)) }
        ensures cause { WriteCause M.outside media.old media.new result }
        ensures reads { M.outside.read_faults media.new ≡ M.outside.read_faults media.old }
    {
        let told = self.stated(track, after);
        if self.stated(track, before) == told {
            return Ok(());
        }
        let name = self.file_name(track, take);
        let head = self.header(track, told);
        overwrite_front(media, name.as_str(), &head)
    }
}
