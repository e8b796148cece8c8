//! The sources of a session: all opened at once, their frames read by lines of 4,096, of which 64 are held.
ghost use Rattle.std.specs.Prelude.{◌≡◌, ◌*◌, ◌%◌, ◌<◌, ◌≤◌, [], length, map, slice_index, IfOk, IfErr, OnOk, OnErr, SomeIff, All, slice_get, IfSome, ◌^◌};
ghost use Rattle.wav_codec.specs.Info.{IsFound};
ghost use Rattle.ses_io.specs.Outside.{OnlyReads, ReadCause};
ghost use Rattle.session_model.specs.Frames.{interleaved, IsSample};
ghost use Rattle.audio_source.specs.Answers.{NamesFirst, IsRefusalOf, OpenCause};
ghost use Rattle.audio_source.specs.Opened.{opened_source, channels_of, IsListedAs, IsListed, IsOpenedAs, IsOpened};
ghost use Rattle.audio_source.specs.Told.{source_sound};
ghost use Rattle.audio_source.specs.Lines.{HoldsAsRead, HasAsked, names_of, asked_in};

use crate::entry::Entry;
use crate::lines::Lines;
use crate::opening::{Unopened, opened};
use crate::refusal::{OpenRefusal, ReadFault};
use crate::stretch::frames_by_lines;
use ses_io::Media;
use session_model::{FileName, SourceDecl, SourceList};
use std::alloc::Global;
use std::marker::Model;

/// Opened sources. Contracts see the name of each file with the head that it had, and the lines that are held.
#[derive(Drop)]
pub struct Sources {
    entries: Vec<Entry>,
    // The bytes of 4,096 frames of the source with the most channels.
    buffer: Vec<u8>,
    // With room for as many frames of it.
    lines: Lines,
}

impl Model for Sources {
    ghost use Rattle.std.specs.Prelude.{map};
    ghost use Rattle.audio_source.specs.Opened.{opened_source};
    ghost use Rattle.audio_source.specs.Lines.{SourcesState};
    ghost use Rattle.audio_source.specs.Held.{sources_state, AreRead};

    ghost Value = { SourcesState };

    ghost view = { λ s. sources_state (map opened_source s.entries.items) s.lines };

    ghost invariant = { λ s. AreRead s.entries.items s.buffer.items s.lines };
}

// Opens a source.
fn entry_of<M: Media>(
    alloc: Global,
    media: &mut M,
    d: &SourceDecl,
    source: u32,
    rate: u32,
) -> Result<Entry, OpenRefusal>
    ensures found { IfOk result (λ e. IsFound e.info) }
    ensures listed { IfOk result (λ e. IsListedAs rate d.now (opened_source e)) }
    ensures told { M.outside.tells
        → IfOk result (λ e. IsOpenedAs (M.outside.files media.old) rate d.now (opened_source e)) }
    ensures refused { M.outside.tells
        → IfErr result (IsRefusalOf (M.outside.files media.old) rate d.now source) }
    ensures only_reads { OnlyReads M.outside media.old media.new }
    ensures cause { OpenCause M.outside media.old media.new result }
{
    let Ok(file) = FileName::new(alloc, d.file.as_str()) else {
        return Err(OpenRefusal::NoMemory);
    };
    match opened(media, d.file.as_str(), rate, d.channels) {
        Ok(info) => Ok(Entry { file, info }),
        Err(Unopened::Refused(why)) => Err(OpenRefusal::File { source, why }),
        Err(Unopened::Fault) => Err(OpenRefusal::ReadFault),
    }
}

// Opens all sources, in their order.
fn all_entries<M: Media>(
    alloc: Global,
    media: &mut M,
    list: &SourceList,
    rate: u32,
) -> Result<Vec<Entry>, OpenRefusal>
    ensures found { IfOk result (λ v. All (λ e. IsFound e.info) v.items) }
    ensures listed { IfOk result (λ v. IsListed rate list.now.items (map opened_source v.items)) }
    ensures told { M.outside.tells → IfOk result
        (λ v. IsOpened (M.outside.files media.old) rate
        list.now.items (map opened_source v.items)) }
    ensures refused { M.outside.tells → IfErr result
        (NamesFirst (M.outside.files media.old) rate list.now.items) }
    ensures only_reads { OnlyReads M.outside media.old media.new }
    ensures cause { OpenCause M.outside media.old media.new result }
{
    let mut entries = Vec::new(alloc);
    let decls = list.as_slice();
    for source in 0..list.len() as u32 {
        match entry_of(alloc, media, &decls[source as usize], source, rate) {
            Ok(entry) => entries.push(entry)?,
            Err(refusal) => return Err(refusal),
        }
    }
    Ok(entries)
}

// The most channels of a source.
fn widest(entries: &[Entry]) -> u16
    ensures { All (λ e. e.info.channels ≤ result) entries.now }
{
    let mut widest = 0;
    for entry in entries {
        widest = entry.info.channels.max(widest);
    }
    widest
}

impl Sources {
    /// Opens the source's files, each by its head. A refusal names the first source, in their order, whose file isn't
    /// opened, and the first reason in the order of `FileRefusal`. It takes the memory of all later reads.
    pub fn new<M: Media>(
        alloc: Global,
        media: &mut M,
        list: &SourceList,
        rate: u32,
    ) -> Result<Sources, OpenRefusal>
        ensures listed { IfOk result (λ s. IsListed rate list.now.items s.opened) }
        ensures told { M.outside.tells → IfOk result
            (λ s. IsOpened (M.outside.files media.old) rate list.now.items s.opened) }
        ensures held { IfOk result (λ s. s.held ≡ []) }
        ensures refused { M.outside.tells
            → IfErr result (NamesFirst (M.outside.files media.old) rate list.now.items) }
        ensures only_reads { OnlyReads M.outside media.old media.new }
        ensures cause { OpenCause M.outside media.old media.new result }
    {
        let entries = all_entries(alloc, media, list, rate)?;
        let room = 4096 * usize::from(widest(&entries));
        let buffer = vec![in alloc; 0; 3 * room]?;
        let lines = Lines::new(alloc, room)?;
        Ok(Sources {
            entries,
            buffer,
            lines,
        })
    }

    /// The channels of a source, None where there is no such source.
    pub fn channels(&self, source: u32) -> Option<u16>
        ensures { SomeIff result (source < length self.now.opened)
            (slice_index (channels_of self.now.opened) source) }
    {
        if source as usize >= self.entries.len() {
            return None;
        }
        Some(self.entries[source as usize].info.channels)
    }

    // The channels of a source that is there.
    pub(crate) fn width(&self, source: u32) -> u16
        requires { source < length self.now.opened }
        ensures width { result ≡ slice_index (channels_of self.now.opened) source }
        ensures some { 1 ≤ result }
        ensures few { IfSome (slice_get self.now.opened source) (λ o. o.head.frames < 2 ^ 32) }
    {
        self.entries[source as usize].info.channels
    }

    /// Fills `out`, which holds up to 4,096 whole frames, with the frames of a source from frame `from` on, and with 0
    /// past its end. Lines that are held aren't read. It takes no memory. After a fault the content of `out` isn't said.
    pub fn frames<M: Media>(
        &mut self,
        media: &mut M,
        source: u32,
        from: u64,
        out: &mut [i32],
    ) -> Result<(), ReadFault>
        requires source { source < length self.old.opened }
        requires whole { length out.old % slice_index (channels_of self.old.opened) source ≡ 0 }
        requires few { length out.old ≤ 4096 * slice_index (channels_of self.old.opened) source }
        ensures told { M.outside.tells → HoldsAsRead (M.outside.files media.old) self.old
            → OnOk result (out.new ≡ interleaved
            (source_sound (M.outside.files media.old) self.old.opened source)
            (slice_index (channels_of self.old.opened) source) from (length out.new)) }
        ensures holds { M.outside.tells → HoldsAsRead (M.outside.files media.old) self.old
            → HoldsAsRead (M.outside.files media.old) self.new }
        ensures range { OnOk result (All IsSample out.new) }
        ensures opened { self.new.opened ≡ self.old.opened }
        ensures lines { HasAsked (asked_in self.old.opened source from (length out.old))
            (names_of self.old.held) result (names_of self.new.held) }
        ensures only_reads { OnlyReads M.outside media.old media.new }
        ensures cause { ReadCause M.outside media.old media.new result }
    {
        let entry = &self.entries[source as usize];
        let buf = self.buffer.as_mut_slice();
        frames_by_lines(media, &mut self.lines, entry, buf, source, from, out)?;
        Ok(())
    }
}
