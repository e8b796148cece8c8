//! A master whose blocks are handed out as bytes.
ghost use Rattle.std.specs.Prelude.{◌≡◌, ◌≢◌, ℕ, ◌<◌, ◌≤◌, [], length, slice_index_or, None, IfOk, IfSome, IsOk};
ghost use Rattle.session_model.specs.declared.session.Session.{Session as Opening};
ghost use Rattle.session_model.specs.Valid.{IsValid};
ghost use Rattle.edition_log.specs.EditionState.{IsEditionOf};
ghost use Rattle.route_mix.specs.Blocks.{silence};
ghost use Rattle.master_blocks.specs.State.{IsMasterOf};
ghost use Rattle.master_blocks.specs.Bytes.{head_bytes, silent_bytes};
ghost use Rattle.master_blocks.specs.Rolled.{Heard, ArePut, rolled_bytes};
ghost use Rattle.heard_blocks.specs.Playing.{track_samples};

use edition_log::Edition;
use master_blocks::MasterBlocks;
use ses_io::{Failed, MemSink, NoMemory};
use session_model::Session;
use std::alloc::Global;
use std::marker::Model;

/// The master of a session. Contracts see it with the sink that takes the bytes of a block.
#[derive(Drop)]
pub(crate) struct ByteMaster {
    blocks: MasterBlocks<MemSink>,
}

impl Model for ByteMaster {
    ghost use Rattle.ses_io.specs.Memory.{SinkState};
    ghost use Rattle.master_blocks.specs.State.{MasterState};

    ghost Value = { MasterState SinkState };

    ghost view = { λ m. m.blocks };
}

// A sink that nothing was written to.
fn empty(alloc: Global) -> MemSink
    ensures { result.held ≡ [] }
{
    MemSink::new(alloc, Vec::new(alloc))
}

impl ByteMaster {
    /// The master of a session, through which nothing went yet.
    pub(crate) fn new(alloc: Global, s: &Session) -> Result<ByteMaster, NoMemory>
        requires valid { IsValid s.now }
        ensures of { IfOk result (IsMasterOf s.now) }
    {
        match MasterBlocks::new(alloc, s, empty(alloc)) {
            Ok(blocks) => Ok(ByteMaster { blocks }),
            Err(_sink) => Err(NoMemory),
        }
    }

    /// The block of a track, frame by frame, for the block that is mixed next. A track without one is silent.
    pub(crate) fn put(&mut self, track: u32, block: Option<&[i32]>)
        ghost s: { Opening }
        requires of { IsMasterOf s self.old }
        requires track { track < length s.tracks.items }
        requires block { IfSome block (λ b. length b.now ≡ track_samples s track) }
        ensures put { IfSome block.entry
            (λ b. slice_index_or self.new.desk.inputs track [] ≡ b.now) }
        ensures silent { block.entry ≡ None
            → slice_index_or self.new.desk.inputs track [] ≡ silence (track_samples s track) }
        ensures others { (u : ℕ) → u ≢ track → slice_index_or self.new.desk.inputs u []
            ≡ slice_index_or self.old.desk.inputs u [] }
        ensures of { IsMasterOf s self.new }
    {
        let samples = block.unwrap_or(&[]);
        if samples.is_empty() {
            self.blocks.quiet(track);
        } else {
            self.blocks.put(track, samples);
        }
    }

    // The bytes that were written, if all of them were.
    fn taken(&mut self, alloc: Global, written: Result<(), Failed>) -> Result<Vec<u8>, NoMemory>
        ghost s: { Opening }
        requires of { IsMasterOf s self.old }
        ensures bytes { IfOk result (λ bytes. bytes.items ≡ self.old.sink.held) }
        ensures whole { IfOk result (λ bytes. IsOk written) }
        ensures of { IsMasterOf s self.new }
    {
        let sink = self.blocks.replace_sink(empty(alloc));
        let Ok(()) = written else {
            return Err(NoMemory);
        };
        Ok(sink.bytes().to_vec(alloc)?)
    }

    /// The header of a file of so many blocks, at most 100,000.
    pub(crate) fn head(&mut self, alloc: Global, blocks: u32) -> Result<Vec<u8>, NoMemory>
        ghost s: { Opening }
        requires of { IsMasterOf s self.old }
        requires few { blocks ≤ 100000 }
        ensures head { IfOk result (λ bytes. bytes.items ≡ head_bytes s blocks) }
        ensures of { IsMasterOf s self.new }
    {
        self.blocks.replace_sink(empty(alloc));
        let written = self.blocks.begin(blocks);
        self.taken(alloc, written)
    }

    /// A block of silence.
    pub(crate) fn rest(&mut self, alloc: Global) -> Result<Vec<u8>, NoMemory>
        ghost s: { Opening }
        requires of { IsMasterOf s self.old }
        ensures silent { IfOk result (λ bytes. bytes.items ≡ silent_bytes s 1) }
        ensures of { IsMasterOf s self.new }
    {
        self.blocks.replace_sink(empty(alloc));
        let written = self.blocks.rest();
        self.taken(alloc, written)
    }

    /// The block that the tracks' blocks make by the routes of an edition, as this block of its generation.
    pub(crate) fn roll(&mut self, alloc: Global, e: &Edition, seq: u32) -> Result<Vec<u8>, NoMemory>
        ghost heard: { Heard }
        requires of { IsMasterOf heard.session self.old }
        requires edition { IsEditionOf heard.session e.now }
        requires few { seq < 100000 }
        requires put { ArePut heard e.now.transport.generation seq self.old.desk.inputs }
        ensures rolled { IfOk result (λ bytes. bytes.items ≡ rolled_bytes heard e.now seq) }
        ensures of { IsMasterOf heard.session self.new }
    {
        self.blocks.replace_sink(empty(alloc));
        let written = self.blocks.roll(e, seq);
        self.taken(alloc, written)
    }
}
