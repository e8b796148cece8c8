//! The process of a run: its input and its master, its ends of the rings, what it keeps of each
//! track, its position, and the journal.
ghost use Rattle.std.specs.Prelude.{◌≡◌, ◌≤◌, IfOk, IfErr, IfSome};
ghost use Rattle.std.specs.List.{list_any};
ghost use Rattle.wav_codec.specs.Info.{IsFound};
ghost use Rattle.process_ends.specs.Ends.{AreNew};
ghost use Rattle.process_cycle.specs.Playing.{HasBegun};

mod cycle;
mod looking;
mod parts;
mod stores;

use crate::ack_sender::AckSender;
use cycle_journal::Journal;
use edition_log::Edition;
use input_blocks::InputBlocks;
use master_blocks::MasterBlocks;
pub use parts::ProcessParts;
use process_ends::ProcessEnds;
use ses_io::{FixedList, Sink, Source};
use std::alloc::Global;
use std::marker::Model;
use stores::{Stores, new_stores};
use track_capture::TrackCapture;
use track_playback::{TrackPlayback, any_closed};
use wav_codec::WavInfo;

/// What a look of all tracks found.
#[derive(Clone, Copy, Debug, PartialEq, Eq)]
pub enum Look {
    /// The transport doesn't roll, or each track has its piece.
    Ready,
    /// It rolls, and the piece of some track wasn't received: an underrun.
    Short,
}

/// The process. Contracts see it as a record of `specs/ProcessState.antt`; `IsPlaying` says that it
/// plays a session by the edits that it was given, and what it promises of its rings and its
/// journal.
#[derive(Drop)]
pub struct Process<I: Source, W: Sink> {
    input: InputBlocks<I>,
    master: MasterBlocks<W>,
    ends: ProcessEnds,
    playbacks: FixedList<TrackPlayback>,
    captures: FixedList<TrackCapture>,
    journal: Journal,
    depth: u32,
    entered: u32,
    generation: u32,
    next: u32,
    to_butler: AckSender,
    to_control: AckSender,
}

impl<I: Source, W: Sink> Model for Process<I, W> {
    ghost use Rattle.track_playback.specs.Played.{KnowsTheEnds};
    ghost use Rattle.process_cycle.specs.ProcessState.{ProcessState};

    ghost Value = { ProcessState I W };

    ghost view = { λ p. record {
      input = p.input;
      master = p.master;
      ends = p.ends;
      playbacks = p.playbacks.items;
      captures = p.captures.items;
      journal = p.journal;
      depth = p.depth;
      entered = p.entered;
      generation = p.generation;
      next = p.next;
    } };

    ghost invariant = { λ p. KnowsTheEnds p.ends.plays.items p.playbacks.items };
}

impl<I: Source, W: Sink> Process<I, W> {
    /// The process of a run that begins with this edition, which has no edit, with room for so many
    /// cycles, 1..100,000. What the input has left is the data of `form` from frame 0 on; with no
    /// form there is no input. Err is want of memory, and gives input and master back.
    pub fn new(
        alloc: Global,
        e: &Edition,
        cycles: u32,
        input: I,
        form: Option<WavInfo>,
        master: W,
        ends: ProcessEnds,
    ) -> Result<Process<I, W>, (I, W)>
        requires ends { AreNew e.now.session ends }
        requires form { IfSome form IsFound }
        requires cycles { cycles ≤ 100000 }
        ensures begun { IfOk result (HasBegun I.outside W.outside e.now.session cycles
            input form master ends) }
        ensures back { IfErr result (λ given. given ≡ (input, master)) }
    {
        let session = e.session();
        let Ok(stores) = new_stores(alloc, session, cycles) else {
            return Err((input, master));
        };
        let master = match MasterBlocks::new(alloc, session, master) {
            Ok(blocks) => blocks,
            Err(master) => return Err((input, master)),
        };
        let input = match InputBlocks::new(alloc, input, form, session.block) {
            Ok(blocks) => blocks,
            Err(input) => return Err((input, master.into_sink())),
        };
        let Stores {
            playbacks,
            captures,
            journal,
            to_butler,
            to_control,
        } = stores;
        Ok(Process {
            input,
            master,
            ends,
            playbacks,
            captures,
            journal,
            depth: session.depth,
            entered: 0,
            generation: 0,
            next: 0,
            to_butler,
            to_control,
        })
    }

    /// The entries made so far.
    pub fn journal(&self) -> &Journal
        ensures { result.now ≡ self.now.journal }
    {
        &self.journal
    }

    /// Whether the playback ring of a track has answered Closed.
    pub fn closed(&self) -> bool
        ensures { result ≡ list_any (λ r. r.ended) self.now.ends.plays.items }
    {
        any_closed(self.playbacks.as_slice())
    }
}
