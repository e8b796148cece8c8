//! A butler: in a turn it takes acknowledgements, enters the edition, flushes what was recorded,
//! and sends what is due.
ghost use Rattle.std.specs.Prelude.{◌≡◌, ◌<◌, ◌++◌, [], length, replicate, codes, IfOk, IfErr};
ghost use Rattle.ses_io.specs.Files.{Files as AllFiles, HasNameUnder};
ghost use Rattle.session_model.specs.declared.session.Session.{Session as Opening};
ghost use Rattle.capture_flush.specs.Flushed.{IsFlushed};
ghost use Rattle.capture_flush.specs.Taking.{IsTakingOf};
ghost use Rattle.capture_drain.specs.Files.{tape_of};
ghost use Rattle.butler.specs.ButlerState.{Served};
ghost use Rattle.butler.specs.Begins.{MayBegin, IsGiven};
ghost use Rattle.butler.specs.Holds.{IsFirstOf};
ghost use Rattle.butler.specs.Serving.{IsServing, IsTrueTo};
ghost use Rattle.butler.specs.Turns.{Enters, Receives, TakesAreKept, AllSend, StaysTrue, Answers};
ghost use Rattle.butler.specs.Faults.{Fails, KeepsRest};

use crate::faults::ButlerFault;
use crate::turning::{Turn, turn_of};
use audio_source::Sources;
use capture_drain::CaptureDrain;
use edition_log::Edition;
use piece_item::{Ack, ButlerEnds};
use playlist_layers::Scratch;
use read_ahead::{SourceReader, TrackSupply, supplies};
use ses_io::{FixedList, Media, NoMemory};
use ses_units::limits::EDITS;
use std::alloc::Global;
use std::marker::Model;

/// The generations that a table has: one more than there are edits.
const GENERATIONS: usize = EDITS as usize + 1;

/// What a butler holds beside its ends.
#[derive(Drop)]
pub(crate) struct Holdings<M: Media> {
    pub(crate) reader: SourceReader<M>,
    /// How many cycles were asked.
    pub(crate) cycles: u32,
    pub(crate) supplies: FixedList<TrackSupply>,
    pub(crate) drain: CaptureDrain,
    /// Of each generation the greatest next block that was acknowledged.
    pub(crate) nexts: FixedList<u32>,
    pub(crate) husk: Option<Box<Ack>>,
    /// The number of the edition that was entered last.
    pub(crate) entered: u32,
    /// Whether the ring of acknowledgements has answered Closed.
    pub(crate) ended: bool,
    /// Whether nothing is sent any more: a read failed, or it was told so.
    pub(crate) hushed: bool,
    pub(crate) write_failed: bool,
}

/// Reads ahead and sends, and flushes what was recorded. Between two calls it has one spare box for
/// each ring.
#[derive(Drop)]
pub struct Butler<M: Media> {
    pub(crate) holds: Holdings<M>,
    pub(crate) ends: ButlerEnds,
}

impl<M: Media> Model for Butler<M> {
    ghost use Rattle.std.specs.Prelude.{◌≡◌, length, IsSome};
    ghost use Rattle.butler.specs.ButlerState.{ButlerState};
    ghost use Rattle.butler.specs.Serving.{AreStocked};

    ghost Value = { ButlerState M };

    ghost view = { λ b. record {
      media = b.holds.reader.media;
      sources = b.holds.reader.sources;
      room = b.holds.reader.room;
      cycles = b.holds.cycles;
      ends = b.ends;
      supplies = b.holds.supplies.items;
      drain = b.holds.drain;
      nexts = b.holds.nexts.items;
      entered = b.holds.entered;
      hushed = b.holds.hushed;
      write_failed = b.holds.write_failed;
    } };

    ghost invariant = { λ b. AreStocked b.holds.supplies.items b.holds.drain b.ends
        × (length b.holds.nexts.items ≡ 10001)
        × IsSome b.holds.husk × (b.holds.ended ≡ b.ends.acks.ended) };
}

// A table of zeros.
fn table(alloc: Global) -> Result<FixedList<u32>, NoMemory>
    ensures { IfOk result (λ v. v.items ≡ replicate 10001 0) }
{
    let nexts = vec![in alloc; 0; GENERATIONS]?;
    Ok(FixedList::from_vec(nexts))
}

// What a butler holds that did nothing yet.
fn first_holdings<M: Media>(
    alloc: Global,
    media: M,
    sources: Sources,
    e: &Edition,
    cycles: u32,
) -> Result<Holdings<M>, M>
    ensures first { IfOk result (IsFirstOf media sources e.now cycles) }
    ensures taking { IfOk result (λ h. IsTakingOf e.now.session h.drain.files) }
    ensures back { IfErr result (λ m. m ≡ media) }
{
    let session = e.session();
    let Ok(supplies) = supplies(alloc, e) else {
        return Err(media);
    };
    let Ok(drain) = CaptureDrain::new(alloc, session) else {
        return Err(media);
    };
    let Ok(scratch) = Scratch::new(alloc, session.block) else {
        return Err(media);
    };
    let Ok(nexts) = table(alloc) else {
        return Err(media);
    };
    let Ok(husk) = Ack::blank(alloc) else {
        return Err(media);
    };
    Ok(Holdings {
        reader: SourceReader {
            media,
            sources,
            scratch,
        },
        cycles,
        supplies: FixedList::from_vec(supplies),
        drain,
        nexts,
        husk: Some(husk),
        entered: e.number(),
        ended: false,
        hushed: false,
        write_failed: false,
    })
}

impl<M: Media> Butler<M> {
    /// A butler that sent and flushed nothing yet, with the memory of all its turns. Err is want of
    /// memory, and gives the media back.
    pub fn new(
        alloc: Global,
        media: M,
        sources: Sources,
        e: &Edition,
        cycles: u32,
        ends: ButlerEnds,
    ) -> Result<Butler<M>, M>
        ghost s: { Opening }
        requires begins { MayBegin s e.now sources.opened cycles ends }
        requires held { sources.held ≡ [] }
        ensures serving { IfOk result (IsServing s e.now.edits) }
        ensures given { IfOk result (IsGiven media sources.opened cycles ends) }
        ensures true_to { IfOk result (λ b. (files : AllFiles) → IsTrueTo files s e.now.edits b) }
        ensures no_take { IfOk result (λ b. (held : AllFiles)
            → ¬ (HasNameUnder held (s.takes ++ codes "-"))
            → IsFlushed (tape_of (record { session = s; held = held }) b.ends.takes.items)
            b.drain.files held) }
        ensures back { IfErr result (λ m. m ≡ media) }
    {
        let holds = first_holdings(alloc, media, sources, e, cycles)?;
        Ok(Butler { holds, ends })
    }

    /// Takes acknowledgements until there is none, enters the edition, flushes blocks of the
    /// capture rings into the files of takes, and sends what is due of each track in order, in all
    /// at most so many. It takes no memory. After a ReadFault all playback rings are closed, and
    /// further turns send nothing; after a WriteFault the take at which it came is left as it is, and
    /// those of all others are flushed further.
    pub fn turn(&mut self, e: &Edition, most: u32) -> Result<Turn, ButlerFault>
        ghost at: { Served }
        requires enters { Enters at self.old e.now }
        requires some { 0 < most }
        ensures serving { IsServing at.session e.now.edits self.new }
        ensures receives { Receives self.old self.new }
        ensures takes { M.outside.tells → TakesAreKept at (M.outside.files self.old.media)
            (M.outside.files self.new.media) self.old self.new }
        ensures sends { AllSend at.session e.now self.old self.new }
        ensures stays_true { M.outside.tells → StaysTrue M.outside at e.now self.old self.new }
        ensures answer { Answers at.session e.now most self.old result self.new }
        ensures fails { Fails M.outside self.old result self.new }
        ensures rest { KeepsRest M.outside at.session e.now self.old self.new }
    {
        self.accept();
        self.enter(e);
        let Ok(flushed) = self.flush(most) else {
            return Err(ButlerFault::WriteFault);
        };
        let Ok(sent) = self.send(e, most - flushed) else {
            return Err(ButlerFault::ReadFault);
        };
        Ok(turn_of(flushed + sent))
    }
}
