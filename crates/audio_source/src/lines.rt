//! 64 lines of sources as they were read, the most recently used first. The samples of slot k are those from k * room on.
ghost use Rattle.std.specs.Prelude.{◌≡◌, ◌≢◌, ℕ, ◌+◌, ◌-◌, ◌*◌, ◌<◌, ◌≤◌, ◌%◌, ℤ, List, ◌∷◌, [], nat_eq, is_some, length, take, drop, Some, IfSome, IfOk, IfErr, OnOk, OnErr, All, None, true};
ghost use Rattle.std.specs.List.{IsDistinct};
ghost use Rattle.std.specs.Map.{keys_of, lookup};
ghost use Rattle.lru.specs.LruCache.{promoted, last_entry};
ghost use Rattle.ses_io.specs.Outside.{OnlyReads, ReadCause};
ghost use Rattle.session_model.specs.Frames.{IsSample};
ghost use Rattle.audio_source.specs.Opened.{IsReadable};
ghost use Rattle.audio_source.specs.declared.refusal.OpenRefusal.TheVariants.{NoMemory};
ghost use Rattle.audio_source.specs.Lines.{same_line};
ghost use Rattle.audio_source.specs.Slots.{used, line_store, AreSlots, IsLast, IsRead, IsLineOf, slot_samples};

use crate::entry::Entry;
use crate::line::LineName;
use crate::refusal::OpenRefusal;
use crate::span::span;
use lru::LruCache;
use ses_io::{Failed, Media};
use std::alloc::Global;
use std::marker::Model;
use std::num::NonZeroUsize;

// A slot, and the line that it has.
type Slots = LruCache<u32, Option<LineName>>;

/// The lines that are held.
#[derive(Drop)]
pub(crate) struct Lines {
    slots: LruCache<u32, Option<LineName>>,
    samples: Vec<i32>,
    room: usize,
}

impl Model for Lines {
    ghost use Rattle.std.specs.Prelude.{◌≡◌, ◌*◌, length, All};
    ghost use Rattle.session_model.specs.Frames.{IsSample};
    ghost use Rattle.audio_source.specs.Slots.{LineStore, line_store, lines_in, used, IsStore};

    ghost Value = { LineStore };

    ghost view = { λ l. line_store l.room
        (lines_in l.room l.samples.items (used l.slots.entries)) };

    ghost invariant = { λ l. IsStore l.room l.samples.items l.slots.entries };
}

// 64 slots with no line.
fn empty_slots(alloc: Global) -> Result<Slots, OpenRefusal>
    ensures empty { IfOk result (λ c. used c.entries ≡ []) }
    ensures slots { IfOk result (λ c. AreSlots c.entries) }
    ensures refused { IfErr result (λ e. e ≡ NoMemory) }
{
    let mut slots = LruCache::new(alloc, NonZeroUsize::new(64).unwrap())?;
    for slot in 0..64 {
        slots.put(slot, None)?;
    }
    Ok(slots)
}

// The slot of a line, None where the line isn't held.
fn slot_of(slots: &Slots, name: LineName) -> Option<u32>
    ensures found { result ≡ lookup (same_line name) (used slots.now.entries) }
    ensures apart { IsDistinct nat_eq (keys_of slots.now.entries) }
{
    // A cache tells by its length that no slot comes twice.
    let _many = slots.len();
    for (slot, held) in slots.iter() {
        match held {
            Some(held) if name.source == held.source && name.line == held.line => {
                return Some(*slot);
            }
            Some(_) => {}
            None => return None,
        }
    }
    None
}

// The slot that was used least recently.
fn last_slot(slots: &Slots) -> u32
    requires { AreSlots slots.now.entries }
    ensures { IsLast slots.now.entries result }
{
    let _many = slots.len();
    match slots.peek_lru() {
        Some((slot, _)) => *slot,
        None => 0,
    }
}

// Gives the slot that was used least recently to a line. It then is the most recently used.
fn give_slot(slots: &mut Slots, slot: u32, name: LineName)
    requires slots { AreSlots slots.old.entries }
    requires last { IsLast slots.old.entries slot }
    ensures used { used slots.new.entries ≡ (name, slot) ∷ take 63 (used slots.old.entries) }
    ensures slots { AreSlots slots.new.entries }
{
    if let Some(held) = slots.get_mut(&slot) {
        *held = Some(name);
    }
}

// Copies samples of a slot's line, from one on.
fn copy_line(samples: &[i32], room: usize, slot: u32, from: usize, out: &mut [i32])
    requires long { length samples.now ≡ 64 * room }
    requires few { room ≤ 4096 * 65535 }
    requires slot { slot < 64 }
    requires within { from + length out.old ≤ room }
    requires range { All IsSample samples.now }
    ensures out { out.new ≡ take (length out.old) (drop from (slot_samples room samples.now slot)) }
    ensures range { All IsSample out.new }
{
    let first = slot as usize * room + from;
    out.copy_from_slice(&samples[first..first + out.len()]);
}

// Reads a line to the front of a slot's samples. After a fault they are as they were.
fn read_slot<M: Media>(
    media: &mut M,
    entry: &Entry,
    line: u64,
    buf: &mut [u8],
    samples: &mut [i32],
    room: usize,
    slot: u32,
) -> Result<(), Failed>
    requires readable { IsReadable (length buf.old) entry.now }
    requires room { 4096 * entry.now.info.channels ≤ room }
    requires inside { 4096 * line ≤ entry.now.info.frames }
    requires long { length samples.old ≡ 64 * room }
    requires few { room ≤ 4096 * 65535 }
    requires slot { slot < 64 }
    requires range { All IsSample samples.old }
    ensures told { M.outside.tells → OnOk result (IsLineOf (M.outside.files media.old) entry.now
        line (slot_samples room samples.new slot)) }
    ensures others { OnOk result ((j : ℕ) → j ≢ slot
        → slot_samples room samples.new j ≡ slot_samples room samples.old j) }
    ensures range { OnOk result (All IsSample samples.new) }
    ensures kept { OnErr result (samples.new ≡ samples.old) }
    ensures only_reads { OnlyReads M.outside media.old media.new }
    ensures cause { ReadCause M.outside media.old media.new result }
{
    let first = slot as usize * room;
    let many = 4096 * entry.info.channels as usize;
    span(
        media,
        entry,
        4096 * line,
        buf,
        &mut samples[first..first + many],
    )?;
    Ok(())
}

impl Lines {
    /// Takes the memory of 64 lines of up to so many samples, and holds none.
    pub(crate) fn new(alloc: Global, room: usize) -> Result<Lines, OpenRefusal>
        requires { room ≤ 4096 * 65535 }
        ensures held { IfOk result (λ lines. lines ≡ line_store room []) }
        ensures refused { IfErr result (λ e. e ≡ NoMemory) }
    {
        let slots = empty_slots(alloc)?;
        let samples = vec![in alloc; 0; 64 * room]?;
        Ok(Lines {
            slots,
            samples,
            room,
        })
    }

    /// Fills `out` with samples of a line from one on, where the line is held. It then is the most recently used.
    pub(crate) fn show(&mut self, name: LineName, from: usize, out: &mut [i32]) -> bool
        requires { from + length out.old ≤ self.old.room }
        ensures found { result ≡ is_some (lookup (same_line name) self.old.held) }
        ensures held { self.new ≡ line_store self.old.room
            (promoted (same_line name) self.old.held) }
        ensures out { IfSome (lookup (same_line name) self.old.held)
            (λ samples. out.new ≡ take (length out.old) (drop from samples)) }
        ensures range { result ≡ true → All IsSample out.new }
        ensures few { length self.old.held ≤ 64 }
    {
        let Some(slot) = slot_of(&self.slots, name) else {
            return false;
        };
        self.slots.promote(&slot);
        copy_line(self.samples.as_slice(), self.room, slot, from, out);
        true
    }

    /// Reads a line into the slot that was used least recently. After a fault all is as it was.
    pub(crate) fn read<M: Media>(
        &mut self,
        media: &mut M,
        entry: &Entry,
        name: LineName,
        buf: &mut [u8],
    ) -> Result<(), Failed>
        requires readable { IsReadable (length buf.old) entry.now }
        requires room { 4096 * entry.now.info.channels ≤ self.old.room }
        requires inside { 4096 * name.line ≤ entry.now.info.frames }
        ensures room { self.new.room ≡ self.old.room }
        ensures read { OnOk result (IsRead name self.old.held self.new.held
            (λ samples. M.outside.tells
            → IsLineOf (M.outside.files media.old) entry.now name.line samples)) }
        ensures kept { OnErr result (self.new ≡ self.old) }
        ensures only_reads { OnlyReads M.outside media.old media.new }
        ensures cause { ReadCause M.outside media.old media.new result }
    {
        let slot = last_slot(&self.slots);
        let samples = self.samples.as_mut_slice();
        read_slot(media, entry, name.line, buf, samples, self.room, slot)?;
        give_slot(&mut self.slots, slot, name);
        Ok(())
    }
}
