//! A track's takes as they are counted, and one block of it captured.
ghost use Rattle.std.specs.Prelude.{◌≡◌, ℕ, ◌*◌, ◌<◌, ◌≤◌, List, [], ◌∷◌, true, length, IfOk, IfSome};
ghost use Rattle.session_model.specs.Formed.{channels_at};
ghost use Rattle.session_model.specs.Valid.{IsValid};
ghost use Rattle.engine_model.specs.Journal.{Entry, note_of};
ghost use Rattle.engine_model.specs.Fits.{next_take, fits_take, records as records_in};
ghost use Rattle.edition_log.specs.EditionState.{state_of};
ghost use Rattle.cycle_journal.specs.JournalView.{seen_take};
ghost use Rattle.track_capture.specs.Counted.{Counts, FitsRing, HasBox, HasCaptured, place_after, block_at};
ghost use Rattle.track_capture.specs.Picked.{picked};

use crate::picking::pick;
use cycle_journal::Take;
use disk_ring::{Full, RingIn};
use edition_log::Edition;
use piece_item::TakeBlock;
use ses_io::NoMemory;
use session_model::Session;
use std::alloc::Global;

/// A block of a take.
#[derive(Clone, Copy, Debug, PartialEq, Eq)]
pub struct Place {
    /// The take's number, from 1.
    pub take: u32,
    /// The block's index in it, from 0.
    pub index: u32,
}

/// What is kept of a track between two cycles: how its takes are counted, and a box for its next block.
#[derive(Drop)]
pub struct TrackCapture {
    pub(crate) husk: Option<Box<TakeBlock>>,
    /// The greatest take so far, 0 before the first.
    pub(crate) greatest: u32,
    /// The block that the last cycle recorded, None where it recorded none.
    pub(crate) last: Option<Place>,
}

/// Whether an edition records a track while it rolls: it is armed, and recording is on. Tracks count from 0.
pub fn records(e: &Edition, track: u32) -> bool
    requires { track < length e.now.session.tracks.items }
    ensures { result ≡ records_in (state_of e.now) track }
{
    e.transport().recording && e.session().tracks.as_slice()[track as usize].armed
}

// The block that follows the last one: a take goes on, or a new one begins.
fn next(last: Option<Place>, greatest: u32) -> Place
    requires last { IfSome last (λ p. p.index < 100000) }
    requires greatest { greatest ≤ 100000 }
    ensures { result ≡ place_after last greatest }
{
    match last {
        Some(Place { take, index }) => Place {
            take,
            index: index + 1,
        },
        None => Place {
            take: greatest + 1,
            index: 0,
        },
    }
}

// Makes the box this block of a take.
fn fill(
    block: &mut TakeBlock,
    place: Place,
    session: &Session,
    track: u32,
    channels: u16,
    input: &[i32],
)
    requires valid { IsValid session.now }
    requires track { track < length session.now.tracks.items }
    requires input { length input.now ≡ session.now.block * channels }
    requires room { length block.old.samples.items
        ≡ session.now.block * channels_at session.now track }
    ensures { block.new ≡ block_at block.old place
        (picked session.now track channels input.now) }
{
    block.take = place.take;
    block.index = place.index;
    pick(
        session,
        track,
        channels,
        input,
        block.samples.as_mut_slice(),
    );
}

impl TrackCapture {
    /// A track of which nothing was recorded yet, with a box of so many samples.
    pub fn new(alloc: Global, samples: u32) -> Result<TrackCapture, NoMemory>
        ensures counts { IfOk result (λ k. (track : ℕ) → Counts [] track k) }
        ensures husk { IfOk result (λ k. HasBox samples k) }
    {
        Ok(TrackCapture {
            husk: Some(TakeBlock::blank(alloc, samples)?),
            greatest: 0,
            last: None,
        })
    }

    /// What a cycle takes of the track. Where it is recorded, its channels of the block of input go into the ring, and are
    /// Lost where that is full, as the next block of its take, or the first of a new one. It takes no memory, and waits for
    /// nobody. The input has so many channels, frame by frame.
    pub fn capture(
        &mut self,
        session: &Session,
        track: u32,
        recorded: bool,
        channels: u16,
        input: &[i32],
        ring: &mut RingIn<TakeBlock>,
    ) -> Take
        ghost before: { List Entry }
        requires valid { IsValid session.now }
        requires track { track < length session.now.tracks.items }
        requires counts { Counts before track self.old }
        requires few { length before ≤ 100000 }
        requires fits { FitsRing (session.now.block * channels_at session.now track)
            self.old ring.old }
        requires input { length input.now ≡ session.now.block * channels }
        ensures take { fits_take recorded (next_take track before) (seen_take result) ≡ true }
        ensures captured { HasCaptured session.now track channels input.now
            ring.old result ring.new }
        ensures counts { (e : Entry) → (note_of track e).take ≡ seen_take result
            → Counts (e ∷ before) track self.new }
        ensures fits { FitsRing (session.now.block * channels_at session.now track)
            self.new ring.new }
    {
        if !recorded {
            self.last = None;
            return Take::Off;
        }
        let Some(mut block) = self.husk.take() else {
            unreachable!()
        };
        let place = next(self.last, self.greatest);
        fill(&mut block, place, session, track, channels, input);
        self.last = Some(place);
        self.greatest = self.greatest.max(place.take);
        let Place { take, index } = place;
        match ring.put(block) {
            Ok(husk) => {
                self.husk = Some(husk);
                Take::Taken { take, index }
            }
            Err(Full { item, head }) => {
                self.husk = Some(item);
                Take::Lost { take, index, head }
            }
        }
    }
}
