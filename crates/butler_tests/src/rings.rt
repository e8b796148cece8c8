//! New rings for a butler: its ends of them, and the other ones.
ghost use Rattle.std.specs.Prelude.{◌≡◌, ◌<◌, length, All, IfOk, [], false};
ghost use Rattle.session_model.specs.Valid.{IsValid};
ghost use Rattle.butler.specs.Begins.{IsNewSender, IsNewReceiver};
ghost use Rattle.butler_tests.specs.Bench.{AreNewEnds, IsNewAckEnd};

use crate::track_ends::TrackEnds;
use disk_ring::{RingIn, RingInList, RingOut, RingOutList, ring};
use piece_item::{Ack, ButlerEnds, Item, TakeBlock};
use ses_io::NoMemory;
use session_model::Session;
use std::alloc::Global;

fn blanks(alloc: Global, many: u32, samples: u32) -> Result<Vec<Box<Item>>, NoMemory>
    ensures many { IfOk result (λ v. length v.items ≡ many) }
    ensures room { IfOk result (λ v. All (λ b. length b.value.samples.items ≡ samples) v.items) }
{
    let mut blanks = Vec::new(alloc);
    for made in 0..many {
        blanks.push(Item::blank(alloc, samples)?)?;
    }
    Ok(blanks)
}

fn blank_blocks(alloc: Global, many: u32, samples: u32) -> Result<Vec<Box<TakeBlock>>, NoMemory>
    ensures many { IfOk result (λ v. length v.items ≡ many) }
    ensures room { IfOk result (λ v. All (λ b. length b.value.samples.items ≡ samples) v.items) }
{
    let mut blanks = Vec::new(alloc);
    for made in 0..many {
        blanks.push(TakeBlock::blank(alloc, samples)?)?;
    }
    Ok(blanks)
}

fn play_ring(
    alloc: Global,
    depth: u32,
    samples: u32,
) -> Result<(RingIn<Item>, RingOut<Item>), NoMemory>
    requires { 0 < depth }
    ensures to { IfOk result (λ r. IsNewSender depth samples r.0) }
    ensures from { IfOk result (λ r. r.1.room ≡ samples) }
{
    let (to, from) = ring(alloc, depth, blanks(alloc, depth, samples)?)?;
    Ok((to, from))
}

fn take_ring(
    alloc: Global,
    depth: u32,
    samples: u32,
) -> Result<(RingIn<TakeBlock>, RingOut<TakeBlock>), NoMemory>
    requires { 0 < depth }
    ensures from { IfOk result (λ r. IsNewReceiver samples r.1) }
{
    let (to, from) = ring(alloc, depth, blank_blocks(alloc, depth, samples)?)?;
    Ok((to, from))
}

// A ring of one acknowledgement.
fn ack_ring(alloc: Global) -> Result<(RingIn<Ack>, RingOut<Ack>), NoMemory>
    ensures to { IfOk result (λ r. r.0.room ≡ 0) }
    ensures still_open { IfOk result (λ r. r.0.closed ≡ false) }
    ensures from { IfOk result (λ r. IsNewAckEnd r.1) }
{
    let mut husks = Vec::new(alloc);
    husks.push(Ack::blank(alloc)?)?;
    let (to, from) = ring(alloc, 1, husks)?;
    Ok((to, from))
}

// The rings of one track: the butler's two ends, and the other ones.
fn track_rings(
    alloc: Global,
    depth: u32,
    samples: u32,
) -> Result<(RingIn<Item>, RingOut<TakeBlock>, TrackEnds), NoMemory>
    requires { 0 < depth }
    ensures sends { IfOk result (λ r. IsNewSender depth samples r.0) }
    ensures takes { IfOk result (λ r. IsNewReceiver samples r.1) }
{
    let (send, play) = play_ring(alloc, depth, samples)?;
    let (put, take) = take_ring(alloc, depth, samples)?;
    Ok((send, take, TrackEnds::new(play, put, samples)))
}

/// New rings for a session: the butler's ends, and the other ones.
#[derive(Drop)]
pub(crate) struct Rings {
    pub(crate) ends: ButlerEnds,
    pub(crate) tracks: Vec<TrackEnds>,
    pub(crate) acks: RingIn<Ack>,
}

/// New rings for the tracks of a session, and for acknowledgements.
pub(crate) fn new_rings(alloc: Global, s: &Session) -> Result<Rings, NoMemory>
    requires { IsValid s.now }
    ensures ends { IfOk result (λ r. AreNewEnds s.now r.ends) }
    ensures acks { IfOk result (λ r. r.acks.room ≡ 0) }
    ensures still_open { IfOk result (λ r. r.acks.closed ≡ false) }
{
    let routes = s.routes.as_slice();
    let mut sends = RingInList::new(alloc, s.tracks.len() as u32)?;
    let mut takes = RingOutList::new(alloc, s.tracks.len() as u32)?;
    let mut tracks = Vec::new(alloc);
    for t in 0..s.tracks.len() {
        let samples = s.block * u32::from(routes[t].channels);
        let (send, take, ends) = track_rings(alloc, s.depth, samples)?;
        sends.push(send);
        takes.push(take);
        tracks.push(ends)?;
    }
    let (acks, told) = ack_ring(alloc)?;
    let ends = ButlerEnds {
        sends,
        takes,
        acks: told,
    };
    Ok(Rings { ends, tracks, acks })
}
