//! The rings of a run are joined again.
ghost use Rattle.std.specs.Prelude.{◌≡◌, ◌<◌, ◌∷◌, [], ◌≤◌, length};
ghost use Rattle.std.specs.Vec.Iter.{into_iter_items};
ghost use Rattle.disk_ring.specs.Rings.{Whole, joined_of};
ghost use Rattle.run_rings.specs.Rings.{joined_ends, joined_tracks, AllWhole};
ghost use Rattle.process_ends.specs.Ends.{AreOfOneRing, AreOtherEnds};

use disk_ring::{Ring, RingInList, RingOut, RingOutList, rejoin};
use piece_item::{Ack, ButlerEnds, Item, TakeBlock};
use process_ends::ProcessEnds;
use ses_io::FixedList;
use std::alloc::Global;
use std::vec::IntoIter;

/// The two rings of a track.
#[derive(Drop)]
pub struct TrackRings {
    /// Through which its items went.
    pub plays: Ring<Item>,
    /// Through which the blocks of its takes went.
    pub takes: Ring<TakeBlock>,
}

/// The rings of the tracks, in the order of tracks.
pub type RingsList = FixedList<TrackRings>;

/// The rings that a run leaves.
#[derive(Drop)]
pub struct JoinedRings {
    pub tracks: RingsList,
    /// The ring of acknowledgements to control.
    pub acks: Ring<Ack>,
}

/// The ends of the rings of all tracks.
#[derive(Drop)]
pub(crate) struct TrackEnds {
    pub(crate) sends: RingInList<Item>,
    pub(crate) plays: RingOutList<Item>,
    pub(crate) captures: RingInList<TakeBlock>,
    pub(crate) flushes: RingOutList<TakeBlock>,
}

// The next of some ends.
fn next<T>(ends: &mut IntoIter<T, Global>) -> T
    requires { 0 < length (into_iter_items ends.old) }
    ensures { into_iter_items ends.old ≡ result ∷ into_iter_items ends.new }
{
    match ends.next() {
        Some(end) => end,
        None => unreachable!(),
    }
}

// Joins the ends of each track's rings, in the order of tracks, in an empty list that has room for
// them.
fn join_all(rings: &mut RingsList, track_ends: TrackEnds)
    requires none { rings.old.items ≡ [] }
    requires room { length track_ends.sends.items ≤ rings.old.room }
    requires items { AreOfOneRing track_ends.sends.items track_ends.plays.items }
    requires takes { AreOfOneRing track_ends.captures.items track_ends.flushes.items }
    requires tracks { length track_ends.captures.items ≡ length track_ends.sends.items }
    ensures rings { rings.new.items ≡ joined_ends track_ends }
    ensures whole { AllWhole rings.new.items }
{
    let TrackEnds {
        sends,
        plays,
        captures,
        flushes,
    } = track_ends;
    let tracks = sends.len();
    let mut sends = sends.into_vec().into_iter();
    let mut plays = plays.into_vec().into_iter();
    let mut captures = captures.into_vec().into_iter();
    let mut flushes = flushes.into_vec().into_iter();
    for joined in 0..tracks {
        let plays = rejoin(next(&mut sends), next(&mut plays));
        let takes = rejoin(next(&mut captures), next(&mut flushes));
        rings.push(TrackRings { plays, takes });
    }
}

/// Joins the ends of a run's rings, in an empty list that has room for those of all tracks. It
/// takes no memory.
pub fn join_ends(
    list: RingsList,
    process: ProcessEnds,
    butler: ButlerEnds,
    acks: RingOut<Ack>,
) -> JoinedRings
    requires none { list.items ≡ [] }
    requires room { length butler.sends.items ≤ list.room }
    requires others { AreOtherEnds process butler }
    requires tracks { length process.takes.items ≡ length butler.sends.items }
    requires control { acks.ring ≡ process.to_control.ring }
    ensures tracks { result.tracks.items ≡ joined_tracks process butler }
    ensures whole { AllWhole result.tracks.items }
    ensures acks { result.acks ≡ joined_of process.to_control acks }
    ensures acks_whole { Whole result.acks }
{
    let ButlerEnds {
        sends,
        takes: flushes,
        acks: _,
    } = butler;
    let ProcessEnds {
        plays,
        takes: captures,
        to_butler: _,
        to_control,
    } = process;
    let mut tracks = list;
    join_all(
        &mut tracks,
        TrackEnds {
            sends,
            plays,
            captures,
            flushes,
        },
    );
    JoinedRings {
        tracks,
        acks: rejoin(to_control, acks),
    }
}
