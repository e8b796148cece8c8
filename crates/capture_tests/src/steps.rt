//! Steps of a run: what is done to a butler over real rings, with what it has to answer.
use crate::fixture::ButlerFixture;
use crate::track_ends::Taken;
use butler::{ButlerFault, Turn};
use piece_item::Kind;
use ses_io::{Media, NoMemory};
use std::alloc::Global;

/// A step, with what it has to answer. Tracks, generations, blocks and indexes count from 0, takes from 1.
pub(crate) enum Step {
    /// A turn of at most so many items.
    Turn(u32, Turn),
    /// A turn meets this fault.
    Fault(ButlerFault),
    /// The next item of a track is its piece of a generation with that number, of these samples.
    Piece(u32, u32, u32, &'static [i32]),
    /// The next item of a track is the mark of an edition, of a generation, from a block on.
    Mark(u32, u32, u32, u32),
    /// So many items of a track are taken.
    Pass(u32, u32),
    /// A track has no item.
    Nothing(u32),
    /// No further item of a track ever comes.
    Closed(u32),
    /// A block of a track is recorded, by its take and its index.
    Block(u32, (u32, u32), &'static [i32]),
    /// The same, and no box is free for it.
    Full(u32, (u32, u32), &'static [i32]),
    /// Nothing more of a track is recorded.
    Close(u32),
    /// Nothing more is acknowledged.
    CloseAcks,
    /// Whether the butler is over.
    Over(bool),
}

// Whether a track has so many items, which are taken.
fn passes<M: Media>(
    fixture: &mut ButlerFixture<M>,
    alloc: Global,
    track: u32,
    many: u32,
) -> Result<bool, NoMemory> {
    for item in 0..many {
        if !matches!(fixture.take(alloc, track, &[])?, Taken::Item(..)) {
            return Ok(false);
        }
    }
    Ok(true)
}

// Whether the next item of a track is of this kind, with these samples where there are some.
fn gets<M: Media>(
    fixture: &mut ButlerFixture<M>,
    alloc: Global,
    track: u32,
    kind: Kind,
    samples: &[i32],
) -> Result<bool, NoMemory> {
    match fixture.take(alloc, track, samples)? {
        Taken::Item(found, same) => Ok(found == kind && (same || samples.is_empty())),
        Taken::Nothing | Taken::Closed => Ok(false),
    }
}

// Whether a turn answers this.
fn turns<M: Media>(
    fixture: &mut ButlerFixture<M>,
    most: u32,
    answer: Result<Turn, ButlerFault>,
) -> bool {
    most > 0 && fixture.turn(most) == answer
}

// Whether what is taken is as a step says.
fn finds<M: Media>(
    fixture: &mut ButlerFixture<M>,
    alloc: Global,
    step: &Step,
) -> Result<bool, NoMemory> {
    match *step {
        Step::Piece(track, generation, seq, samples) => {
            let touched = 0;
            let kind = Kind::Piece {
                track,
                generation,
                seq,
                touched,
            };
            gets(fixture, alloc, track, kind, samples)
        }
        Step::Mark(track, edition, generation, from) => {
            let kind = Kind::Settled {
                edition,
                generation,
                from,
            };
            gets(fixture, alloc, track, kind, &[])
        }
        Step::Pass(track, many) => passes(fixture, alloc, track, many),
        Step::Nothing(track) => Ok(fixture.take(alloc, track, &[])? == Taken::Nothing),
        Step::Closed(track) => Ok(fixture.take(alloc, track, &[])? == Taken::Closed),
        _ => Ok(false),
    }
}

// Whether what is recorded is answered as a step says.
fn records<M: Media>(
    fixture: &mut ButlerFixture<M>,
    alloc: Global,
    step: &Step,
) -> Result<bool, NoMemory> {
    match *step {
        Step::Block(track, place, samples) => fixture.put(alloc, track, place, samples),
        Step::Full(track, place, samples) => Ok(!fixture.put(alloc, track, place, samples)?),
        Step::Close(track) => {
            fixture.close(track);
            Ok(true)
        }
        Step::CloseAcks => {
            fixture.close_acks();
            Ok(true)
        }
        _ => finds(fixture, alloc, step),
    }
}

// Whether a step is answered as it says.
fn does<M: Media>(
    fixture: &mut ButlerFixture<M>,
    alloc: Global,
    step: &Step,
) -> Result<bool, NoMemory> {
    match *step {
        Step::Turn(most, turn) => Ok(turns(fixture, most, Ok(turn))),
        Step::Fault(fault) => Ok(turns(fixture, 100, Err(fault))),
        Step::Over(over) => Ok(fixture.over() == over),
        _ => records(fixture, alloc, step),
    }
}

/// How many steps are answered as they say, up to the first that isn't.
pub(crate) fn done<M: Media>(
    fixture: &mut ButlerFixture<M>,
    alloc: Global,
    steps: &[Step],
) -> Result<usize, NoMemory> {
    for (at, step) in steps.iter().enumerate() {
        if !does(fixture, alloc, step)? {
            return Ok(at);
        }
    }
    Ok(steps.len())
}
