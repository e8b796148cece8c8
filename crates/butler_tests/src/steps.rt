//! Steps of a run: what is done to a butler over real rings, with what it has to answer.
use crate::fixture::ButlerFixture;
use crate::track_ends::Taken;
use butler::{ButlerFault, Turn};
use piece_item::Kind;
use ses_io::{Media, NoMemory};
use std::alloc::Global;

/// A step, with what it has to answer. Tracks, generations, blocks and indexes count from 0, takes from 1.
pub(crate) enum Step {
    /// The edit of a control line is taken in.
    Edit(&'static str),
    /// The process comes to that block of a generation.
    Next(u32, u32),
    /// A turn of at most so many items.
    Turn(u32, Turn),
    /// A turn meets this fault.
    Fault(ButlerFault),
    /// So many turns, each of which does nothing.
    Idle(u32),
    /// So many turns, after every other of which items are taken: how many items they sent, and how many sent nothing.
    Turns(u32, u64, u32),
    /// The next item of a track is its piece of a generation with that number, of these samples; no edit changed it.
    Piece(u32, u32, u32, &'static [i32]),
    /// The same, made by the playlist of this edition.
    Revised(u32, u32, u32, u32, &'static [i32]),
    /// The next item of a track is the mark of an edition, of a generation, from a block on.
    Mark(u32, u32, u32, u32),
    /// So many items of a track are taken.
    Pass(u32, u32),
    /// A track has no item.
    Nothing(u32),
    /// No further item of a track ever comes.
    Closed(u32),
}

// Takes one item of each track, and tells how far the first one came.
fn play<M: Media>(fixture: &mut ButlerFixture<M>, alloc: Global) -> Result<(), NoMemory> {
    for track in 0..fixture.tracks() {
        let taken = fixture.take(alloc, track, &[])?;
        if let Taken::Item(Kind::Piece { track: 0, seq, .. }, _) = taken {
            let _told = fixture.tell(alloc, 0, seq.saturating_add(1))?;
        }
    }
    Ok(())
}

// Whether so many turns send so many items, and so many of the turns nothing. After every other turn items are taken.
fn with_turns<M: Media>(
    fixture: &mut ButlerFixture<M>,
    alloc: Global,
    turns: u32,
    wanted: (u64, u32),
) -> Result<bool, NoMemory> {
    let (mut sent, mut idle) = (0_u64, 0_u32);
    for turn in 0..turns {
        match fixture.turn(100) {
            Ok(Turn::Moved(items)) => sent = sent.saturating_add(u64::from(items)),
            Ok(Turn::Idle) => idle = idle.saturating_add(1),
            Err(_) => return Ok(false),
        }
        if turn % 2 == 1 {
            play(fixture, alloc)?;
        }
    }
    Ok(sent == wanted.0 && idle == wanted.1)
}

// Whether so many turns do nothing.
fn is_idle<M: Media>(fixture: &mut ButlerFixture<M>, turns: u32) -> bool {
    for turn in 0..turns {
        if fixture.turn(100) != Ok(Turn::Idle) {
            return false;
        }
    }
    true
}

// Whether a track has so many items, which are taken.
fn passes<M: Media>(
    fixture: &mut ButlerFixture<M>,
    alloc: Global,
    track: u32,
    many: u32,
) -> Result<bool, NoMemory> {
    for item in 0..many {
        if !matches!(fixture.take(alloc, track, &[])?, Taken::Item(..)) {
            return Ok(false);
        }
    }
    Ok(true)
}

// Whether the next item of a track is of this kind, with these samples where there are some.
fn gets<M: Media>(
    fixture: &mut ButlerFixture<M>,
    alloc: Global,
    track: u32,
    kind: Kind,
    samples: &[i32],
) -> Result<bool, NoMemory> {
    match fixture.take(alloc, track, samples)? {
        Taken::Item(found, same) => Ok(found == kind && (same || samples.is_empty())),
        Taken::Nothing | Taken::Closed => Ok(false),
    }
}

// Whether a turn answers this.
fn turns<M: Media>(
    fixture: &mut ButlerFixture<M>,
    most: u32,
    answer: Result<Turn, ButlerFault>,
) -> bool {
    most > 0 && fixture.turn(most) == answer
}

// Whether what is taken is as a step says.
fn finds<M: Media>(
    fixture: &mut ButlerFixture<M>,
    alloc: Global,
    step: &Step,
) -> Result<bool, NoMemory> {
    match *step {
        Step::Piece(track, generation, seq, samples) => {
            let touched = 0;
            let kind = Kind::Piece {
                track,
                generation,
                seq,
                touched,
            };
            gets(fixture, alloc, track, kind, samples)
        }
        Step::Revised(track, generation, seq, touched, samples) => {
            let kind = Kind::Piece {
                track,
                generation,
                seq,
                touched,
            };
            gets(fixture, alloc, track, kind, samples)
        }
        Step::Mark(track, edition, generation, from) => {
            let kind = Kind::Settled {
                edition,
                generation,
                from,
            };
            gets(fixture, alloc, track, kind, &[])
        }
        Step::Pass(track, many) => passes(fixture, alloc, track, many),
        Step::Nothing(track) => Ok(fixture.take(alloc, track, &[])? == Taken::Nothing),
        Step::Closed(track) => Ok(fixture.take(alloc, track, &[])? == Taken::Closed),
        _ => Ok(false),
    }
}

// Whether a step is answered as it says.
fn does<M: Media>(
    fixture: &mut ButlerFixture<M>,
    alloc: Global,
    step: &Step,
) -> Result<bool, NoMemory> {
    match *step {
        Step::Edit(line) => Ok(fixture.edit(line)),
        Step::Next(generation, next) => fixture.tell(alloc, generation, next),
        Step::Turn(most, turn) => Ok(turns(fixture, most, Ok(turn))),
        Step::Fault(fault) => Ok(turns(fixture, 100, Err(fault))),
        Step::Idle(turns) => Ok(is_idle(fixture, turns)),
        Step::Turns(turns, sent, idle) => with_turns(fixture, alloc, turns, (sent, idle)),
        _ => finds(fixture, alloc, step),
    }
}

/// How many steps are answered as they say, up to the first that isn't.
pub(crate) fn done<M: Media>(
    fixture: &mut ButlerFixture<M>,
    alloc: Global,
    steps: &[Step],
) -> Result<usize, NoMemory> {
    for (at, step) in steps.iter().enumerate() {
        if !does(fixture, alloc, step)? {
            return Ok(at);
        }
    }
    Ok(steps.len())
}
