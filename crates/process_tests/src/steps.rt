//! Steps of a run: what is done to a process over real rings, with what it has to answer.
use crate::bench::ProcessBench;
use crate::other_ends::OtherEnds;
use cycle_journal::{Entry, Note, Play, State, Take};
use piece_item::{Ack, Kind};
use process_cycle::{CycleFault, Look};
use ses_io::{NoMemory, Sink, Source};
use std::alloc::Global;

/// What a call answers that may fail; None where it isn't allowed.
pub(crate) type Answer = Option<Result<(), CycleFault>>;

/// A step, with what it has to answer; None stands for a call that isn't allowed. Editions count edits, takes and
/// acknowledged entries count from 1, generations, blocks and indices from 0.
pub(crate) enum Step {
    /// The header is written.
    Begin(Answer),
    /// The edit of a control line is taken in.
    Edit(&'static str),
    /// The mark of an edition, of a generation, from a block on, is put.
    Mark(u32, u32, u32),
    /// A piece of a generation with that number, made by the playlist of an edition, of these samples is put.
    Piece(u32, u32, u32, &'static [i32]),
    /// No box is free for it.
    Full(u32, u32, u32, &'static [i32]),
    /// A look in the newest edition.
    Look(Option<Look>),
    /// A cycle.
    Cycle(Answer),
    /// The last entry: which one it is, its edition and its settled number, its state, what was heard and what was taken.
    Entry(usize, (u32, u32), State, Play, Take),
    /// So many entries were made.
    Entries(usize),
    /// The next block of a take: its take, its index, its samples.
    Block(u32, u32, &'static [i32]),
    /// No block is there.
    NoBlock,
    /// The next acknowledgement, to butler and to control alike: its entry, the generation, its next block, what is settled.
    Ack(u32, u32, u32, u32),
    /// Neither has one.
    NoAck,
    /// The end of the master is written.
    Silence(Answer),
}

// Whether the header is answered so,
fn begins<I: Source, W: Sink>(bench: &mut ProcessBench<I, W>, answer: Answer) -> bool {
    bench.begin() == answer
}

// a look,
fn looks<I: Source, W: Sink>(bench: &mut ProcessBench<I, W>, answer: Option<Look>) -> bool {
    bench.look() == answer
}

// a cycle,
fn cycles<I: Source, W: Sink>(bench: &mut ProcessBench<I, W>, answer: Answer) -> bool {
    bench.cycle() == answer
}

// and the end of the master.
fn ends<I: Source, W: Sink>(bench: &mut ProcessBench<I, W>, answer: Answer) -> bool {
    bench.silence() == answer
}

// Whether the process answers as a step says.
fn plays<I: Source, W: Sink>(bench: &mut ProcessBench<I, W>, step: &Step) -> bool {
    match *step {
        Step::Begin(answer) => begins(bench, answer),
        Step::Look(answer) => looks(bench, answer),
        Step::Cycle(answer) => cycles(bench, answer),
        Step::Silence(answer) => ends(bench, answer),
        Step::Edit(line) => bench.edit(line),
        _ => false,
    }
}

// Whether the last entry says this, and is the only one of its number.
fn says(entries: &[Entry], number: usize, of: (u32, u32), state: State, note: Note) -> bool {
    let Some(entry) = entries.last() else {
        return false;
    };
    entries.len() == number
        && (entry.edition, entry.settled) == of
        && entry.state == state
        && entry.notes.as_slice() == [note].as_slice()
}

// Whether the entries are as a step says.
fn notes<I: Source, W: Sink>(bench: &mut ProcessBench<I, W>, step: &Step) -> bool {
    match *step {
        Step::Entry(number, of, state, play, take) => {
            says(bench.entries(), number, of, state, Note { play, take })
        }
        Step::Entries(number) => bench.entries().len() == number,
        _ => plays(bench, step),
    }
}

fn piece(generation: u32, seq: u32, touched: u32) -> Kind {
    Kind::Piece {
        track: 0,
        generation,
        seq,
        touched,
    }
}

// Whether an item that a step puts is answered as it says.
fn puts(ends: &mut OtherEnds, alloc: Global, step: &Step) -> Result<bool, NoMemory> {
    match *step {
        Step::Mark(edition, generation, from) => {
            let kind = Kind::Settled {
                edition,
                generation,
                from,
            };
            ends.put(alloc, kind, &[0, 0, 0, 0])
        }
        Step::Piece(generation, seq, touched, samples) => {
            ends.put(alloc, piece(generation, seq, touched), samples)
        }
        Step::Full(generation, seq, touched, samples) => {
            Ok(!ends.put(alloc, piece(generation, seq, touched), samples)?)
        }
        _ => Ok(false),
    }
}

// Whether the next block is this one.
fn is_block(
    ends: &mut OtherEnds,
    alloc: Global,
    place: (u32, u32),
    samples: &[i32],
) -> Result<bool, NoMemory> {
    match ends.block(alloc)? {
        Some(block) => {
            Ok((block.take, block.index) == place && block.samples.as_slice() == samples)
        }
        None => Ok(false),
    }
}

// Whether what arrives is as a step says.
fn receives(ends: &mut OtherEnds, alloc: Global, step: &Step) -> Result<bool, NoMemory> {
    match *step {
        Step::Block(take, index, samples) => is_block(ends, alloc, (take, index), samples),
        Step::NoBlock => Ok(ends.block(alloc)?.is_none()),
        Step::Ack(cycle, generation, next, settled) => {
            let ack = Some(Ack {
                cycle,
                generation,
                next,
                settled,
            });
            Ok(ends.acks(alloc)? == (ack, ack))
        }
        Step::NoAck => Ok(ends.acks(alloc)? == (None, None)),
        _ => puts(ends, alloc, step),
    }
}

// Whether a step is answered as it says.
fn does<I: Source, W: Sink>(
    bench: &mut ProcessBench<I, W>,
    ends: &mut OtherEnds,
    alloc: Global,
    step: &Step,
) -> Result<bool, NoMemory> {
    match *step {
        Step::Begin(_)
        | Step::Edit(_)
        | Step::Look(_)
        | Step::Cycle(_)
        | Step::Silence(_)
        | Step::Entry(..)
        | Step::Entries(_) => Ok(notes(bench, step)),
        _ => receives(ends, alloc, step),
    }
}

/// How many steps are answered as they say, up to the first that isn't.
pub(crate) fn done<I: Source, W: Sink>(
    bench: &mut ProcessBench<I, W>,
    ends: &mut OtherEnds,
    alloc: Global,
    steps: &[Step],
) -> Result<usize, NoMemory> {
    for (at, step) in steps.iter().enumerate() {
        if !does(bench, ends, alloc, step)? {
            return Ok(at);
        }
    }
    Ok(steps.len())
}
