//! Whether the take files of a run hold what its journal names, of the samples of its input.
use crate::case::Case;
use crate::leaving::InMemory;
use cycle_journal::{Entry, Note, Take};
use ses_io::NoMemory;
use session_model::Session;
use std::alloc::Global;

// The header of a canonical file.
const HEADER: usize = 44;

// The samples of the block of the input that an entry was given.
fn hear(case: &Case, frames: u32, place: usize, samples: &mut Vec<u16>) -> Result<(), NoMemory> {
    let from = place.saturating_mul(frames as usize);
    for frame in from..from.saturating_add(frames as usize) {
        samples.push(case.heard.as_slice().get(frame).copied().unwrap_or(0))?;
    }
    Ok(())
}

// As many zeros.
fn lose(frames: u32, samples: &mut Vec<u16>) -> Result<(), NoMemory> {
    for _ in 0..frames {
        samples.push(0)?;
    }
    Ok(())
}

// What an entry notes of a track.
fn noted(entry: &Entry, track: usize) -> Take {
    match entry.notes.as_slice().get(track) {
        Some(Note { take, .. }) => *take,
        None => Take::Off,
    }
}

// The samples of a take of a track, by its number.
fn samples_of(
    alloc: Global,
    case: &Case,
    frames: u32,
    entries: &[Entry],
    track: usize,
    number: u32,
) -> Result<Vec<u16>, NoMemory> {
    let mut samples = Vec::new(alloc);
    for (place, entry) in entries.iter().enumerate() {
        match noted(entry, track) {
            Take::Taken { take, .. } if take == number => hear(case, frames, place, &mut samples)?,
            Take::Lost { take, .. } if take == number => lose(frames, &mut samples)?,
            Take::Off | Take::Taken { .. } | Take::Lost { .. } => (),
        }
    }
    Ok(samples)
}

// Whether the sound of a file is a front of that of another.
fn is_front(file: &[u8], whole: &[u8]) -> bool {
    match (file.get(HEADER..), whole.get(HEADER..)) {
        (Some(sound), Some(all)) => all.starts_with(sound),
        (None, _) => true,
        (Some(_), None) => false,
    }
}

// Whether a file is a take of these samples; once a write has failed, a front of it.
fn is_take(alloc: Global, samples: &[u16], file: &[u8], failed: bool) -> Result<bool, NoMemory> {
    let whole = run_rows::wav(alloc, samples)?;
    Ok(file == whole.as_slice() || failed && is_front(file, whole.as_slice()))
}

// Whether the takes of a track are as they have to be, each after the other.
fn are_of_track(
    alloc: Global,
    case: &Case,
    session: &Session,
    left: &InMemory,
    track: usize,
) -> Result<bool, NoMemory> {
    let Some(route) = session.routes.as_slice().get(track) else {
        return Ok(false);
    };
    let entries = left.journal.entries();
    for number in 1..=case.cycles.saturating_add(1) {
        let samples = samples_of(alloc, case, session.block, entries, track, number)?;
        let name = format!(in alloc; "take-{}-{number}.wav", route.name.as_str())?;
        match left.world.media.get(name.as_str()) {
            None if samples.is_empty() => return Ok(true),
            None if !left.faults.write => return Ok(false),
            None => (),
            Some(file) => {
                if samples.is_empty()
                    || !is_take(alloc, samples.as_slice(), file, left.faults.write)?
                {
                    return Ok(false);
                }
            }
        }
    }
    Ok(true)
}

/// The first track, from 0, of which a take isn't as it has to be.
pub(crate) fn other_take(
    alloc: Global,
    case: &Case,
    session: &Session,
    left: &InMemory,
) -> Result<Option<usize>, NoMemory> {
    for track in 0..session.tracks.as_slice().len() {
        if !are_of_track(alloc, case, session, left, track)? {
            return Ok(Some(track));
        }
    }
    Ok(None)
}
