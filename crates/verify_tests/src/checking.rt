//! A finished run is damaged and verified.
use crate::finished::{Check, Damage, Finished, Sound};
use run_rows::{Ended, Memory, NOTHING, Row, SERIAL, ran_by, wav, world_of};
use ses_io::NoMemory;
use std::alloc::Global;
use std::sync::Wait;
use std::thread::Threads;

// The bytes of the report, of which a line may say something else.
fn report_of(alloc: Global, report: &str, damage: Damage) -> Result<Vec<u8>, NoMemory> {
    let mut bytes = Vec::new(alloc);
    let mut number = 0_usize;
    for line in report.lines() {
        number = number.saturating_add(1);
        match damage {
            Damage::Line(changed, text) if changed == number => {
                bytes.extend_from_slice(text.as_bytes())?;
            }
            _ => bytes.extend_from_slice(line.as_bytes())?,
        }
        bytes.push(b'\n')?;
    }
    if let Damage::CutReport(stands) = damage {
        bytes.truncate(stands);
    }
    Ok(bytes)
}

// The bytes of the master.
fn master_of(alloc: Global, sound: Sound, damage: Damage) -> Result<Vec<u8>, NoMemory> {
    let mut bytes = match sound {
        Sound::Samples(samples) => wav(alloc, samples)?,
        Sound::Bytes(bytes) => bytes.to_vec(alloc)?,
    };
    match damage {
        Damage::Byte(place, value) => {
            if let Some(byte) = bytes.get_mut(place) {
                *byte = value;
            }
        }
        Damage::Cut(stands) => bytes.truncate(stands),
        Damage::More(more) => bytes.extend_from_slice(more)?,
        _ => {}
    }
    Ok(bytes)
}

fn row_of(run: &Finished) -> Row {
    Row {
        session: run.session,
        ..SERIAL
    }
}

// The world of a damaged run.
fn damaged(alloc: Global, check: &Check) -> Result<Memory, NoMemory> {
    let run = &check.run;
    let mut fails = NOTHING;
    if let Damage::Reads(name, from) = check.damage {
        fails.reads = Some((name, from));
    }
    let report = report_of(alloc, run.report, check.damage)?;
    let master = master_of(alloc, run.master, check.damage)?;
    let mut world = world_of(alloc, &row_of(run), &fails)?;
    if !matches!(check.damage, Damage::NoReport) {
        world.media.put("r.txt", report)?;
    }
    if !matches!(check.damage, Damage::NoMaster) {
        world.media.put("m.wav", master)?;
    }
    Ok(world)
}

// The words, of which one may name a file that isn't there.
fn words_of(damage: Damage) -> [&'static str; 4] {
    let session = match damage {
        Damage::NoSession => "n.toml",
        _ => "s.toml",
    };
    ["verify", session, "r.txt", "m.wav"]
}

// How a verify of it ends; None where there is no memory for it.
fn verified<R>(rt: &R, alloc: Global, check: &Check) -> Option<Ended>
where
    R: Threads + Wait + Sync,
{
    let world = damaged(alloc, check).ok()?;
    Some(ran_by(rt, alloc, &words_of(check.damage), world))
}

/// Whether it ends as it was worked out, and leaves the master of this run alone.
pub(crate) fn ends_so<R>(rt: &R, alloc: Global, check: &Check) -> bool
where
    R: Threads + Wait + Sync,
{
    match verified(rt, alloc, check) {
        Some(ended) => {
            ended.status.number() == check.status
                && ended.world.out.bytes() == check.out.as_bytes()
                && ended.world.master.bytes().is_empty()
        }
        None => false,
    }
}
