//! Letters of seeds, worked out beside the code: a number follows a number x as x * 6364136223846793005 + 1442695040888963407, of which 64 bits
//! stand, and its top three bits are the letter: 0 is c, 1 to 4 are b, 5 is e, 6 is g and 7 is p.
use run_letters::{Event, seeded};
use run_rows::{Ended, NOTHING, Row, SERIAL, ran_by, world_of};
use ses_io::NoMemory;
use std::alloc::Global;
use std::sync::Wait;
use std::thread::Threads;

/// Seeds, and the first 32 letters of each.
const SEEDS: &[(u64, &str)] = &[
    (0, "ccbbbbcbbbebccpbbpbbeegbbbbbcbbc"),
    (7, "bppbbbbbpebbbebcpbcppbebggcgbbbb"),
    (12_345, "cbpgbbgbgbppbgbbebbbccbbebgbbbpc"),
    (u64::MAX, "eebbpbbebebbbpbebbgbbbbgbcggbbbb"),
];

fn letter_of(event: Event) -> u8 {
    match event {
        Event::Control => b'c',
        Event::Butler => b'b',
        Event::Enter => b'e',
        Event::Gather => b'g',
        Event::Cycle => b'p',
    }
}

// The letters of two cycles.
fn letters_of(alloc: Global, seed: u64) -> Result<Vec<u8>, NoMemory> {
    let mut letters = Vec::new(alloc);
    for event in seeded(alloc, seed, 2)? {
        letters.push(letter_of(event))?;
    }
    Ok(letters)
}

#[test]
fn a_seed_makes_the_letters_that_were_worked_out(rt: HostRuntime) {
    for (seed, letters) in SEEDS {
        let made = letters_of(rt.alloc(), *seed);
        let right = made.is_ok_and(|made| made.as_slice() == letters.as_bytes());
        assert!(rt; right, "seed {seed}");
    }
}

const ROLLED: Row = Row {
    control: "roll\n",
    ..SERIAL
};

// What two cycles leave by this option.
fn rolled_by<R>(rt: &R, alloc: Global, option: &str, value: &str) -> Option<Ended>
where
    R: Threads + Wait + Sync,
{
    let world = world_of(alloc, &ROLLED, &NOTHING).ok()?;
    Some(ran_by(rt, alloc, &["play", "s.toml", "2", option, value], world))
}

// What a run leaves on out and in the master, and its status.
fn bytes_of(alloc: Global, ended: &Ended) -> Option<Vec<u8>> {
    let mut bytes = ended.world.out.bytes().to_vec(alloc).ok()?;
    bytes.extend_from_slice(ended.world.master.bytes()).ok()?;
    bytes.push(ended.status.number()).ok()?;
    Some(bytes)
}

fn left_by<R>(rt: &R, alloc: Global, option: &str, value: &str) -> Option<Vec<u8>>
where
    R: Threads + Wait + Sync,
{
    let ended = rolled_by(rt, alloc, option, value)?;
    bytes_of(alloc, &ended)
}

// Whether a run by the seed leaves the same twice, and by its letters, and is done.
fn repeats<R>(rt: &R, alloc: Global, seed: u64, letters: &str) -> Option<bool>
where
    R: Threads + Wait + Sync,
{
    let word = format!(in alloc; "{seed}").ok()?;
    let first = left_by(rt, alloc, "--seed", word.as_str())?;
    let second = left_by(rt, alloc, "--seed", word.as_str())?;
    let written = left_by(rt, alloc, "--steps", letters)?;
    Some(first == second && first == written && first.last() == Some(&0))
}

#[test]
fn a_seed_leaves_the_same_twice(rt: HostRuntime) {
    for (seed, letters) in SEEDS {
        let same = repeats(&rt, rt.alloc(), *seed, letters);
        assert_eq!(rt; same, Some(true), "seed {seed}");
    }
}
