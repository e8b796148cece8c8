//! A run by letters of a seed is verified, as it was left.
use run_rows::{Ended, Memory, NOTHING, Row, SERIAL, ran_by, world_of};
use ses_io::NoMemory;
use std::alloc::Global;
use std::sync::Wait;
use std::thread::Threads;

const ROLLED: Row = Row {
    control: "roll\nwait 1\nrgain t 1 32768\nlocate 4\n",
    ..SERIAL
};

// What a run by the seed leaves.
fn left_by<R>(rt: &R, alloc: Global, seed: &str) -> Option<Ended>
where
    R: Threads + Wait + Sync,
{
    let world = world_of(alloc, &ROLLED, &NOTHING).ok()?;
    let words = ["play", "s.toml", "6", "--seed", seed];
    Some(ran_by(rt, alloc, &words, world))
}

// The world in which that is to be verified.
fn world_behind(alloc: Global, left: &Ended) -> Result<Memory, NoMemory> {
    let mut world = world_of(alloc, &ROLLED, &NOTHING)?;
    let report = left.world.out.bytes().to_vec(alloc)?;
    let master = left.world.master.bytes().to_vec(alloc)?;
    world.media.put("r.txt", report)?;
    world.media.put("m.wav", master)?;
    Ok(world)
}

fn verified<R>(rt: &R, alloc: Global, left: &Ended) -> Option<Ended>
where
    R: Threads + Wait + Sync,
{
    let world = world_behind(alloc, left).ok()?;
    Some(ran_by(rt, alloc, &["verify", "s.toml", "r.txt", "m.wav"], world))
}

// Whether the run is done, and verified with all its entries.
fn stands<R>(rt: &R, alloc: Global, seed: &str) -> bool
where
    R: Threads + Wait + Sync,
{
    match left_by(rt, alloc, seed) {
        Some(left) => match verified(rt, alloc, &left) {
            Some(ended) => ended.world.out.bytes() == b"verified 6\n".as_slice(),
            None => false,
        },
        None => false,
    }
}

#[test]
fn a_run_by_a_seed_is_verified(rt: HostRuntime) {
    for seed in ["0", "7", "12345", "18446744073709551615"] {
        assert!(rt; stands(&rt, rt.alloc(), seed), "seed {seed}");
    }
}
