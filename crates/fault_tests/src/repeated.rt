//! A run that records is refused where the take stands that an earlier one has left.
use crate::rows::TAKES_EXIST;
use run_rows::{Left, NOTHING, ONE_TAKE, left_by, ran, ran_in, world_of};
use std::alloc::Global;
use std::sync::Wait;
use std::thread::Threads;

const TAKE: &str = "take-t-1.wav";

// What the first run leaves and the second one; None where they aren't run.
fn left_by_both<R>(rt: &R, alloc: Global) -> Option<(Left, Left)>
where
    R: Threads + Wait + Sync,
{
    let first = ran(rt, alloc, &ONE_TAKE, &NOTHING)?;
    let left = left_by(alloc, &ONE_TAKE, &first);
    let take = first.world.media.get(TAKE)?.to_vec(alloc).ok()?;
    let mut world = world_of(alloc, &ONE_TAKE, &NOTHING).ok()?;
    world.media.put(TAKE, take).ok()?;
    let second = ran_in(rt, alloc, &ONE_TAKE, world)?;
    Some((left, left_by(alloc, &TAKES_EXIST, &second)))
}

#[test]
fn no_take_is_written_over(rt: HostRuntime) {
    let left = left_by_both(&rt, rt.alloc());
    assert_eq!(rt; left, Some((Left::AsSaid, Left::AsSaid)));
}
