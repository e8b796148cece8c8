//! Two ends on two threads: what is sent comes in order, whatever the schedule.
ghost use Rattle.std.specs.Prelude.{◌≡◌, true, false};

use super::{boxed, new_ring};
use disk_ring::{Full, Nothing, Ring, RingIn, RingOut, rejoin};
use piece_item::Ack;
use ses_io::NoMemory;
use std::alloc::Global;
use std::sync::Wait;
use std::thread;
use std::thread::Threads;

// Puts the numbers below `count` in order, each as soon as a box is free, and closes the ring.
fn put_all<R: Wait>(rt: &R, to: RingIn<Ack>, first: Box<Ack>, count: u32) -> RingIn<Ack>
    requires open { to.closed ≡ false }
    requires room { to.room ≡ 0 }
    ensures { result.ring ≡ to.ring }
{
    let mut to = to;
    let mut full = first;
    let mut next = 0;
    for _ in rt.forever() {
        if next >= count {
            break;
        }
        full.cycle = next;
        match to.put(full) {
            Ok(husk) => {
                full = husk;
                next += 1;
            }
            Err(Full { item, head: _ }) => {
                full = item;
                thread::yield_now();
            }
        }
    }
    to.close();
    to
}

// Takes until Closed, and tells how many items had their place's number.
fn take_all<R: Wait>(rt: &R, from: RingOut<Ack>, first: Box<Ack>) -> (RingOut<Ack>, u32)
    requires room { from.room ≡ 0 }
    ensures ring { result.0.ring ≡ from.ring }
    ensures ended { result.0.ended ≡ true }
{
    let mut from = from;
    let mut husk = first;
    let mut in_order = 0u32;
    for _ in rt.forever() {
        match from.take(husk) {
            Ok(item) => {
                if item.cycle == in_order {
                    in_order = in_order.saturating_add(1);
                }
                husk = item;
            }
            Err(
                Nothing::Empty {
                    husk: back,
                    tail: _,
                },
            ) => {
                husk = back;
                thread::yield_now();
            }
            Err(Nothing::Closed { .. }) => return (from, in_order),
        }
    }
    unreachable!()
}

// The ring after the producer closed it while the consumer looked, and how many items came in order.
fn relay<R: Threads + Wait + Sync>(
    rt: &R,
    to: RingIn<Ack>,
    from: RingOut<Ack>,
    full: Box<Ack>,
    husk: Box<Ack>,
    count: u32,
) -> (Ring<Ack>, u32)
    requires open { to.closed ≡ false }
    requires room { (to.room ≡ 0) × (from.room ≡ 0) }
    requires ring { from.ring ≡ to.ring }
    ensures { result.0.received ≡ result.0.sent }
{
    let (to, (from, in_order)) = thread::join(
        rt,
        move || -> RingIn<Ack>
            requires { (to.closed ≡ false) × (to.room ≡ 0) }
            ensures { result.ring ≡ to.ring }
        { put_all(rt, to, full, count) },
        move || -> (RingOut<Ack>, u32)
            requires { from.room ≡ 0 }
            ensures { (result.0.ring ≡ from.ring) × (result.0.ended ≡ true) }
        { take_all(rt, from, husk) },
    );
    (rejoin(to, from), in_order)
}

// How many of so many items came in order over four boxes, until the ring was closed.
fn many_in_order<R: Threads + Wait + Sync>(
    rt: &R,
    alloc: Global,
    count: u32,
) -> Result<u32, NoMemory> {
    let full = boxed(alloc, 0)?;
    let husk = boxed(alloc, 0)?;
    let (to, from) = new_ring(alloc, 4)?;
    let (ring, in_order) = relay(rt, to, from, full, husk, count);
    ring.facts();
    Ok(in_order)
}

const COUNTS: [u32; 5] = [0, 1, 100, 3_000, 10_000];

#[test]
fn all_items_come_in_order_before_the_end(rt: HostRuntime) {
    for count in &COUNTS {
        assert!(rt; many_in_order(&rt, rt.alloc(), *count) == Ok(*count));
    }
}
