//! Letters from a seed.
ghost use Rattle.std.specs.Prelude.{◌≡◌, ◌*◌, ◌≤◌, map, IfOk};
ghost use Rattle.run_letters.specs.Events.{letter_of};
ghost use Rattle.run_letters.specs.Letters.{letter_of_number, next_number, seed_letters};

use crate::event::Event;
use ses_io::NoMemory;
use std::alloc::Global;

/// How many letters a cycle has.
const LETTERS: u32 = 16;

// The number that follows a number.
fn next_number(x: u64) -> u64
    ensures { result ≡ next_number x }
{
    x.wrapping_mul(6_364_136_223_846_793_005)
        .wrapping_add(1_442_695_040_888_963_407)
}

// The event by the top three bits of a number.
fn event_of(x: u64) -> Event
    ensures { letter_of result ≡ letter_of_number x }
{
    match x >> 61 {
        0 => Event::Control,
        1..=4 => Event::Butler,
        5 => Event::Enter,
        6 => Event::Gather,
        _ => Event::Cycle,
    }
}

/// The events that a seed makes: 16 for each of so many cycles.
pub fn seeded(alloc: Global, seed: u64, cycles: u32) -> Result<Vec<Event>, NoMemory>
    requires { cycles ≤ 100000 }
    ensures { IfOk result (λ v. map letter_of v.items ≡ seed_letters (16 * cycles) seed) }
{
    let mut events = Vec::new(alloc);
    let mut x = seed;
    for _ in 0..LETTERS * cycles {
        x = next_number(x);
        events.push(event_of(x))?;
    }
    Ok(events)
}
