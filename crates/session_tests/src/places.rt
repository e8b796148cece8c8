//! Places by hand: round a loop, and from a target past it.
use crate::row::row_holds;
use locate_loop::{Transport, Wrap, places};

// Whether a loop goes round from its start.
fn goes_round() -> bool {
    let looped = Transport {
        generation: 1,
        target: 2,
        wrap: Some(Wrap { from: 2, to: 5 }),
        ..Transport::at_rest()
    };
    let mut out = [0; 8];
    places(&looped, 0, &mut out);
    let first = out == [2, 3, 4, 2, 3, 4, 2, 3];
    places(&looped, 5, &mut out);
    let sixth = out == [4, 2, 3, 4, 2, 3, 4, 2];
    first && sixth && looped.place(3_000_001) == 3
}

// Whether a target past the loop plays on.
fn plays_on() -> bool {
    let past = Transport {
        generation: 2,
        target: 6,
        wrap: Some(Wrap { from: 2, to: 5 }),
        ..Transport::at_rest()
    };
    let mut out = [0; 8];
    places(&past, 0, &mut out);
    out == [6, 7, 8, 9, 10, 11, 12, 13]
}

#[test]
fn a_loop_goes_round_and_a_target_past_it_plays_on(rt: HostRuntime) {
    row_holds(&rt, 0, goes_round());
    row_holds(&rt, 1, plays_on());
}
