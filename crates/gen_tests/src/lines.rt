//! The lines of some numbers.
use session_gen::gen_line;
use std::alloc::Global;

// The greatest number.
const MOST: u32 = 8_191;

// Numbers and their lines.
const ROWS: [(u32, &str); 3] = [
    (0, "gen 0 tracks 1 regions 1 cycles 256 sum 260096\n"),
    (1, "gen 1 tracks 2 regions 1 cycles 256 sum 389120\n"),
    (32, "gen 32 tracks 1 regions 2 cycles 256 sum 519488\n"),
];

// The line of the greatest one. Its sum was worked out apart, by a script that adds up the samples by the rules of regions and faders.
const LAST: &str = "gen 8191 tracks 32 regions 256 cycles 256 sum 24593792\n";

// Whether a number gives this line.
fn gives(alloc: Global, n: u32, line: &str) -> bool {
    gen_line(alloc, n.min(MOST)).is_ok_and(|text| text.as_str() == line)
}

#[test]
fn each_number_gives_its_line(rt: HostRuntime) {
    for (at, (n, line)) in ROWS.iter().enumerate() {
        let right = gives(rt.alloc(), *n, line);
        assert!(rt; right, "row {at}");
    }
}

#[test]
fn the_greatest_session_is_exported(rt: HostRuntime) {
    assert!(rt; gives(rt.alloc(), MOST, LAST));
}
