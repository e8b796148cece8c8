//! Fade values and gains of lanes: worked rows, seams of two blocks, and a fade as long as can be.
ghost use Rattle.std.specs.Prelude.{◌≡◌, ◌+◌, ◌^◌, ◌<◌, ◌≤◌, length, All};

use ramp_fixed::{even_gain, fade_block, is_unfaded, lane_block};
use ses_units::{Gain, Lane, Mode, Point, Shape};
use std::alloc::Global;

// Whether the fade values of a region from a frame on are these, in one block or in two.
fn fades(long: u64, fade_in: u64, fade_out: u64, shape: Shape, first: u64, want: &[u32]) -> bool
    requires bound { long ≤ 2 ^ 40 }
    requires fit { fade_in + fade_out ≤ long }
    requires within { first + 8 ≤ long }
    requires eight { length want.now ≡ 8 }
{
    let mut whole = [7; 8];
    fade_block(long, fade_in, fade_out, shape, shape, first, &mut whole);
    let mut parts = [7; 8];
    fade_block(
        long,
        fade_in,
        fade_out,
        shape,
        shape,
        first,
        &mut parts[..3],
    );
    fade_block(
        long,
        fade_in,
        fade_out,
        shape,
        shape,
        first + 3,
        &mut parts[3..],
    );
    whole.as_slice() == want && parts.as_slice() == want
}

#[test]
fn fades_rise_and_fall(rt: HostRuntime) {
    let rising = [0, 16_384, 32_768, 49_152, 65_536, 65_536, 65_536, 65_536];
    assert!(rt; fades(8, 4, 0, Shape::Linear, 0, &rising));
    let slow = [0, 4_096, 16_384, 36_864, 65_536, 65_536, 65_536, 65_536];
    assert!(rt; fades(8, 4, 0, Shape::Slow, 0, &slow));
    let sevenths = [65_536, 56_173, 46_811, 37_449, 28_086, 18_724, 9_362, 0];
    assert!(rt; fades(10, 0, 7, Shape::Linear, 2, &sevenths));
    let both = [0, 21_845, 43_690, 65_536, 65_536, 43_690, 21_845, 0];
    assert!(rt; fades(8, 3, 3, Shape::Linear, 0, &both));
    let far = [0, 0, 0, 0, 1, 1, 1, 1];
    assert!(rt; fades(1 << 40, 1 << 40, 0, Shape::Linear, 16_777_212, &far));
}

#[test]
fn a_region_is_even_between_its_fades(rt: HostRuntime) {
    assert!(rt; is_unfaded(8, 2, 2, 2, 4));
    assert!(rt; !is_unfaded(8, 2, 2, 1, 4));
    assert!(rt; !is_unfaded(8, 2, 2, 3, 4));
    assert!(rt; is_unfaded(8, 2, 2, 0, 0));
}

fn gain(n: u32) -> Gain {
    Gain::new(n).unwrap_or(Gain::UNITY)
}

fn point(at: u64, n: u32) -> Point {
    Point { at, gain: gain(n) }
}

// Whether a route of these points has these gains at these places.
fn hears(alloc: Global, points: &[Point], mode: Mode, places: &[u64], want: &[u32]) -> bool
    requires near { All (λ x. x < 2 ^ 41) places.now }
    requires eight { length places.now ≡ 8 }
{
    let Ok(lane) = Lane::new(alloc, points) else {
        return false;
    };
    let mut gains = [7; 8];
    lane_block(&lane, gain(5), mode, places, &mut gains);
    gains.as_slice() == want
}

#[test]
fn a_lane_is_heard_along_its_points(rt: HostRuntime) {
    let alloc = rt.alloc();
    let falls = [point(0, 65_536), point(4, 0)];
    let turns = [point(10, 262_144), point(17, 1), point(24, 262_144)];
    let first = [0, 1, 2, 3, 4, 5, 6, 7];
    let falling = [65_536, 49_152, 32_768, 16_384, 0, 0, 0, 0];
    assert!(rt; hears(alloc, &falls, Mode::Play, &first, &falling));
    assert!(rt;
        hears(
            alloc,
            &falls,
            Mode::Manual,
            &first,
            &[5, 5, 5, 5, 5, 5, 5, 5]
        )
    );
    assert!(rt; hears(alloc, &[], Mode::Play, &first, &[5, 5, 5, 5, 5, 5, 5, 5]));
    let jumps = [3, 10, 11, 12, 17, 16, 13, 1_099_511_627_776];
    let turning = [
        262_144, 262_144, 224_695, 187_246, 1, 37_450, 149_797, 262_144,
    ];
    assert!(rt; hears(alloc, &turns, Mode::Play, &jumps, &turning));
    let across = [15, 16, 17, 18, 19, 20, 9, 10];
    let turned = [74_899, 37_450, 1, 37_450, 74_899, 112_348, 262_144, 262_144];
    assert!(rt; hears(alloc, &turns, Mode::Play, &across, &turned));
}

// Whether a route has this one gain from a first place to a last, or none.
fn is_even(
    alloc: Global,
    points: &[Point],
    mode: Mode,
    places: [u64; 2],
    want: Option<u32>,
) -> bool {
    let Ok(lane) = Lane::new(alloc, points) else {
        return false;
    };
    let told = even_gain(&lane, gain(5), mode, places[0], places[1]);
    told.map(|g| g.value()) == want
}

#[test]
fn a_route_is_even_off_its_lines(rt: HostRuntime) {
    let alloc = rt.alloc();
    let falls = [point(3, 65_536), point(4, 0)];
    assert!(rt; is_even(alloc, &falls, Mode::Play, [0, 2], Some(65_536)));
    assert!(rt; is_even(alloc, &falls, Mode::Play, [0, 3], None));
    assert!(rt; is_even(alloc, &falls, Mode::Play, [4, 9], Some(0)));
    assert!(rt; is_even(alloc, &falls, Mode::Play, [3, 3], None));
    assert!(rt; is_even(alloc, &falls, Mode::Manual, [0, 9], Some(5)));
    assert!(rt; is_even(alloc, &[], Mode::Play, [0, 9], Some(5)));
    let rests = [point(10, 9), point(20, 7), point(30, 7), point(40, 8)];
    assert!(rt; is_even(alloc, &rests, Mode::Play, [20, 29], Some(7)));
    assert!(rt; is_even(alloc, &rests, Mode::Play, [25, 25], Some(7)));
    assert!(rt; is_even(alloc, &rests, Mode::Play, [19, 29], None));
    assert!(rt; is_even(alloc, &rests, Mode::Play, [20, 30], None));
    assert!(rt; is_even(alloc, &rests, Mode::Play, [40, u64::MAX], Some(8)));
}
