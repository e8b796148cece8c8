//! Worked values of numbers, names and lanes, and each call once where memory is ample.
ghost use Rattle.std.specs.Prelude.{◌≡◌};

use ses_units::{Bits, Gain, Lane, LaneRefusal, Mode, Name, Point, clip, file_sample, scale};
use std::alloc::Global;

/// The gain of so many 65,536ths.
pub(crate) fn gain(n: u32) -> Gain {
    Gain::new(n).unwrap_or(Gain::UNITY)
}

fn point(at: u64, n: u32) -> Point
    ensures { result.at ≡ at }
{
    Point { at, gain: gain(n) }
}

/// Whether a lane has these points, each a place and a gain.
pub(crate) fn has_points(lane: &Lane, points: &[(u64, u32)]) -> bool {
    let held = lane.points();
    for (point, (at, gain)) in held.iter().zip(points) {
        if point.at != *at || point.gain.value() != *gain {
            return false;
        }
    }
    held.len() == points.len()
}

// Whether the points are as they have to be after each of them is set or unset.
fn is_changed(lane: &mut Lane) -> bool {
    has_points(lane, &[(0, 65_536), (4, 0)])
        && lane.set(point(2, 7)).is_ok()
        && has_points(lane, &[(0, 65_536), (2, 7), (4, 0)])
        && lane.set(point(4, 65_536)).is_ok()
        && has_points(lane, &[(0, 65_536), (2, 7), (4, 65_536)])
        && lane.unset(0).is_ok()
        && has_points(lane, &[(2, 7), (4, 65_536)])
        && lane.unset(0).is_err()
}

fn new_lane_is_changed(alloc: Global) -> bool {
    match Lane::new(alloc, &[point(0, 65_536), point(4, 0)]) {
        Ok(mut lane) => is_changed(&mut lane),
        Err(_) => false,
    }
}

// Whether the points make no lane, for this reason.
fn is_refused(alloc: Global, points: &[Point], refusal: LaneRefusal) -> bool {
    match Lane::new(alloc, points) {
        Ok(_) => false,
        Err(told) => told == refusal,
    }
}

#[test]
fn a_lane_gives_its_points_or_the_first_broken_rule(rt: HostRuntime) {
    let alloc = rt.alloc();
    assert!(rt; new_lane_is_changed(alloc));
    let many = [point(3, 65_536); 1025];
    assert!(rt; is_refused(alloc, &many, LaneRefusal::TooMany(1025)));
    let far = [point(4, 65_536), point(3, 65_536), point(1 << 40, 65_536)];
    assert!(rt; is_refused(alloc, &far, LaneRefusal::Far(2)));
    let level = [point(3, 65_536), point(4, 65_536), point(4, 65_536)];
    assert!(rt; is_refused(alloc, &level, LaneRefusal::NotRising(2)));
}

// Whether an error is told in these words.
fn is_told(alloc: Global, refusal: LaneRefusal, words: &str) -> bool {
    match format!(in alloc; "{refusal}") {
        Ok(text) => text.as_str() == words,
        Err(_) => false,
    }
}

/// Texts, and whether they are names.
const NAMES: [(&str, bool); 7] = [
    ("drum_2", true),
    ("", false),
    ("2nd", false),
    ("_a", false),
    ("drumS", false),
    ("drum-2", false),
    ("abcdefghijklmnopqrstuvwxy", false),
];

// Whether a text makes a name that is the text, and the same each time.
fn is_name(text: &str) -> bool {
    match (Name::new(text), Name::new(text)) {
        (Ok(name), Ok(again)) => name.as_str() == text && name == again,
        _ => false,
    }
}

#[test]
fn names_and_errors_are_texts(rt: HostRuntime) {
    for (text, named) in &NAMES {
        assert!(rt; is_name(text) == *named);
    }
    assert!(rt;
        is_told(
            rt.alloc(),
            LaneRefusal::TooMany(1025),
            "1025 points, at most 1024"
        )
    );
}

// A sample of -1 at half gain stays -1. Two tracks of a constant 30,000 pass together what 16 bits hold.
#[test]
fn a_sample_is_rounded_down_and_bounded(rt: HostRuntime) {
    let half = gain(32_768);
    assert!(rt; half.value() == 32_768);
    assert!(rt; file_sample(clip(scale(-256, half)), Bits::B16) == -1);
    assert!(rt; file_sample(clip(2 * 30_000 * 256), Bits::B16) == 32_767);
    assert!(rt; file_sample(i32::MIN, Bits::B24) == -8_388_608);
    assert!(rt; clip(i64::MAX) == i32::MAX);
    assert!(rt; Mode::Manual != Mode::Play);
}
