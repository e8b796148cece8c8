//! A piece of a lane: the part of the timeline on which it is one line.
ghost use Rattle.std.specs.Prelude.{◌≡◌, ℕ, ◌^◌, ◌<◌, ◌≤◌, List, length};
ghost use Rattle.std.specs.List.{AllWithin};
ghost use Rattle.sound_model.specs.Lanes as sound;
ghost use Rattle.ses_units.specs.Lane.{IsLane};
ghost use Rattle.ses_units.specs.Point.{point_of, points_of};
ghost use Rattle.ramp_fixed.specs.Pieces.{IsFlat, IsLineOf, IsPiece};

use ses_units::Point;

/// The places from `since` up to `until`, where a lane goes from `gain` on, up or down by `rise`
/// over `over` frames. A flat piece has no rise.
#[derive(Clone, Copy)]
pub(crate) struct Piece {
    pub(crate) since: u64,
    pub(crate) until: u64,
    pub(crate) gain: u32,
    pub(crate) falls: bool,
    pub(crate) rise: u32,
    pub(crate) over: u64,
}

// How many points stand at a place or before it.
pub(crate) fn count_through(points: &[Point], place: u64) -> usize
    requires lane { IsLane (points_of points.now) }
    requires near { place < 2 ^ 41 }
    ensures bound { result ≤ length points.now }
    ensures through { AllWithin (λ p. p.at ≤ place) points.now 0 result }
    ensures after { AllWithin (λ p. place < p.at) points.now result (length points.now) }
{
    let after = place + 1;
    points.partition_point(|p| p.at < after)
}

impl Piece {
    // The places on which a lane stays at one gain.
    fn flat(since: u64, until: u64, gain: u32) -> Piece
        ensures piece { (fader : ℕ) (lane : List sound.Point)
            → IsFlat fader lane since until gain → IsPiece fader lane result }
        ensures since { result.since ≡ since }
        ensures until { result.until ≡ until }
    {
        Piece {
            since,
            until,
            gain,
            falls: false,
            rise: 0,
            over: 1,
        }
    }

    // The places from a point up to its neighbour.
    fn along(p: &Point, q: &Point) -> Piece
        requires rises { p.now.at < q.now.at }
        requires near { q.now.at ≤ 2 ^ 40 }
        ensures piece { (fader : ℕ) (lane : List sound.Point)
            → IsLineOf fader lane (point_of p.now) (point_of q.now) → IsPiece fader lane result }
        ensures since { result.since ≡ p.now.at }
        ensures until { result.until ≡ q.now.at }
    {
        let from = p.gain.value();
        let to = q.gain.value();
        let falls = to < from;
        let rise = if falls { from - to } else { to - from };
        Piece {
            since: p.at,
            until: q.at,
            gain: from,
            falls,
            rise,
            over: q.at - p.at,
        }
    }

    // The piece of a lane that a place lies in.
    pub(crate) fn around(points: &[Point], fader: u32, place: u64) -> Piece
        requires lane { IsLane (points_of points.now) }
        requires near { place < 2 ^ 41 }
        ensures piece { IsPiece fader (points_of points.now) result }
        ensures since { result.since ≤ place }
        ensures until { place < result.until }
    {
        if points.is_empty() {
            return Piece::flat(0, u64::MAX, fader);
        }
        let next = count_through(points, place);
        if next == 0 {
            let first = points[0];
            Piece::flat(0, first.at, first.gain.value())
        } else if next == points.len() {
            let last = points[next - 1];
            Piece::flat(last.at, u64::MAX, last.gain.value())
        } else {
            let p = points[next - 1];
            let q = points[next];
            Piece::along(&p, &q)
        }
    }
}
