//! A walk along a lane, place by place: within a piece it goes on by the line's step.
ghost use Rattle.std.specs.Prelude.{◌≡◌, ◌≤◌, ◌<◌, ◌^◌};
ghost use Rattle.sound_model.specs.Lanes.{lane_value};
ghost use Rattle.ses_units.specs.Lane.{IsLane};
ghost use Rattle.ses_units.specs.Point.{points_of};
ghost use Rattle.ramp_fixed.specs.Pieces.{IsPiece, Stands};

use crate::line::Line;
use crate::piece::Piece;
use ses_units::Point;

/// A place, its piece of the lane, and how far the piece's line has gone there.
#[derive(Clone, Copy)]
pub(crate) struct Walk {
    pub(crate) place: u64,
    pub(crate) piece: Piece,
    pub(crate) line: Line,
}

impl Walk {
    // The walk at a place, looked for among all points.
    pub(crate) fn to(points: &[Point], fader: u32, place: u64) -> Walk
        requires lane { IsLane (points_of points.now) }
        requires fader { fader ≤ 262144 }
        requires near { place < 2 ^ 41 }
        ensures { Stands fader (points_of points.now) result place }
    {
        Walk::within(points, fader, Piece::around(points, fader, place), place)
    }

    // The walk at a place of a piece.
    fn within(points: &[Point], fader: u32, piece: Piece, place: u64) -> Walk
        requires piece { IsPiece fader (points_of points.now) piece }
        requires since { piece.since ≤ place }
        requires until { place < piece.until }
        requires near { place < 2 ^ 41 }
        ensures { Stands fader (points_of points.now) result place }
    {
        let lift = if piece.falls { piece.over - 1 } else { 0 };
        let line = Line::at(u64::from(piece.rise), piece.over, lift, place - piece.since);
        Walk { place, piece, line }
    }

    // The walk at the next place that is asked for.
    pub(crate) fn on(self, points: &[Point], fader: u32, place: u64) -> Walk
        requires lane { IsLane (points_of points.now) }
        requires fader { fader ≤ 262144 }
        requires stands { Stands fader (points_of points.now) self self.place }
        requires here { self.place < 2 ^ 41 }
        requires near { place < 2 ^ 41 }
        ensures { Stands fader (points_of points.now) result place }
    {
        if place < self.piece.since || self.piece.until <= place {
            Walk::to(points, fader, place)
        } else if place == self.place + 1 {
            let line = self.line.next();
            Walk {
                place,
                line,
                ..self
            }
        } else {
            Walk::within(points, fader, self.piece, place)
        }
    }

    // The lane's gain at the place.
    pub(crate) fn gain(&self, points: &[Point], fader: u32) -> u32
        requires lane { IsLane (points_of points.now) }
        requires fader { fader ≤ 262144 }
        requires stands { Stands fader (points_of points.now) self.now self.now.place }
        ensures value { result ≡ lane_value fader (points_of points.now) self.now.place }
        ensures quiet { result ≤ 262144 }
    {
        if self.piece.falls {
            self.piece.gain - self.line.value as u32
        } else {
            self.piece.gain + self.line.value as u32
        }
    }
}
