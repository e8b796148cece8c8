//! The laws of lanes that a caller of the gains asks for.
ghost use Rattle.ramp_fixed.specs.LaneLaws.{LaneIsTheLine, GainsStayQuiet, LanesRise};

/// From a point up to its neighbour a lane is the line through the two.
#[tactic(auto, using(crate::proofs::LaneLaws::lane_is_the_line))]
pub fn lane_is_the_line()
    ensures { LaneIsTheLine }
{}

/// A lane is at most as loud as its points and the fader.
#[tactic(auto, using(crate::proofs::LaneLaws::gains_stay_quiet))]
pub fn gains_stay_quiet()
    ensures { GainsStayQuiet }
{}

/// Points rise where each two of them do.
#[tactic(auto, using(crate::proofs::LaneLaws::lanes_rise))]
pub fn lanes_rise()
    ensures { LanesRise }
{}
