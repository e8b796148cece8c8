//! The laws of gains, fades and lanes.

ghost use Rattle.sound_laws.specs.Values.{UnityChangesNothing, ClippedStays, ReadIsWritten, FadeStaysWithin, FadeInRises, FadeOutFalls, FullBetweenFades, FadeInBeginsSilent, FadeOutEndsSilent, SlowLiesBelow, SlowMeetsLinear, SlowFadesLieBelow, LaneMeetsItsPoints, LaneStaysBetweenPoints, LaneStaysAfterItsLastPoint};

/// A gain of unity changes no sample.
#[tactic(auto, using(crate::proofs::NumberLaws::scale_unity))]
pub fn unity_changes_nothing()
    ensures { UnityChangesNothing }
{}

/// What was clipped is clipped no further.
#[tactic(auto, using(crate::proofs::NumberLaws::clip_clip))]
pub fn clipped_stays()
    ensures { ClippedStays }
{}

/// What a file of 16 or of 24 bits holds is read and written again without loss.
#[tactic(auto, using(crate::proofs::NumberLaws::read_is_written))]
pub fn read_is_written()
    ensures { ReadIsWritten }
{}

/// A fade value is at most 65,536.
#[tactic(auto, using(crate::proofs::FadeLaws::stays_within))]
pub fn fade_stays_within()
    ensures { FadeStaysWithin }
{}

/// Along a fade-in the fade value never falls.
pub fn fade_in_rises()
    ensures { FadeInRises }
{}

/// Along a fade-out the fade value never rises.
#[tactic(auto, using(crate::proofs::FadeLaws::falls_out))]
pub fn fade_out_falls()
    ensures { FadeOutFalls }
{}

/// Between its fades a region is heard in full.
#[tactic(auto, using(crate::proofs::FadeLaws::full_between))]
pub fn full_between_fades()
    ensures { FullBetweenFades }
{}

/// The first frame of a fade-in is silent.
#[tactic(auto, using(crate::proofs::FadeLaws::begins_silent))]
pub fn fade_in_begins_silent()
    ensures { FadeInBeginsSilent }
{}

/// The last frame of a fade-out is silent.
#[tactic(auto, using(crate::proofs::FadeLaws::ends_silent))]
pub fn fade_out_ends_silent()
    ensures { FadeOutEndsSilent }
{}

/// A slow fade value is at most the linear one.
#[tactic(auto, using(crate::proofs::FadeLaws::slow_lies_below))]
pub fn slow_lies_below()
    ensures { SlowLiesBelow }
{}

/// Slow and linear meet in silence and at unity.
#[tactic(auto, using(crate::proofs::FadeLaws::slow_meets_linear))]
pub fn slow_meets_linear()
    ensures { SlowMeetsLinear }
{}

/// A region whose fades become slow is nowhere louder by them.
pub fn slow_fades_lie_below()
    ensures { SlowFadesLieBelow }
{}

/// At a point of a lane the gain is that point's.
#[tactic(auto, using(crate::proofs::LaneLaws::lane_meets_its_points))]
pub fn lane_meets_its_points()
    ensures { LaneMeetsItsPoints }
{}

/// Between two points of a lane, side by side, the gain lies between theirs.
#[tactic(auto, using(crate::proofs::LaneLaws::lane_stays_between_points))]
pub fn lane_stays_between_points()
    ensures { LaneStaysBetweenPoints }
{}

/// From its last point on a lane keeps that point's gain.
#[tactic(auto, using(crate::proofs::LaneLaws::lane_stays_after_its_last_point))]
pub fn lane_stays_after_its_last_point()
    ensures { LaneStaysAfterItsLastPoint }
{}
