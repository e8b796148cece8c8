//! The laws of regions laid one over another, the lowest first.

ghost use Rattle.layer_laws.specs.Laws.{LaysFromTheLowest, RegionsStayNear, OverStaysNear, LayersStayNear};

/// A region on top of others is laid over their sound where it covers the position, and elsewhere leaves it.
#[tactic(auto, using(crate::proofs::NearLemmas::lays_from_the_lowest))]
pub fn lays_from_the_lowest()
    ensures { LaysFromTheLowest }
{}

/// The own sample of a region, which has at most four times unity, is within 2^25 of silence.
#[tactic(auto, using(crate::proofs::NearLemmas::regions_stay_near))]
pub fn regions_stay_near()
    ensures { RegionsStayNear }
{}

/// Laying a region over a sound takes it at most 2^25 further from silence, whatever its fades are.
pub fn over_stays_near()
    ensures { OverStaysNear }
{}

/// 256 regions stay within 2^33 of silence.
pub fn layers_stay_near()
    ensures { LayersStayNear }
{}
