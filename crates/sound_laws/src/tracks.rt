//! The laws of regions in layers.

ghost use Rattle.sound_laws.specs.Tracks.{RegionsStandInOrder, RegionsAreKept, ListingSaysNothing, HidesAllBelow, BelowIsUnheard, ElsewhereSaysNothing, TransparentRegionsAddUp};

/// Regions are heard by layer, and within a layer by id: of two, the one that stands first is on a lower layer, or
/// on the same layer with the lesser id.
#[tactic(auto, using(crate::proofs::LayerLaws::regions_stand_in_order))]
pub fn regions_stand_in_order()
    ensures { RegionsStandInOrder }
{}

/// Putting regions in order loses none and adds none.
#[tactic(auto, using(crate::proofs::LayerLaws::regions_are_kept))]
pub fn regions_are_kept()
    ensures { RegionsAreKept }
{}

/// In which order the regions of a track are listed says nothing of its sound: two neighbours may change places.
#[tactic(auto, using(crate::proofs::SilenceLaws::listing_says_nothing))]
pub fn listing_says_nothing()
    ensures { ListingSaysNothing }
{}

/// An opaque region at full fade hides all that lies below it.
#[tactic(auto, using(crate::proofs::LayerLaws::hides_all_below))]
pub fn hides_all_below()
    ensures { HidesAllBelow }
{}

/// A region that is put below an opaque one at full fade isn't heard there.
#[tactic(auto, using(crate::proofs::SilenceLaws::below_is_unheard))]
pub fn below_is_unheard()
    ensures { BelowIsUnheard }
{}

/// A region changes nothing at a place that it doesn't cover.
#[tactic(auto, using(crate::proofs::SilenceLaws::elsewhere_says_nothing))]
pub fn elsewhere_says_nothing()
    ensures { ElsewhereSaysNothing }
{}

/// Transparent regions at full fade add up: the track sample is the clip of their sum.
#[tactic(auto, using(crate::proofs::SilenceLaws::transparent_regions_add_up))]
pub fn transparent_regions_add_up()
    ensures { TransparentRegionsAddUp }
{}
