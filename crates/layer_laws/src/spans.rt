//! The laws of the regions that meet a span.

ghost use Rattle.layer_laws.specs.Laws.{OnlyCoveringMatter, OnlyCoveringIsHeard, PlacesAreOfThoseMeeting, PlacesAreThere};

/// At each position of a span the regions that meet it, laid in their order, sound as all regions do.
#[tactic(auto, using(crate::proofs::SpanLemmas::only_covering_matter))]
pub fn only_covering_matter()
    ensures { OnlyCoveringMatter }
{}

/// At each position of a span a track with only the regions that meet it has the same sample.
#[tactic(auto, using(crate::proofs::SpanLemmas::only_covering_is_heard))]
pub fn only_covering_is_heard()
    ensures { OnlyCoveringIsHeard }
{}

/// At the places of the regions that meet a span stand those regions, in their order.
#[tactic(auto, using(crate::proofs::SpanLemmas::places_are_of_those_meeting))]
pub fn places_are_of_those_meeting()
    ensures { PlacesAreOfThoseMeeting }
{}

/// Each of those places is one of a region.
#[tactic(auto, using(crate::proofs::SpanLemmas::places_are_there))]
pub fn places_are_there()
    ensures { PlacesAreThere }
{}
