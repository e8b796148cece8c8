//! The law of what is hidden.
ghost use Rattle.playlist_layers.specs.Laws.{WhatIsHiddenIsNotHeard};

/// Where a region hides what lies below it at each position of a block, the block is that of the
/// region and those above it.
#[tactic(auto, using(crate::proofs::HiddenLaws::what_is_hidden_is_not_heard))]
pub fn what_is_hidden_is_not_heard()
    ensures { WhatIsHiddenIsNotHeard }
{}
