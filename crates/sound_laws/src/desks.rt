//! The laws of tracks, busses and the master.

ghost use Rattle.sound_laws.specs.Desks.{MutedIsSilent, SoloSilencesOtherTracks, OnlyLinksFeed, PlainDeskSums, CyclesAreFound, FewerLinksNoCycle, DeeperIsTheSame, OnlyOwnChannels};

/// A muted route gives nothing, through its output or any send.
#[tactic(auto, using(crate::proofs::DeskLaws::muted_is_silent))]
pub fn muted_is_silent()
    ensures { MutedIsSilent }
{}

/// Where a track is soloed, a track that isn't gives nothing, through its output or any send.
#[tactic(auto, using(crate::proofs::DeskLaws::solo_silences_other_tracks))]
pub fn solo_silences_other_tracks()
    ensures { SoloSilencesOtherTracks }
{}

/// A route gives nothing to one that neither its output nor a send of it leads to.
#[tactic(auto, using(crate::proofs::DeskLaws::only_links_feed))]
pub fn only_links_feed()
    ensures { OnlyLinksFeed }
{}

/// With no solo, no mute, gains at unity and no sends, a bus or the master gives the clip of the sum of the clips
/// of the inputs of all that leads to it; the input of a track is its track sample.
#[tactic(auto, using(crate::proofs::PlainLaws::plain_desk_sums))]
pub fn plain_desk_sums()
    ensures { PlainDeskSums }
{}

/// Where no route leads back to itself, following links further than there are routes finds the same.
#[tactic(auto, using(crate::proofs::DepthLaws::deeper_is_the_same))]
pub fn deeper_is_the_same()
    ensures { DeeperIsTheSame }
{}

/// The test of a cycle finds one exactly where some route leads back to itself by one or more links.
#[tactic(auto, using(crate::proofs::CycleLaws::cycles_are_found))]
pub fn cycles_are_found()
    ensures { CyclesAreFound }
{}

/// Where each link is one of others, by which no route leads back to itself, none does.
pub fn fewer_links_no_cycle()
    ensures { FewerLinksNoCycle }
{}

/// What a route gives on its own channels depends on no channel of a track that the track's route hasn't.
pub fn only_own_channels()
    ensures { OnlyOwnChannels }
{}
