//! The laws of pieces and of what is played.

ghost use Rattle.engine_laws.specs.PlayedLaws.{PlaylistsStandSinceTheirEdit, GenuineStays, GenuinePiecesMakeTheBlock};

/// The playlist of a track in an edition is the one that the last edit of it left.
#[tactic(auto, using(crate::proofs::PlayedLemmas::playlists_stand))]
pub fn playlists_stand_since_their_edit()
    ensures { PlaylistsStandSinceTheirEdit }
{}

/// A genuine piece stays genuine when more edits come.
#[tactic(auto, using(crate::proofs::PlayedLemmas::genuine_stays))]
pub fn genuine_stays()
    ensures { GenuineStays }
{}

/// The block that genuine pieces make of an entry is the block that the entry stands for, in every edition whose session
/// is valid.
pub fn genuine_pieces_make_the_block()
    ensures { GenuinePiecesMakeTheBlock }
{}
