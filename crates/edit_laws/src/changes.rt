//! The laws of what commands change and leave.

ghost use Rattle.edit_laws.specs.CommandLaws.{ResolvedMayBeMade, MadeKeepsValid, EditsKeepValidity, EachEditionPlaysItsPieces, FixedStays, ARegionCommandIsHeardOnItsTrackAlone, ARouteCommandTouchesNoPlaylist, ARegionCommandLeavesTheRoutes};

/// What an accepted command changes of a valid session may be changed: its places are there, and its
/// numbers keep their limits.
pub fn resolved_may_be_made()
    ensures { ResolvedMayBeMade }
{}

/// What may be changed leaves a valid session.
pub fn made_keeps_valid()
    ensures { MadeKeepsValid }
{}

/// Each edition of a valid session is valid, whatever edits were asked for.
pub fn edits_keep_validity()
    ensures { EditsKeepValidity }
{}

/// In each edition of a valid session the block that genuine pieces make of an entry is the block that the entry stands
/// for.
pub fn each_edition_plays_its_pieces()
    ensures { EachEditionPlaysItsPieces }
{}

/// No edit changes the form of the sound, the sources, or what routes and tracks there are.
pub fn fixed_stays()
    ensures { FixedStays }
{}

/// A command changes no playlist but of the track that it touches.
pub fn a_region_command_is_heard_on_its_track_alone()
    ensures { ARegionCommandIsHeardOnItsTrackAlone }
{}

/// A command that names no region changes no playlist.
pub fn a_route_command_touches_no_playlist()
    ensures { ARouteCommandTouchesNoPlaylist }
{}

/// A command of regions changes no route.
pub fn a_region_command_leaves_the_routes()
    ensures { ARegionCommandLeavesTheRoutes }
{}
