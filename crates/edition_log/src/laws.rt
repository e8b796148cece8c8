//! The laws of editions.
ghost use Rattle.edition_log.specs.Laws.{EditionsPlayTheirPlaces, TransportEditsLeaveTheSession};

/// The transport of an edition is the fold's: it has the edits' generation, plays its places, and has quit exactly where an
/// edit said so.
pub fn editions_play_their_places()
    ensures { EditionsPlayTheirPlaces }
{}

/// Where the edits have left the session as it was opened, one more that is of the transport alone leaves it so.
pub fn transport_edits_leave_the_session()
    ensures { TransportEditsLeaveTheSession }
{}
