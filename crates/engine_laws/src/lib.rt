//! The laws of the engine: what its definitions mean, and why what is sent, received and heard stays lawful.
//! Each law is the contract of a function that does nothing, and its statement stands in `specs/`.
#![tactic(auto)]

mod editions;
mod heard;
mod journal_invariant;
mod journals;
mod made;
mod numbers;
mod order;
mod played;
mod serial;
mod truth;

pub use editions::{
    editions_play_their_generation, editions_stay, loops_are_kept, none_falls, places_stay,
    playlist_editions_name_edits,
};
pub use heard::{
    force_never_falls, heard_is_settled, heard_names_an_edition, heard_never_falls,
    next_is_no_older, old_entries_stand,
};
pub use journal_invariant::{stands_while_editing, stands_while_receiving, stands_with_its_entry};
pub use journals::{accepted_is_accepted, lawful_stays, plain_is_lawful};
pub use made::{
    looks_stand_while_editing, looks_stand_while_receiving, looks_stand_with_its_entry,
    made_goes_on, made_stays, what_is_made_is_lawful, what_is_made_is_missing,
};
pub use numbers::{
    mark_changes_nothing, marks_are_held_or_in_force, new_block_is_farthest,
    new_generation_has_nothing, newest_mark_is_in_force, newest_mark_is_of_its_edition,
    numbers_say_what_is_due, revision_is_fresh, touched_is_stale,
};
pub use order::{
    each_follows, entering_keeps, marks_bind, newest_never_falls_along, one_more_is_ordered,
    received_is_ordered, seeing_more_keeps, sending_keeps,
};
pub use played::{genuine_pieces_make_the_block, genuine_stays, playlists_stand_since_their_edit};
pub use serial::{
    due_is_not_held, few_are_sent, none_is_held_later, nothing_due_is_ready, ready_entry_is_plain,
};
pub use truth::{
    truth_stands_of_the_ring, truth_stands_while_editing, truth_stands_while_receiving,
    truth_stands_with_its_entry,
};
