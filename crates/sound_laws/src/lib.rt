//! The laws of the sound: what its definitions mean to a recording engineer.
//! Each law is the contract of a function that does nothing, and its statement stands in `specs/`.
#![tactic(auto)]

mod desks;
mod files;
mod tracks;
mod values;

pub use desks::{
    cycles_are_found, deeper_is_the_same, fewer_links_no_cycle, muted_is_silent, only_links_feed,
    only_own_channels, plain_desk_sums, solo_silences_other_tracks,
};
pub use files::{
    extensible_head_is_read, extensible_sounds_as_plain, longer_walk_is_the_same,
    written_head_is_read, written_sound_is_read,
};
pub use tracks::{
    below_is_unheard, elsewhere_says_nothing, hides_all_below, listing_says_nothing,
    regions_are_kept, regions_stand_in_order, transparent_regions_add_up,
};
pub use values::{
    clipped_stays, fade_in_begins_silent, fade_in_rises, fade_out_ends_silent, fade_out_falls,
    fade_stays_within, full_between_fades, lane_meets_its_points, lane_stays_after_its_last_point,
    lane_stays_between_points, read_is_written, slow_fades_lie_below, slow_lies_below,
    slow_meets_linear, unity_changes_nothing,
};
