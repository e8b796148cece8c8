//! How tracks are played: items go from each track's ring to its window, and what the windows show
//! is the entry of a cycle.
//!
//! A *look* takes items and offers them to the window until the ring has no more, or one is held,
//! for which it is too early. An entry's settled number is the newest edition by which all tracks
//! are settled. An *underrun* is a track that is played and has no piece: it is silent, and noted
//! as short.
#![tactic(auto)]

mod looking;
mod noting;
mod play_position;
mod playback;
mod playbacks;

pub use noting::entry;
pub use play_position::PlayPosition;
pub use playback::{SpareBox, TrackPlayback};
pub use playbacks::{all_there, any_closed, heard_block, look_at_all, new_playbacks};
