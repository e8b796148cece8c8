//! The tracks: none records, and all have the same regions.
ghost use Rattle.std.specs.Prelude.{◌≡◌, ◌≤◌, IfOk};
ghost use Rattle.made_session.specs.Each.{listed};
ghost use Rattle.made_session.specs.Made as spec;

use crate::counts::tracks_made;
use crate::regions::playlist;
use ses_io::NoMemory;
use ses_units::limits::TRACKS;
use session_model::{Track, TrackList};
use std::alloc::Global;

// The track of that number, from 0.
#[tactic(auto, unfolding(crate::specs::Made::track))]
fn track(alloc: Global, n: u32, t: u32) -> Result<Track, NoMemory>
    requires { n ≤ 8191 }
    ensures { IfOk result (λ k. k ≡ spec.track n t) }
{
    let list = playlist(alloc, n)?;
    Ok(Track {
        route: t,
        solo: false,
        armed: false,
        input: None,
        list,
    })
}

/// The tracks of a session that is made from this number.
pub(crate) fn track_list(alloc: Global, n: u32) -> Result<TrackList, NoMemory>
    requires { n ≤ 8191 }
    ensures { IfOk result (λ l. l ≡ listed 32 (spec.track_items n)) }
{
    let mut list = TrackList::new(alloc, TRACKS)?;
    for t in 0..tracks_made(n) {
        let track = track(alloc, n, t)?;
        list.push(track);
    }
    Ok(list)
}
