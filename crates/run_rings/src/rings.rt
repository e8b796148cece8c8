//! The rings of a run: of each track one for its items and one for the blocks of its takes.
ghost use Rattle.std.specs.Prelude.{◌≡◌, [], length, IfOk};
ghost use Rattle.session_model.specs.Valid.{IsValid};
ghost use Rattle.run_rings.specs.Rings.{EachHasARing};

use crate::husks::new_ring;
use crate::joining::TrackEnds;
use ses_io::{FixedList, NoMemory};
use session_model::Session;
use std::alloc::Global;

fn no_ends(alloc: Global, tracks: u32) -> Result<TrackEnds, NoMemory>
    ensures { IfOk result (λ e. e ≡ record {
      sends = record { items = []; room = tracks };
      plays = record { items = []; room = tracks };
      captures = record { items = []; room = tracks };
      flushes = record { items = []; room = tracks };
    }) }
{
    Ok(TrackEnds {
        sends: FixedList::new(alloc, tracks)?,
        plays: FixedList::new(alloc, tracks)?,
        captures: FixedList::new(alloc, tracks)?,
        flushes: FixedList::new(alloc, tracks)?,
    })
}

/// New rings for each track of a session.
pub(crate) fn new_track_ends(alloc: Global, s: &Session) -> Result<TrackEnds, NoMemory>
    requires { IsValid s.now }
    ensures items { IfOk result (λ e. EachHasARing s.now e.sends.items e.plays.items) }
    ensures takes { IfOk result (λ e. EachHasARing s.now e.captures.items e.flushes.items) }
{
    let mut ends = no_ends(alloc, s.tracks.len() as u32)?;
    let routes = s.routes.as_slice();
    for t in 0..s.tracks.len() {
        let samples = s.block * u32::from(routes[t].channels);
        let (send, play) = new_ring(alloc, s.depth, samples)?;
        ends.sends.push(send);
        ends.plays.push(play);
        let (capture, flush) = new_ring(alloc, s.depth, samples)?;
        ends.captures.push(capture);
        ends.flushes.push(flush);
    }
    Ok(ends)
}
