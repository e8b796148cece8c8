//! The memory of reading ahead: of each track its numbers and a box.
ghost use Rattle.std.specs.Prelude.{IfOk};
ghost use Rattle.edition_log.specs.EditionState.{IsEditionState};
ghost use Rattle.read_ahead.specs.AllServes.{AreFirst};

use crate::progress::SendProgress;
use crate::supply::TrackSupply;
use edition_log::Edition;
use piece_item::Item;
use ses_io::NoMemory;
use std::alloc::Global;

/// The numbers of each track in an edition of which nothing was sent yet, with a box of one block of the track.
pub fn supplies(alloc: Global, e: &Edition) -> Result<Vec<TrackSupply>, NoMemory>
    ensures first { IfOk result (λ v. AreFirst e.now v.items) }
    ensures seen { IsEditionState e.now }
{
    let session = e.session();
    let generation = e.transport().generation;
    let mut supplies = Vec::new(alloc);
    for track in 0..session.tracks.len() as u32 {
        let channels = session.routes.as_slice()[track as usize].channels;
        let spare = Item::blank(alloc, session.block * u32::from(channels))?;
        supplies.push(TrackSupply {
            progress: SendProgress::first(generation, e.touched(track)),
            spare: Some(spare),
            made: false,
        })?;
    }
    Ok(supplies)
}
