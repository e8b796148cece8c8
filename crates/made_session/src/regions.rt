//! The regions of a track: each begins 256 frames after the one below it, and every other one is opaque.
ghost use Rattle.std.specs.Prelude.{◌≡◌, ◌≤◌, ◌<◌, IfOk};
ghost use Rattle.session_model.specs.Region.{region_of};
ghost use Rattle.made_session.specs.Made as spec;

use crate::counts::regions_each;
use ses_io::NoMemory;
use ses_units::{Gain, Shape};
use session_model::{Playlist, Region};
use std::alloc::Global;

// The region of that number, from 0.
#[tactic(auto, unfolding(crate::specs::Made::region))]
fn region(j: u32) -> Region
    requires { j < 256 }
    ensures { region_of result ≡ spec.region j }
{
    Region {
        id: j + 1,
        source: 0,
        start: 0,
        length: 4_096,
        at: 256 * u64::from(j),
        layer: j,
        gain: Gain::UNITY,
        opaque: j % 2 == 0,
        fade_in: 64 * u64::from(j % 4),
        fade_out: 0,
        shape_in: Shape::Linear,
        shape_out: Shape::Linear,
    }
}

/// The regions of any track of a session that is made from this number.
pub(crate) fn playlist(alloc: Global, n: u32) -> Result<Playlist, NoMemory>
    requires { n ≤ 8191 }
    ensures { IfOk result (λ l. l ≡ spec.playlist n) }
{
    let mut list = Playlist::new(alloc)?;
    for j in 0..regions_each(n) {
        list.insert(region(j));
    }
    Ok(list)
}
