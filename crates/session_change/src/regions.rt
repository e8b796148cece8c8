//! The regions of a track.
ghost use Rattle.std.specs.Prelude.{◌≡◌, ◌<◌, ◌⊎◌, length, IsTrue};
ghost use Rattle.sound_model.specs.Layers.{with_region};
ghost use Rattle.session_model.specs.Region.{region_of, IsRegion};
ghost use Rattle.session_model.specs.Playlist.{has_region, without_region};
ghost use Rattle.engine_model.specs.Changes.{RegionPut, RegionTaken, made};
ghost use Rattle.engine_model.specs.MayMake.{MayPut};

use session_model::{Playlist, Region, Session};

// Puts a region into a playlist, in place of the one of its id, if one is there.
fn put(list: &mut Playlist, r: Region)
    requires limits { IsRegion (region_of r) }
    requires room { IsTrue (has_region list.old r.id) ⊎ (length list.old < 256) }
    ensures { list.new ≡ with_region (region_of r) (without_region list.old r.id) }
{
    // Read, so that its bound is known.
    let _number = list.len();
    list.remove(r.id);
    list.insert(r);
}

/// Puts a region on a track, in place of the one of its id, if one is there.
pub(crate) fn put_region(s: &mut Session, track: u32, r: Region)
    requires { MayPut s.old track (region_of r) }
    ensures { s.new ≡ made s.old (RegionPut track (region_of r)) }
{
    put(&mut s.tracks.as_mut_slice()[track as usize].list, r);
}

/// Takes the region of an id from a track.
pub(crate) fn take_region(s: &mut Session, track: u32, id: u32)
    requires { track < length s.old.tracks.items }
    ensures { s.new ≡ made s.old (RegionTaken track id) }
{
    s.tracks.as_mut_slice()[track as usize].list.remove(id);
}
