//! A playlist: a track's regions by layer, then by id, with room for all of them from the first.
ghost use Rattle.std.specs.Prelude.{◌≡◌, ◌↔◌, ◌<◌, ◌≤◌, [], length, find, IsTrue, IsNone, IfOk, IfNone};
ghost use Rattle.std.specs.Bool.{IsFalse};
ghost use Rattle.std.specs.Option.{option_map};
ghost use Rattle.sound_model.specs.Layers.{with_region};
ghost use Rattle.session_model.specs.Region.{region_of, regions_of, IsRegion};
ghost use Rattle.session_model.specs.Playlist.{IsPlaylist, has_id, has_region, without_region, places_meeting};

use crate::places::{any_has, index_of, place_of, put_at_end, put_last_at};
use crate::region::Region;
use crate::starts::Starts;
use arrayvec::ArrayVec;
use ses_io::{FixedList, NoMemory, TryClone};
use ses_units::limits::REGIONS;
use std::alloc::Global;
use std::marker::Model;

/// The regions of a track, the lowest first (own). Contracts see their list. Beside it an index keeps
/// them by their starts.
#[derive(Drop)]
pub struct Playlist {
    list: FixedList<Region>,
    starts: Starts,
}

impl Model for Playlist {
    ghost use Rattle.std.specs.Prelude.{List, ◌≤◌};
    ghost use Rattle.sound_model.specs.Regions as sound;
    ghost use Rattle.session_model.specs.Region.{regions_of};
    ghost use Rattle.session_model.specs.Playlist.{IsPlaylist};
    ghost use Rattle.session_model.specs.Starts.{IsIndexOf};

    ghost Value = { List sound.Region };

    ghost view = { λ p. regions_of p.list.items };

    ghost invariant = { λ p. IsPlaylist (regions_of p.list.items) × (256 ≤ p.list.room)
        × IsIndexOf (regions_of p.list.items) p.starts };
}

impl Playlist {
    /// The empty playlist, with room for 256 regions.
    pub fn new(alloc: Global) -> Result<Playlist, NoMemory>
        ensures { IfOk result (λ p. p ≡ []) }
    {
        Ok(Playlist {
            list: FixedList::new(alloc, REGIONS)?,
            starts: Starts::new(alloc)?,
        })
    }

    /// Puts a region at its place by layer, then by id. It takes no memory.
    pub fn insert(&mut self, r: Region)
        requires room { length self.old < 256 }
        requires fresh { IsFalse (has_region self.old r.id) }
        requires limits { IsRegion (region_of r) }
        ensures { self.new ≡ with_region (region_of r) self.old }
    {
        let place = place_of(self.list.as_slice(), &r);
        self.list.push(r);
        put_last_at(self.list.as_mut_slice(), place);
        self.starts.renew(self.list.as_slice());
    }

    /// Takes the region of that id out, None exactly where no region has it. It takes no memory.
    pub fn remove(&mut self, id: u32) -> Option<Region>
        ensures region { option_map region_of result ≡ find (has_id id) self.old }
        ensures others { self.new ≡ without_region self.old id }
        ensures absent { IsNone result ↔ IsFalse (has_region self.old id) }
        ensures unchanged { IfNone result (self.new ≡ self.old) }
    {
        let place = index_of(self.list.as_slice(), id)?;
        put_at_end(self.list.as_mut_slice(), place);
        let r = self.list.pop();
        self.starts.renew(self.list.as_slice());
        Some(r)
    }

    /// The regions, the lowest first.
    pub fn regions(&self) -> &[Region]
        ensures regions { regions_of result.now ≡ self.now }
        ensures playlist { IsPlaylist self.now }
    {
        self.list.as_slice()
    }

    /// How many regions stand.
    pub fn len(&self) -> usize
        ensures len { result ≡ length self.now }
        ensures few { result ≤ 256 }
    {
        self.list.len()
    }

    /// Whether no region stands.
    pub fn is_empty(&self) -> bool
        ensures { IsTrue result ↔ (self.now ≡ []) }
    {
        self.list.is_empty()
    }

    /// Whether no further region has room.
    pub fn is_full(&self) -> bool
        ensures full { IsTrue result ↔ (length self.now ≡ 256) }
        ensures few { length self.now ≤ 256 }
    {
        self.len() == REGIONS as usize
    }

    /// Writes the places, the lowest first, of the regions that are heard somewhere in `frames` frames from position `from` on.
    /// It takes no memory.
    pub fn covering(&self, from: u64, frames: u32, out: &mut ArrayVec<u16, 256>)
        requires some { 1 ≤ frames }
        ensures { out.new.items ≡ places_meeting self.now from frames }
    {
        let heard = self.starts.heard(from, frames);
        out.clear();
        for place in 0..self.len() {
            if heard[place] {
                out.push(place as u16);
            }
        }
    }

    /// Whether a region has that id.
    pub fn has(&self, id: u32) -> bool
        ensures { result ≡ has_region self.now id }
    {
        any_has(self.regions(), id)
    }
}

impl TryClone for Playlist {
    fn try_clone(&self, alloc: Global) -> Result<Self, NoMemory> {
        Ok(Playlist {
            list: self.list.try_clone(alloc)?,
            starts: self.starts.try_clone(alloc)?,
        })
    }
}
