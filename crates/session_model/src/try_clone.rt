//! Sessions and their parts made a second time, each equal to the first and with the same room.
ghost use Rattle.std.specs.Prelude.{◌≡◌, IfOk};

use crate::edit::Edit;
use crate::file_name::FileName;
use crate::region::Region;
use crate::route::{Route, SendLink};
use crate::session::{Session, SourceDecl};
use crate::track::Track;
use ses_io::{NoMemory, TryClone};
use ses_units::Lane;
use std::alloc::Global;

impl TryClone for SendLink {
    fn try_clone(&self, _alloc: Global) -> Result<Self, NoMemory> {
        Ok(*self)
    }
}

impl TryClone for Region {
    fn try_clone(&self, _alloc: Global) -> Result<Self, NoMemory> {
        Ok(*self)
    }
}

impl TryClone for Edit {
    fn try_clone(&self, _alloc: Global) -> Result<Self, NoMemory> {
        Ok(*self)
    }
}

impl TryClone for FileName {
    fn try_clone(&self, alloc: Global) -> Result<Self, NoMemory> {
        FileName::new(alloc, self.as_str()).map_err(|_| NoMemory)
    }
}

impl TryClone for SourceDecl {
    fn try_clone(&self, alloc: Global) -> Result<Self, NoMemory> {
        Ok(SourceDecl {
            name: self.name,
            file: self.file.try_clone(alloc)?,
            channels: self.channels,
        })
    }
}

// A lane's own points are refused by no rule: want of memory is left.
fn lane_clone(lane: &Lane, alloc: Global) -> Result<Lane, NoMemory>
    ensures { IfOk result (λ other. other ≡ lane.now) }
{
    Lane::new(alloc, lane.points()).map_err(|_| NoMemory)
}

impl TryClone for Route {
    fn try_clone(&self, alloc: Global) -> Result<Self, NoMemory> {
        Ok(Route {
            name: self.name,
            kind: self.kind,
            channels: self.channels,
            fader: self.fader,
            mode: self.mode,
            lane: lane_clone(&self.lane, alloc)?,
            muted: self.muted,
            left: self.left,
            right: self.right,
            target: self.target,
            sends: self.sends.try_clone(alloc)?,
        })
    }
}

impl TryClone for Track {
    fn try_clone(&self, alloc: Global) -> Result<Self, NoMemory> {
        Ok(Track {
            route: self.route,
            solo: self.solo,
            armed: self.armed,
            input: self.input,
            list: self.list.try_clone(alloc)?,
        })
    }
}

impl TryClone for Session {
    fn try_clone(&self, alloc: Global) -> Result<Self, NoMemory> {
        Ok(Session {
            rate: self.rate,
            bits: self.bits,
            block: self.block,
            depth: self.depth,
            takes: self.takes,
            sources: self.sources.try_clone(alloc)?,
            routes: self.routes.try_clone(alloc)?,
            tracks: self.tracks.try_clone(alloc)?,
        })
    }
}
