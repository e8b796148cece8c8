//! Which regions a track has, and what they play where.
ghost use Rattle.std.specs.Prelude.{◌≡◌, None};
ghost use Rattle.session_model.specs.Formed.{IsFormed};
ghost use Rattle.edit_resolve.specs.Kinds.{kind_of, OfRegion};
ghost use Rattle.edit_resolve.specs.Resolves.{Resolves};
ghost use Rattle.session_model.specs.Region.{region_of};
ghost use Rattle.engine_model.specs.Commands.{added};

use crate::material::{fits, playlist, region_at};
use crate::names::{source_at, track_at};
use crate::reason::{Bound, Refusal};
use crate::rules::{ends_near, refused_if, sum_passes};
use ses_units::limits::REGIONS;
use ses_units::{Gain, Name, Shape};
use session_change::Change;
use session_model::{Edit, Region, Session};

/// What is asked for: so many frames of a source, and where they shall stand.
#[derive(Clone, Copy)]
struct Part {
    id: u32,
    source: Name,
    start: u64,
    long: u64,
    place: u64,
    layer: u32,
}

impl Part {
    /// The region that shows it, of the source of that index: opaque, at unity, without fades.
    fn region(&self, source: u32) -> Region
        ensures { region_of result ≡ added self.now.id source self.now.start self.now.long
            self.now.place self.now.layer }
    {
        Region {
            id: self.id,
            source,
            start: self.start,
            length: self.long,
            at: self.place,
            layer: self.layer,
            gain: Gain::unity(),
            opaque: true,
            fade_in: 0,
            fade_out: 0,
            shape_in: Shape::Linear,
            shape_out: Shape::Linear,
        }
    }
}

fn add(s: &Session, track: &Name, part: &Part) -> Result<Change, Refusal>
    requires { IsFormed s.now }
    ensures { Resolves s.now None (Edit.Add track.now part.now.id part.now.source part.now.start
        part.now.long part.now.place part.now.layer) result }
{
    let t = track_at(s, track)?;
    refused_if(playlist(s, t).has(part.id), Refusal::RegionTwice(part.id))?;
    let from = source_at(s, &part.source)?;
    refused_if(!fits(s, from, t), Refusal::Channels(*track))?;
    ends_near(part.start, part.long)?;
    ends_near(part.place, part.long)?;
    refused_if(
        playlist(s, t).len() >= REGIONS as usize,
        Refusal::Limit(Bound::Regions),
    )?;
    let region = part.region(from);
    Ok(Change::RegionPut { track: t, region })
}

fn remove(s: &Session, track: &Name, id: u32) -> Result<Change, Refusal>
    requires { IsFormed s.now }
    ensures { Resolves s.now None (Edit.Remove track.now id) result }
{
    let t = track_at(s, track)?;
    region_at(s, t, id)?;
    Ok(Change::RegionTaken { track: t, id })
}

fn move_to(s: &Session, track: &Name, id: u32, place: u64) -> Result<Change, Refusal>
    requires { IsFormed s.now }
    ensures { Resolves s.now None (Edit.Move track.now id place) result }
{
    let t = track_at(s, track)?;
    let r = region_at(s, t, id)?;
    ends_near(place, r.length)?;
    let region = Region { at: place, ..r };
    Ok(Change::RegionPut { track: t, region })
}

fn trim(s: &Session, track: &Name, id: u32, start: u64, long: u64) -> Result<Change, Refusal>
    requires { IsFormed s.now }
    ensures { Resolves s.now None (Edit.Trim track.now id start long) result }
{
    let t = track_at(s, track)?;
    let r = region_at(s, t, id)?;
    ends_near(start, long)?;
    ends_near(r.at, long)?;
    refused_if(sum_passes(r.fade_in, r.fade_out, long), Refusal::Fades(id))?;
    let region = Region {
        start,
        length: long,
        ..r
    };
    Ok(Change::RegionPut { track: t, region })
}

/// What an edit of a track's regions changes, or the first rule that it breaks.
/// It asks of no loop.
pub(crate) fn region_change_of(s: &Session, edit: &Edit) -> Result<Change, Refusal>
    requires formed { IsFormed s.now }
    requires kind { kind_of edit.now ≡ OfRegion }
    ensures { Resolves s.now None edit.now result }
{
    match edit {
        Edit::Add {
            track,
            id,
            source,
            start,
            length,
            at,
            layer,
        } => {
            let part = Part {
                id: *id,
                source: *source,
                start: *start,
                long: *length,
                place: *at,
                layer: *layer,
            };
            add(s, track, &part)
        }
        Edit::Remove { track, id } => remove(s, track, *id),
        Edit::Move { track, id, at } => move_to(s, track, *id, *at),
        Edit::Trim {
            track,
            id,
            start,
            length,
        } => trim(s, track, *id, *start, *length),
        _ => unreachable!(),
    }
}
