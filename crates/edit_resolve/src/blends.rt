//! How a region blends with those round it: its layer, its gain and its fades.
ghost use Rattle.std.specs.Prelude.{◌≡◌, None};
ghost use Rattle.session_model.specs.Formed.{IsFormed};
ghost use Rattle.edit_resolve.specs.Kinds.{kind_of, OfBlend};
ghost use Rattle.edit_resolve.specs.Resolves.{Resolves};

use crate::material::region_at;
use crate::names::track_at;
use crate::reason::Refusal;
use crate::rules::{gain_of, refused_if, sum_passes};
use ses_units::{Name, Shape};
use session_change::Change;
use session_model::{Edit, Region, Session};

fn set_layer(s: &Session, track: &Name, id: u32, layer: u32) -> Result<Change, Refusal>
    requires { IsFormed s.now }
    ensures { Resolves s.now None (Edit.Layer track.now id layer) result }
{
    let t = track_at(s, track)?;
    let r = region_at(s, t, id)?;
    let region = Region { layer, ..r };
    Ok(Change::RegionPut { track: t, region })
}

fn set_opaque(s: &Session, track: &Name, id: u32, on: bool) -> Result<Change, Refusal>
    requires { IsFormed s.now }
    ensures { Resolves s.now None (Edit.Opaque track.now id on) result }
{
    let t = track_at(s, track)?;
    let r = region_at(s, t, id)?;
    let region = Region { opaque: on, ..r };
    Ok(Change::RegionPut { track: t, region })
}

fn set_gain(s: &Session, track: &Name, id: u32, gain: u64) -> Result<Change, Refusal>
    requires { IsFormed s.now }
    ensures { Resolves s.now None (Edit.RegionGain track.now id gain) result }
{
    let t = track_at(s, track)?;
    let r = region_at(s, t, id)?;
    let gain = gain_of(gain)?;
    let region = Region { gain, ..r };
    Ok(Change::RegionPut { track: t, region })
}

fn set_fades(
    s: &Session,
    track: &Name,
    id: u32,
    fade_in: u64,
    fade_out: u64,
) -> Result<Change, Refusal>
    requires { IsFormed s.now }
    ensures { Resolves s.now None (Edit.Fade track.now id fade_in fade_out) result }
{
    let t = track_at(s, track)?;
    let r = region_at(s, t, id)?;
    refused_if(sum_passes(fade_in, fade_out, r.length), Refusal::Fades(id))?;
    let region = Region {
        fade_in,
        fade_out,
        ..r
    };
    Ok(Change::RegionPut { track: t, region })
}

fn set_shapes(
    s: &Session,
    track: &Name,
    id: u32,
    shape_in: Shape,
    shape_out: Shape,
) -> Result<Change, Refusal>
    requires { IsFormed s.now }
    ensures { Resolves s.now None (Edit.Shape track.now id shape_in shape_out) result }
{
    let t = track_at(s, track)?;
    let r = region_at(s, t, id)?;
    let region = Region {
        shape_in,
        shape_out,
        ..r
    };
    Ok(Change::RegionPut { track: t, region })
}

/// What an edit of how a region blends changes, or the first rule that it breaks.
/// It asks of no loop.
pub(crate) fn blend_change_of(s: &Session, edit: &Edit) -> Result<Change, Refusal>
    requires formed { IsFormed s.now }
    requires kind { kind_of edit.now ≡ OfBlend }
    ensures { Resolves s.now None edit.now result }
{
    match edit {
        Edit::Layer { track, id, layer } => set_layer(s, track, *id, *layer),
        Edit::Opaque { track, id, on } => set_opaque(s, track, *id, *on),
        Edit::RegionGain { track, id, gain } => set_gain(s, track, *id, *gain),
        Edit::Fade {
            track,
            id,
            fade_in,
            fade_out,
        } => set_fades(s, track, *id, *fade_in, *fade_out),
        Edit::Shape {
            track,
            id,
            shape_in,
            shape_out,
        } => set_shapes(s, track, *id, *shape_in, *shape_out),
        _ => unreachable!(),
    }
}
