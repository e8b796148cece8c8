//! Whether edits are equal, variant by variant.
ghost use Rattle.std.specs.Prelude.{◌≡◌, ◌↔◌, IsTrue};

use session_model::Edit;

/// Whether two edits are equal.
fn same_edit(a: &Edit, b: &Edit) -> bool
    ensures { IsTrue result ↔ (a.now ≡ b.now) }
{
    match *a {
        Edit::Roll => matches!(*b, Edit::Roll),
        Edit::Stop => matches!(*b, Edit::Stop),
        Edit::Quit => matches!(*b, Edit::Quit),
        Edit::Recording { on } => matches!(*b, Edit::Recording { on: o } if o == on),
        Edit::Locate { to } => matches!(*b, Edit::Locate { to: t } if t == to),
        Edit::Loop { from, to } =>
            matches!(*b, Edit::Loop { from: f, to: t } if f == from && t == to),
        Edit::LoopOff => matches!(*b, Edit::LoopOff),
        Edit::Arm { track, on } =>
            matches!(*b, Edit::Arm { track: t, on: o } if t == track && o == on),
        Edit::Solo { track, on } =>
            matches!(*b, Edit::Solo { track: t, on: o } if t == track && o == on),
        Edit::Mute { route, on } =>
            matches!(*b, Edit::Mute { route: r, on: o } if r == route && o == on),
        Edit::Gain { route, gain } =>
            matches!(*b, Edit::Gain { route: r, gain: g } if r == route && g == gain),
        Edit::Pan { route, left, right } => matches!(*b, Edit::Pan { route: r, left: x, right: y }
                if r == route && x == left && y == right),
        Edit::Mode { route, mode } =>
            matches!(*b, Edit::Mode { route: r, mode: m } if r == route && m == mode),
        Edit::Point { route, at, gain } => matches!(*b, Edit::Point { route: r, at: p, gain: g }
                if r == route && p == at && g == gain),
        Edit::Unpoint { route, at } =>
            matches!(*b, Edit::Unpoint { route: r, at: p } if r == route && p == at),
        Edit::Connect { route, target } =>
            matches!(*b, Edit::Connect { route: r, target: t } if r == route && t == target),
        Edit::Send {
            route,
            target,
            pre,
            gain,
        } => matches!(*b, Edit::Send { route: r, target: t, pre: p, gain: g }
                if r == route && t == target && p == pre && g == gain),
        Edit::Unsend { route, target } =>
            matches!(*b, Edit::Unsend { route: r, target: t } if r == route && t == target),
        Edit::Add {
            track,
            id,
            source,
            start,
            length,
            at,
            layer,
        } =>
            matches!(*b, Edit::Add { track: t, id: i, source: s, start: f, length: l, at: p, layer: y }
                if t == track && i == id && s == source && f == start && l == length && p == at
                    && y == layer),
        Edit::Remove { track, id } =>
            matches!(*b, Edit::Remove { track: t, id: i } if t == track && i == id),
        Edit::Move { track, id, at } =>
            matches!(*b, Edit::Move { track: t, id: i, at: p } if t == track && i == id && p == at),
        Edit::Trim {
            track,
            id,
            start,
            length,
        } => matches!(*b, Edit::Trim { track: t, id: i, start: f, length: l }
                if t == track && i == id && f == start && l == length),
        Edit::Layer { track, id, layer } => matches!(*b, Edit::Layer { track: t, id: i, layer: y }
                if t == track && i == id && y == layer),
        Edit::Opaque { track, id, on } => matches!(*b, Edit::Opaque { track: t, id: i, on: o }
                if t == track && i == id && o == on),
        Edit::RegionGain { track, id, gain } =>
            matches!(*b, Edit::RegionGain { track: t, id: i, gain: g }
                if t == track && i == id && g == gain),
        Edit::Fade {
            track,
            id,
            fade_in,
            fade_out,
        } => matches!(*b, Edit::Fade { track: t, id: i, fade_in: x, fade_out: y }
                if t == track && i == id && x == fade_in && y == fade_out),
        Edit::Shape {
            track,
            id,
            shape_in,
            shape_out,
        } => matches!(*b, Edit::Shape { track: t, id: i, shape_in: x, shape_out: y }
                if t == track && i == id && x == shape_in && y == shape_out),
    }
}

/// Whether two lists have equal edits.
pub(crate) fn same_edits(a: &[Edit], b: &[Edit]) -> bool
    ensures { IsTrue result ↔ (a.now ≡ b.now) }
{
    if a.len() != b.len() {
        return false;
    }
    for (x, y) in a.iter().zip(b) {
        if !same_edit(x, y) {
            return false;
        }
    }
    true
}
