//! The canonical line of an edit.
ghost use Rattle.std.specs.Prelude.{◌≡◌, true, IsSome, IsTrue};
ghost use Rattle.engine_model.specs.Edits.{region_track};
ghost use Rattle.edit_script.specs.Printing.{verb_of, is_blend, line_of_edit};
ghost use Rattle.edit_script.specs.Laws.{has_words};

use crate::line::Line;
use arrayvec::ArrayString;
use session_model::Edit;

fn line_of(edit: &Edit) -> Line
    ensures line { result.text.bytes ≡ line_of_edit edit.now }
    ensures words { has_words edit.now ≡ true }
{
    match edit {
        Edit::Roll => Line::of("roll"),
        Edit::Stop => Line::of("stop"),
        Edit::Quit => Line::of("quit"),
        Edit::Recording { on } => Line::of("record").switch(*on),
        Edit::Locate { to } => Line::of("locate").number(*to),
        Edit::Loop { from, to } => Line::of("loop").number(*from).number(*to),
        Edit::LoopOff => Line::of("loop").word("off"),
        Edit::Arm { track, on } => Line::of("arm").name(track).switch(*on),
        Edit::Solo { track, on } => Line::of("solo").name(track).switch(*on),
        Edit::Mute { route, on } => Line::of("mute").name(route).switch(*on),
        Edit::Gain { route, gain } => Line::of("gain").name(route).number(*gain),
        Edit::Pan { route, left, right } => {
            Line::of("pan").name(route).number(*left).number(*right)
        }
        Edit::Mode { route, mode } => Line::of("mode").name(route).mode(*mode),
        Edit::Point { route, at, gain } => {
            Line::of("point").name(route).number(*at).number(*gain)
        }
        Edit::Unpoint { route, at } => Line::of("unpoint").name(route).number(*at),
        Edit::Connect { route, target } => Line::of("connect").name(route).name(target),
        Edit::Send {
            route,
            target,
            pre,
            gain,
        } => {
            Line::of("send")
                .name(route)
                .name(target)
                .pre(*pre)
                .number(*gain)
        }
        Edit::Unsend { route, target } => Line::of("unsend").name(route).name(target),
        _ => region_line_of(edit),
    }
}

fn region_line_of(edit: &Edit) -> Line
    requires { IsSome (region_track edit.now) }
    ensures line { result.text.bytes ≡ line_of_edit edit.now }
    ensures words { has_words edit.now ≡ true }
{
    match edit {
        Edit::Add {
            track,
            id,
            source,
            start,
            length,
            at,
            layer,
        } => {
            let line = Line::of("add").name(track).small(*id).name(source);
            line.number(*start)
                .number(*length)
                .number(*at)
                .small(*layer)
        }
        Edit::Remove { track, id } => Line::of("remove").name(track).small(*id),
        Edit::Move { track, id, at } => Line::of("move").name(track).small(*id).number(*at),
        Edit::Trim {
            track,
            id,
            start,
            length,
        } => {
            let line = Line::of("trim").name(track).small(*id);
            line.number(*start).number(*length)
        }
        _ => blend_line_of(edit),
    }
}

fn blend_line_of(edit: &Edit) -> Line
    requires { IsTrue (is_blend (verb_of edit.now)) }
    ensures line { result.text.bytes ≡ line_of_edit edit.now }
    ensures words { has_words edit.now ≡ true }
{
    match edit {
        Edit::Layer { track, id, layer } => {
            Line::of("layer").name(track).small(*id).small(*layer)
        }
        Edit::Opaque { track, id, on } => Line::of("opaque").name(track).small(*id).switch(*on),
        Edit::RegionGain { track, id, gain } => {
            Line::of("rgain").name(track).small(*id).number(*gain)
        }
        Edit::Fade {
            track,
            id,
            fade_in,
            fade_out,
        } => {
            let line = Line::of("fade").name(track).small(*id);
            line.number(*fade_in).number(*fade_out)
        }
        Edit::Shape {
            track,
            id,
            shape_in,
            shape_out,
        } => {
            let line = Line::of("shape").name(track).small(*id);
            line.shape(*shape_in).shape(*shape_out)
        }
        _ => unreachable!(),
    }
}

/// Writes the one canonical line of an edit, without its line feed: `out` becomes exactly that. A
/// line has at most 129 bytes where the edit keeps the forms of its words. It takes no memory.
pub fn text_of(edit: &Edit, out: &mut ArrayString<160>)
    ensures line { out.new.bytes ≡ line_of_edit edit.now }
    ensures words { has_words edit.now ≡ true }
{
    *out = line_of(edit).text;
}
