//! Blocks of the master through a desk: the rows of masters that are rendered plainly, block by block.
ghost use Rattle.std.specs.Prelude.{◌≡◌, ◌<◌, ◌≤◌, length};
ghost use Rattle.session_model.specs.Valid.{IsValid};
ghost use Rattle.route_mix.specs.Desks.{IsDeskOf};

use crate::frames::rows::ROWS;
use crate::frames::{Row, session};
use edition_log::Edition;
use route_mix::Desk;
use session_model::Session;
use std::alloc::Global;

// Puts one sample all over the block of a track.
fn put_even(alloc: Global, s: &Session, desk: &mut Desk, t: u32, sample: i32) -> Option<()>
    requires valid { IsValid s.now }
    requires desk { IsDeskOf s.now desk.old }
    requires there { t < length s.now.tracks.items }
    ensures desk { IsDeskOf s.now desk.new }
{
    let samples = s.block as usize * s.routes.as_slice()[t as usize].channels as usize;
    let block = vec![in alloc; sample; samples].ok()?;
    desk.put(t, block.as_slice());
    Some(())
}

// Puts the samples of a row's tracks.
fn put_all(alloc: Global, s: &Session, desk: &mut Desk, row: &Row) -> Option<()>
    requires valid { IsValid s.now }
    requires desk { IsDeskOf s.now desk.old }
    ensures desk { IsDeskOf s.now desk.new }
{
    for t in 0..s.tracks.len() {
        let sample = *row.samples.get(t)?;
        put_even(alloc, s, desk, t as u32, sample)?;
    }
    Some(())
}

// Mixes the block of four frames from a place on.
fn mix_four(e: &Edition, desk: &mut Desk, from: u64)
    requires desk { IsDeskOf e.now.session desk.old }
    requires block { e.now.session.block ≡ 4 }
    requires near { from ≤ 4 }
    ensures { IsDeskOf e.now.session desk.new }
{
    desk.mix(e, &[from, from + 1, from + 2, from + 3]);
}

// Whether two blocks of a desk are what is wanted of the master from place 0 on.
fn are_wanted(e: &Edition, desk: &mut Desk, row: &Row) -> bool
    requires desk { IsDeskOf e.now.session desk.old }
    requires block { e.now.session.block ≡ 4 }
{
    let width = row.channels.clamp(1, 2);
    for (k, want) in row.want.chunks(4 * width).take(2).enumerate() {
        mix_four(e, desk, if k == 0 { 0 } else { 4 });
        if desk.master().get(..want.len()) != Some(want) {
            return false;
        }
    }
    true
}

fn is_mixed(alloc: Global, row: &Row) -> Option<bool> {
    let s = session(alloc, row)?;
    if s.block != 4 {
        return None;
    }
    let mut desk = Desk::new(alloc, &s).ok()?;
    put_all(alloc, &s, &mut desk, row)?;
    let e = Edition::opening(alloc, s).ok()?;
    Some(are_wanted(&e, &mut desk, row))
}

#[test]
fn a_desk_gives_what_plain_rendering_gives(rt: HostRuntime) {
    for row in ROWS {
        assert!(rt; is_mixed(rt.alloc(), row) == Some(true), "{}", row.name);
    }
}
