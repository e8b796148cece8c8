//! Which regions of a playlist meet a span: long and short ones, and spans at their edges.
ghost use Rattle.std.specs.Prelude.{◌^◌, ◌<◌, ◌≤◌};
ghost use Rattle.session_model.specs.Region.{IsRegion, region_of};

use arrayvec::ArrayVec;
use ses_units::{Gain, Shape};
use session_model::{Playlist, Region};
use std::alloc::Global;

// A region of so many frames at a position.
fn region(id: u32, at: u64, length: u64, layer: u32) -> Region
    requires id_least { 1 ≤ id }
    requires id_most { id < 10 }
    requires at { at < 2 ^ 20 }
    requires some { 1 ≤ length }
    requires length { length < 2 ^ 20 }
    requires layer { layer < 10 }
    ensures region { IsRegion (region_of result) }
{
    Region {
        id,
        source: 0,
        start: 0,
        length,
        at,
        layer,
        gain: Gain::UNITY,
        opaque: true,
        fade_in: 0,
        fade_out: 0,
        shape_in: Shape::Linear,
        shape_out: Shape::Linear,
    }
}

// Puts a region in, where the playlist takes it.
fn add(list: &mut Playlist, r: Region) -> bool
    requires { IsRegion (region_of r) }
{
    if list.is_full() || list.has(r.id) {
        return false;
    }
    list.insert(r);
    true
}

// Whether these places are found in a span of some frames.
fn finds(list: &Playlist, from: u64, frames: u32, places: &[u16]) -> bool
    requires { 1 ≤ frames }
{
    let mut found = ArrayVec::new();
    list.covering(from, frames, &mut found);
    found.as_slice() == places
}

// A long region, two side by side, and one over both on the layer above.
fn is_filled(list: &mut Playlist) -> bool {
    add(list, region(4, 105, 10, 1))
        && add(list, region(3, 110, 10, 0))
        && add(list, region(1, 0, 1_000, 0))
        && add(list, region(2, 100, 10, 0))
}

// Whether spans of one frame find the regions that cover it.
fn finds_frames(list: &Playlist) -> bool {
    finds(list, 99, 1, &[0])
        && finds(list, 100, 1, &[0, 1])
        && finds(list, 109, 1, &[0, 1, 3])
        && finds(list, 110, 1, &[0, 2, 3])
        && finds(list, 999, 1, &[0])
        && finds(list, 1_000, 1, &[])
}

// Whether longer spans find those that they share a frame with.
fn finds_spans(list: &Playlist) -> bool {
    finds(list, 115, 5, &[0, 2])
        && finds(list, 120, 100, &[0])
        && finds(list, 95, 6, &[0, 1])
        && finds(list, 0, u32::MAX, &[0, 1, 2, 3])
        && finds(list, 1_000, u32::MAX, &[])
        && finds(list, u64::MAX, u32::MAX, &[])
}

// Whether spans find what is left once the long region is taken out.
fn finds_the_rest(list: &mut Playlist) -> bool {
    list.remove(1).is_some()
        && finds(list, 999, 1, &[])
        && finds(list, 105, 1, &[0, 2])
        && finds(list, 115, 5, &[1])
}

fn spans_are_found(alloc: Global) -> bool {
    match Playlist::new(alloc) {
        Ok(mut list) => {
            finds(&list, 0, 1, &[])
                && is_filled(&mut list)
                && finds_frames(&list)
                && finds_spans(&list)
                && finds_the_rest(&mut list)
        }
        Err(_) => false,
    }
}

#[test]
fn a_span_finds_the_regions_that_it_meets(rt: HostRuntime) {
    assert!(rt; spans_are_found(rt.alloc()));
}
