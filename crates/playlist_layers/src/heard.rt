//! Which regions are heard over a span: those that cover it, from the topmost that hides what
//! lies below it upward.
ghost use Rattle.std.specs.Prelude.{◌≡◌, ◌+◌, ◌-◌, ◌<◌, ◌≤◌, ◌↔◌, true, IsTrue, length, reverse, All};
ghost use Rattle.sound_model.specs.Regions.{covers};
ghost use Rattle.session_model.specs.Region.{region_of, regions_of, IsRegion};
ghost use Rattle.ramp_fixed.specs.Fades.{IsUnfaded};
ghost use Rattle.playlist_layers.specs.Spans.{IsWhole, CoversSpan, picked, SoundAlike};

use arrayvec::ArrayVec;
use ramp_fixed::is_unfaded;
use session_model::Region;

/// Whether a region covers a position.
fn covers(region: &Region, here: u64) -> bool
    requires { IsRegion (region_of region.now) }
    ensures { result ≡ covers (region_of region.now) here }
{
    region.at <= here && here < region.at + region.length
}

/// Whether so many frames of a region, from a position on, are heard in full.
pub(crate) fn is_full(region: &Region, here: u64, count: u64) -> bool
    requires limits { IsRegion (region_of region.now) }
    requires covers { CoversSpan here count (region_of region.now) }
    ensures { IsTrue result ↔ IsUnfaded region.now.length region.now.fade_in region.now.fade_out
        (here - region.now.at) count }
{
    is_unfaded(
        region.length,
        region.fade_in,
        region.fade_out,
        here - region.at,
        count,
    )
}

// Whether a region hides what lies below it, over so many frames from a position on.
fn hides(region: &Region, here: u64, count: u64) -> bool
    requires limits { IsRegion (region_of region.now) }
    requires covers { CoversSpan here count (region_of region.now) }
    ensures { IsTrue result ↔ (region.now.opaque ≡ true) × IsUnfaded region.now.length
        region.now.fade_in region.now.fade_out (here - region.now.at) count }
{
    region.opaque && is_full(region, here, count)
}

/// The places of the regions that are heard over a span, the highest first.
pub(crate) fn heard(
    regions: &[Region],
    places: &[u16],
    here: u64,
    count: u64,
    out: &mut ArrayVec<u16, 256>,
)
    requires limits { All IsRegion (regions_of regions.now) }
    requires places { All (λ p. p < length regions.now) places.now }
    requires few { length places.now ≤ 256 }
    requires some { 0 < count }
    requires whole { All (IsWhole here (here + count))
        (picked (regions_of regions.now) places.now) }
    ensures places { All (λ p. p < length regions.now) out.new.items }
    ensures few { length out.new.items ≤ 256 }
    ensures covers { All (CoversSpan here count) (picked (regions_of regions.now) out.new.items) }
    ensures heard { SoundAlike here count (picked (regions_of regions.now) out.new.items)
        (reverse (picked (regions_of regions.now) places.now)) }
{
    out.clear();
    let mut i = places.len();
    while i > 0 {
        i -= 1;
        let region = &regions[places[i] as usize];
        if covers(region, here) {
            out.push(places[i]);
            if hides(region, here, count) {
                return;
            }
        }
    }
}
