//! Where a block is cut: inside a span no region begins or ends.
ghost use Rattle.std.specs.Prelude.{◌<◌, ◌≤◌, length, All};
ghost use Rattle.session_model.specs.Region.{region_of, regions_of, IsRegion};
ghost use Rattle.playlist_layers.specs.Spans.{IsWhole, picked};

use session_model::Region;

// The end of a span from a position on, cut where the region begins or ends.
fn cut(region: &Region, here: u64, end: u64) -> u64
    requires limits { IsRegion (region_of region.now) }
    requires some { here < end }
    ensures some { here < result }
    ensures most { result ≤ end }
    ensures whole { IsWhole here result (region_of region.now) }
{
    let after = region.at + region.length;
    if here < region.at {
        end.min(region.at)
    } else if here < after {
        end.min(after)
    } else {
        end
    }
}

/// The end of the span from a position on, up to a last one, in which none of the regions at
/// these places begins or ends.
pub(crate) fn span_end(regions: &[Region], places: &[u16], here: u64, last: u64) -> u64
    requires limits { All IsRegion (regions_of regions.now) }
    requires places { All (λ p. p < length regions.now) places.now }
    requires some { here < last }
    ensures some { here < result }
    ensures most { result ≤ last }
    ensures whole { All (IsWhole here result) (picked (regions_of regions.now) places.now) }
{
    let mut end = last;
    for place in places {
        end = cut(&regions[*place as usize], here, end);
    }
    end
}
