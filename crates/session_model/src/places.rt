//! Where a region stands among others by layer, then by id, and how one is moved there and away.
ghost use Rattle.std.specs.Prelude.{◌≡◌, ◌==◌, ◌<◌, ◌≤◌, List, [], ◌∷◌, ◌++◌, length, insert, remove, position, slice_index_or, IfSome};
ghost use Rattle.std.specs.List.{list_any, position_or_len};
ghost use Rattle.sound_model.specs.Layers as sound;
ghost use Rattle.session_model.specs.Region.{region_of};

use crate::region::Region;

fn is_below(r: &Region, q: &Region) -> bool
    ensures { result ≡ sound.is_below (region_of r.now) (region_of q.now) }
{
    r.layer < q.layer || (r.layer == q.layer && r.id < q.id)
}

fn first_above(regions: &[Region], r: &Region) -> Option<usize>
    ensures { result ≡ position
        (λ q. sound.is_below (region_of r.now) (region_of q)) regions.now }
{
    regions.iter().position(|q| is_below(r, q))
}

/// The index of the first region that lies above r, or their number where none does.
pub(crate) fn place_of(regions: &[Region], r: &Region) -> usize
    ensures place { result ≡ position_or_len
        (λ q. sound.is_below (region_of r.now) (region_of q)) regions.now }
    ensures bound { result ≤ length regions.now }
{
    first_above(regions, r).unwrap_or(regions.len())
}

/// The index of the region of an id.
pub(crate) fn index_of(regions: &[Region], id: u32) -> Option<usize>
    ensures index { result ≡ position (λ r. r.id == id) regions.now }
    ensures bound { IfSome result (λ i. i < length regions.now) }
{
    regions.iter().position(|r| r.id == id)
}

/// Whether some region has an id.
pub(crate) fn any_has(regions: &[Region], id: u32) -> bool
    ensures { result ≡ list_any (λ r. r.id == id) regions.now }
{
    regions.iter().any(|r| r.id == id)
}

/// Moves the last region to an index; those from there on go up by one.
pub(crate) fn put_last_at(regions: &mut [Region], place: usize)
    requires { place < length regions.old }
    ensures { (others : List Region) (last : Region) → regions.old ≡ others ++ last ∷ []
        → regions.new ≡ insert others place last }
{
    regions[place..].rotate_right(1);
}

/// Moves the region of an index to the end; those after it go down by one.
pub(crate) fn put_at_end(regions: &mut [Region], place: usize)
    requires { place < length regions.old }
    ensures { (d : Region) → regions.new ≡ remove regions.old place
        ++ slice_index_or regions.old place d ∷ [] }
{
    regions[place..].rotate_left(1);
}
