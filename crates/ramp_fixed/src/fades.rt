//! The fade values of a block of a region: floor(65,536 * i / F) along a fade of F frames, in its shape.
ghost use Rattle.std.specs.Prelude.{◌≡◌, ℕ, ◌+◌, ◌-◌, ◌*◌, ◌/◌, ◌^◌, ◌<◌, ◌≤◌, ◌↔◌, ◌⊎◌, length, map, replicate, All, IsTrue};
ghost use Rattle.std.specs.List.{range_with_len};
ghost use Rattle.sound_model.specs.Numbers.{unity};
ghost use Rattle.sound_model.specs.Regions.{shaped};
ghost use Rattle.ses_units.specs.Shape.{shape_of};
ghost use Rattle.ramp_fixed.specs.Fades.{ramp, IsUnfaded};

use crate::line::Line;
use ses_units::Shape;

const UNITY: u32 = 65_536;

// The value of a straight fade in a shape.
fn shaped(shape: Shape, v: u64) -> u32
    requires { v ≤ 65536 }
    ensures { result ≡ shaped (shape_of shape) v }
{
    match shape {
        Shape::Linear => v as u32,
        Shape::Slow => ((v * v) >> 16) as u32,
    }
}

/// Writes the fade values of a region from a frame on. The region is `long` frames long, its fade-in
/// and its fade-out so many, and its frames count from 0. Each value is at most 65,536.
pub fn fade_block(
    long: u64,
    fade_in: u64,
    fade_out: u64,
    shape_in: Shape,
    shape_out: Shape,
    first: u64,
    out: &mut [u32],
)
    requires bound { long ≤ 2 ^ 40 }
    requires fit { fade_in + fade_out ≤ long }
    requires within { first + length out.old ≤ long }
    ensures are { out.new ≡ ramp long fade_in fade_out shape_in shape_out first (length out.old) }
    ensures quiet { All (λ f. f ≤ unity) out.new }
{
    let count = out.len() as u64;
    let rising = fade_in.clamp(first, first + count) - first;
    let falling = (long - fade_out).clamp(first, first + count) - first;
    rise(fade_in, shape_in, first, &mut out[..rising as usize]);
    fill_full(&mut out[rising as usize..falling as usize]);
    fall(
        long,
        fade_out,
        shape_out,
        first + falling,
        &mut out[falling as usize..],
    );
}

/// Whether so many frames of a region from one on are all heard in full: its fade values are unity.
pub fn is_unfaded(long: u64, fade_in: u64, fade_out: u64, first: u64, count: u64) -> bool
    requires bound { long ≤ 2 ^ 40 }
    requires fit { fade_in + fade_out ≤ long }
    requires within { first + count ≤ long }
    ensures { IsTrue result ↔ IsUnfaded long fade_in fade_out first count }
{
    count == 0 || (fade_in <= first && first + count + fade_out <= long)
}

// Writes the values of a fade-in of `long` frames from its frame `first` on.
fn rise(long: u64, shape: Shape, first: u64, out: &mut [u32])
    requires bound { long ≤ 2 ^ 40 }
    requires within { (0 < length out.old) → (first + length out.old ≤ long) }
    ensures { out.new ≡ map (λ i. shaped (shape_of shape) (unity * i / long))
        (range_with_len first (length out.old)) }
{
    if out.is_empty() {
        return;
    }
    let mut line = Line::at(u64::from(UNITY), long, 0, first);
    for i in 0..out.len() {
        out[i] = shaped(shape, line.value);
        line = line.next();
    }
}

// Writes the values of a fade-out over the last `fade` of `long` frames, from frame `first` on. The
// line is walked from its end, where it rises.
fn fall(long: u64, fade: u64, shape: Shape, first: u64, out: &mut [u32])
    requires bound { long ≤ 2 ^ 40 }
    requires within { first + length out.old ≤ long }
    requires past { (0 < length out.old) → (long ≤ first + fade) }
    ensures { out.new ≡ map (λ i. shaped (shape_of shape) (unity * (long - 1 - i) / fade))
        (range_with_len first (length out.old)) }
{
    if out.is_empty() {
        return;
    }
    let mut i = out.len();
    let mut line = Line::at(u64::from(UNITY), fade, 0, long - first - i as u64);
    while i > 0 {
        i -= 1;
        out[i] = shaped(shape, line.value);
        line = line.next();
    }
}

// Writes the values of frames between the fades.
fn fill_full(out: &mut [u32])
    ensures { out.new ≡ replicate (length out.old) unity }
{
    out.fill(UNITY);
}
