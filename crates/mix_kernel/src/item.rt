//! One item of a block, scaled, summed or laid over.
ghost use Rattle.std.specs.Prelude.{◌≡◌, ◌-◌, ◌*◌, ◌/◌, ◌^◌, ◌<◌, ◌≤◌, pos, ◌+ℤ◌, ◌*ℤ◌};
ghost use Rattle.sound_model.specs.Numbers as sound;
ghost use Rattle.sound_model.specs.Numbers.{unity};
ghost use Rattle.mix_kernel.specs.Bounds.{IsNear};

const UNITY: u32 = 65_536;

// A number scaled by a gain and rounded down.
pub(crate) fn scaled(s: i64, g: u32) -> i64
    requires near { IsNear (2 ^ 44) s }
    requires quiet { g ≤ 262144 }
    ensures value { result ≡ sound.scale s g }
    ensures near { IsNear (2 ^ 46) result }
{
    (s * i64::from(g)) >> 16
}

// A gain as a signed number.
fn signed(g: u32) -> i32
    requires { g ≤ 262144 }
    ensures { result ≡ pos g }
{
    g as i32
}

// A product of two numbers that fit 32 bits.
fn product(s: i32, g: u32) -> i64
    requires { g ≤ 262144 }
    ensures value { result ≡ s *ℤ pos g }
    ensures near { IsNear (2 ^ 49) result }
{
    i64::from(s) * i64::from(signed(g))
}

// A sample scaled by a gain. Both fit 32 bits, which makes the product cheap.
pub(crate) fn scaled_sample(s: i32, g: u32) -> i64
    requires { g ≤ 262144 }
    ensures value { result ≡ sound.scale s g }
    ensures near { IsNear (2 ^ 33) result }
{
    product(s, g) >> 16
}

// A number as its high half and its low one, of 32 bits each.
fn halves(v: i64) -> (i32, u32)
    ensures { v ≡ result.0 *ℤ pos 4294967296 +ℤ pos result.1 }
{
    let high = v >> 32;
    (high as i32, (v - high * 4_294_967_296) as u32)
}

// The nearest number that 32 bits hold, of these halves: where all fits, the high half is the low one's sign.
fn nearest(high: i32, low: u32) -> i32
    ensures { result ≡ sound.clip (high *ℤ pos 4294967296 +ℤ pos low) }
{
    let sign = if low < 2_147_483_648 { 0 } else { -1 };
    if high > sign {
        i32::MAX
    } else if high < sign {
        i32::MIN
    } else {
        low.cast_signed()
    }
}

// A sample scaled by a gain and clipped. Comparing halves is cheap in vectors, which hold four of them.
pub(crate) fn clipped_sample(s: i32, g: u32) -> i32
    requires { g ≤ 262144 }
    ensures { result ≡ sound.clip (sound.scale s g) }
{
    let (high, low) = halves(scaled_sample(s, g));
    nearest(high, low)
}

// A sum with a scaled sample more.
pub(crate) fn added(sum: i64, s: i32, g: u32) -> i64
    requires near { IsNear (2 ^ 48) sum }
    requires quiet { g ≤ 262144 }
    ensures { result ≡ sum +ℤ sound.scale s g }
{
    sum + scaled_sample(s, g)
}

// A sum with a sample more that is scaled by one gain, rounded down, and then by another.
pub(crate) fn joined(sum: i64, s: i32, g: u32, side: u32) -> i64
    requires near { IsNear (2 ^ 48) sum }
    requires quiet { g ≤ 262144 }
    requires side { side ≤ 262144 }
    ensures { result ≡ sum +ℤ sound.scale (sound.scale s g) side }
{
    sum + scaled(scaled_sample(s, g), side)
}

// The high part of a sum and its low one, of 16 bits.
fn parts(sum: i64) -> (i32, u32)
    requires { IsNear (2 ^ 44) sum }
    ensures whole { sum ≡ result.0 *ℤ pos 65536 +ℤ pos result.1 }
    ensures high { IsNear (2 ^ 28) result.0 }
    ensures low { result.1 < 65536 }
{
    let high = sum >> 16;
    (high as i32, (sum - high * 65_536) as u32)
}

// The low part of a sum, scaled.
fn scaled_low(low: u32, g: u32) -> i64
    requires low { low < 65536 }
    requires quiet { g ≤ 65536 }
    ensures { result ≡ pos (low * g / 65536) }
{
    ((u64::from(low) * u64::from(g)) >> 16) as i64
}

// A sum scaled by a gain up to unity. Each part of it takes a product of 32 bits, which is cheap.
fn scaled_sum(sum: i64, g: u32) -> i64
    requires near { IsNear (2 ^ 44) sum }
    requires quiet { g ≤ 65536 }
    ensures value { result ≡ sound.scale sum g }
    ensures near { IsNear (2 ^ 44) result }
{
    let (high, low) = parts(sum);
    product(high, g) + scaled_low(low, g)
}

// A faded sample over what an opaque layer leaves of the sum below it.
pub(crate) fn covered(below: i64, s: i32, f: u32) -> i64
    requires near { IsNear (2 ^ 44) below }
    requires quiet { f ≤ 65536 }
    ensures { result ≡ sound.scale s f +ℤ sound.scale below (unity - f) }
{
    scaled_sample(s, f) + scaled_sum(below, UNITY - f)
}
