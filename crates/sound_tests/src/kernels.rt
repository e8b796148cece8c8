//! Each kernel at lengths around a chunk of eight, with extreme values. What lies past the block stays.
ghost use Rattle.std.specs.Prelude.{◌≡◌, ◌^◌, ◌≤◌, length, replicate};
ghost use Rattle.mix_kernel.specs.Bounds.{IsNear, AllNear, AllAtMost};

use mix_kernel::{
    add_even, add_scaled, add_sides, clip_all, clip_file, lay_over, scale_block, scale_each,
};
use ses_units::{Bits, Gain};

const LENGTHS: [usize; 6] = [0, 1, 7, 8, 9, 4096];

const LOUDEST: i32 = i32::MAX;

const LOWEST: i32 = i32::MIN;

const NEAR: i64 = 1 << 44;

// Whether the first n are `want`, and the others as they were.
fn are(sums: &[i64; 4096], n: usize, want: i64, was: i64) -> bool {
    for (i, sum) in sums.iter().enumerate() {
        let due = if i < n { want } else { was };
        if *sum != due {
            return false;
        }
    }
    true
}

fn are_samples(samples: &[i32; 4096], n: usize, want: i32) -> bool {
    for (i, sample) in samples.iter().enumerate() {
        let due = if i < n { want } else { 7 };
        if *sample != due {
            return false;
        }
    }
    true
}

fn fill_all(sums: &mut [i64], sum: i64)
    ensures { sums.new ≡ replicate (length sums.old) sum }
{
    sums.fill(sum);
}

fn set_all(sums: &mut [i64], sum: i64)
    requires { IsNear (2 ^ 44) sum }
    ensures { AllNear (2 ^ 44) sums.new }
{
    fill_all(sums, sum);
}

fn sums_of(sum: i64) -> [i64; 4096]
    requires { IsNear (2 ^ 44) sum }
    ensures { AllNear (2 ^ 44) result }
{
    let mut sums = [0; 4096];
    set_all(&mut sums, sum);
    sums
}

fn gains_of(gain: u32) -> [u32; 4096]
    requires { gain ≤ 262144 }
    ensures { AllAtMost 262144 result }
{
    [gain; 4096]
}

fn fades_of(fade: u32) -> [u32; 4096]
    requires { fade ≤ 65536 }
    ensures { AllAtMost 65536 result }
{
    [fade; 4096]
}

fn adds(n: usize, sum: i64, sample: i32, gain: u32, want: i64) -> bool
    requires room { n ≤ 4096 }
    requires near { IsNear (2 ^ 44) sum }
    requires quiet { gain ≤ 262144 }
{
    let mut sums = sums_of(sum);
    let samples = [sample; 4096];
    let gains = gains_of(gain);
    add_scaled(&mut sums[..n], &samples[..n], &gains[..n]);
    are(&sums, n, want, sum)
}

fn adds_evenly(n: usize, sum: i64, sample: i32, gain: Gain, want: i64) -> bool
    requires room { n ≤ 4096 }
    requires near { IsNear (2 ^ 44) sum }
{
    let mut sums = sums_of(sum);
    let samples = [sample; 4096];
    add_even(&mut sums[..n], &samples[..n], gain);
    are(&sums, n, want, sum)
}

// Whether the first n frames of two channels are `want`, and the others as they were.
fn are_sides(sums: &[i64; 4096], n: usize, want: [i64; 2], was: i64) -> bool {
    for (i, sum) in sums.iter().enumerate() {
        let due = if i / 2 < n { want[i % 2] } else { was };
        if *sum != due {
            return false;
        }
    }
    true
}

fn joins(n: usize, sum: i64, sample: i32, gains: [Gain; 3], want: [i64; 2]) -> bool
    requires room { n ≤ 2048 }
    requires near { IsNear (2 ^ 44) sum }
{
    let mut sums = sums_of(sum);
    let samples = [sample; 4096];
    let [gain, left, right] = gains;
    add_sides(&mut sums[..2 * n], &samples[..n], gain, left, right);
    are_sides(&sums, n, want, sum)
}

fn lays(n: usize, sum: i64, sample: i32, fade: u32, opaque: bool, want: i64) -> bool
    requires room { n ≤ 4096 }
    requires near { IsNear (2 ^ 44) sum }
    requires quiet { fade ≤ 65536 }
{
    let mut sums = sums_of(sum);
    let samples = [sample; 4096];
    let fades = fades_of(fade);
    lay_over(&mut sums[..n], &samples[..n], &fades[..n], opaque);
    are(&sums, n, want, sum)
}

fn clips(n: usize, sum: i64, want: i32) -> bool
    requires { n ≤ 4096 }
{
    let sums = [sum; 4096];
    let mut out = [7; 4096];
    clip_all(&sums[..n], &mut out[..n]);
    are_samples(&out, n, want)
}

fn scales(n: usize, sample: i32, gain: Gain, want: i32) -> bool
    requires { n ≤ 4096 }
{
    let samples = [sample; 4096];
    let mut out = [7; 4096];
    scale_block(&samples[..n], gain, &mut out[..n]);
    are_samples(&out, n, want)
}

fn scales_each(n: usize, sample: i32, gain: u32, want: i32) -> bool
    requires room { n ≤ 4096 }
    requires quiet { gain ≤ 262144 }
{
    let samples = [sample; 4096];
    let gains = gains_of(gain);
    let mut out = [7; 4096];
    scale_each(&samples[..n], &gains[..n], &mut out[..n]);
    are_samples(&out, n, want)
}

fn files(n: usize, sample: i32, bits: Bits, want: i32) -> bool
    requires { n ≤ 4096 }
{
    let samples = [sample; 4096];
    let mut out = [7; 4096];
    clip_file(&samples[..n], bits, &mut out[..n]);
    are_samples(&out, n, want)
}

fn gain(n: u32) -> Gain {
    Gain::new(n).unwrap_or(Gain::UNITY)
}

#[test]
fn sums_of_two_channels_take_one(rt: HostRuntime) {
    let loud = gain(262_144);
    for n in LENGTHS {
        let n = n.min(2_048);
        assert!(rt; joins(n, 5, -3, [gain(32_768), gain(65_536), gain(32_768)], [3, 4]));
        assert!(rt;
            joins(
                n,
                0,
                LOUDEST,
                [loud, loud, gain(1)],
                [34_359_738_352, 131_071]
            )
        );
        assert!(rt;
            joins(
                n,
                0,
                LOWEST,
                [loud, gain(1), loud],
                [-131_072, -34_359_738_368]
            )
        );
    }
}

#[test]
fn sums_take_scaled_samples(rt: HostRuntime) {
    for n in LENGTHS {
        assert!(rt; adds(n, 0, -1, 32_768, -1));
        assert!(rt; adds(n, 0, 1, 32_768, 0));
        assert!(rt; adds(n, -NEAR, LOWEST, 262_144, -17_600_775_979_008));
        assert!(rt; adds(n, NEAR, LOUDEST, 262_144, 17_600_775_979_004));
        assert!(rt; adds(n, 5, LOUDEST, 65_535, 2_147_450_884));
        assert!(rt; adds_evenly(n, 0, -1, gain(32_768), -1));
        assert!(rt; adds_evenly(n, NEAR, LOUDEST, gain(262_144), 17_600_775_979_004));
        assert!(rt; adds_evenly(n, -NEAR, LOWEST, gain(1), -17_592_186_077_184));
    }
}

#[test]
fn a_layer_covers_or_joins_what_lies_below(rt: HostRuntime) {
    for n in LENGTHS {
        assert!(rt; lays(n, 204_800, 102_400, 16_384, true, 179_200));
        assert!(rt; lays(n, 204_800, 102_400, 16_384, false, 230_400));
        assert!(rt; lays(n, -NEAR, LOWEST, 65_536, true, -2_147_483_648));
        assert!(rt; lays(n, -NEAR, LOWEST, 0, true, -17_592_186_044_416));
        assert!(rt; lays(n, NEAR, LOUDEST, 65_535, true, 2_415_886_335));
        assert!(rt; lays(n, NEAR, LOUDEST, 65_536, false, 17_594_333_528_063));
    }
}

#[test]
fn blocks_are_clipped_scaled_and_filed(rt: HostRuntime) {
    for n in LENGTHS {
        assert!(rt; clips(n, NEAR, LOUDEST));
        assert!(rt; clips(n, -NEAR, LOWEST));
        assert!(rt; clips(n, -2_147_483_648, LOWEST));
        assert!(rt; scales_each(n, -1, 32_768, -1));
        assert!(rt; scales_each(n, LOUDEST, 65_536, LOUDEST));
        assert!(rt; scales_each(n, LOUDEST, 65_537, LOUDEST));
        assert!(rt; scales_each(n, LOWEST, 65_536, LOWEST));
        assert!(rt; scales_each(n, LOWEST, 262_144, LOWEST));
        assert!(rt; scales_each(n, 8_388_607, 262_144, 33_554_428));
        assert!(rt; scales(n, -3, gain(32_768), -2));
        assert!(rt; scales(n, LOWEST, gain(262_144), LOWEST));
        assert!(rt; scales(n, LOUDEST, gain(65_535), 2_147_450_879));
        assert!(rt; files(n, -1, Bits::B16, -1));
        assert!(rt; files(n, LOUDEST, Bits::B16, 32_767));
        assert!(rt; files(n, LOWEST, Bits::B24, -8_388_608));
    }
}
