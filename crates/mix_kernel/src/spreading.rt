//! One gain for each frame of a block, put at each of the frame's channels.
ghost use Rattle.std.specs.Prelude.{◌≡◌, ◌%◌, ◌⊎◌, length, slice_index};
ghost use Rattle.mix_kernel.specs.Blocks.{spread};

/// Puts each frame's gain, which stand one after another from the first place on, at each of the frame's channels.
pub fn spread(gains: &mut [u32], channels: u16)
    requires channels { (channels ≡ 1) ⊎ (channels ≡ 2) }
    requires whole { length gains.old % channels ≡ 0 }
    ensures { gains.new ≡ spread (slice_index gains.old) channels (length gains.old) }
{
    if channels == 1 {
        return;
    }
    let mut i = gains.len() / 2;
    while i > 0 {
        i -= 1;
        let gain = gains[i];
        gains[2 * i] = gain;
        gains[2 * i + 1] = gain;
    }
}
