//! The 44 bytes before the sound of a file that is written.

ghost use Rattle.std.specs.Prelude.{◌≡◌, ◌<◌, ◌≤◌, ◌+◌, ◌*◌, ◌%◌, ◌^◌, ◌++◌, ℕ, ℤ, List, length, replicate};
ghost use Rattle.ses_units.specs.Bits.{bits_of};
ghost use Rattle.sound_model.specs.Wav.{Form, align, header, sound_bytes, canon};
ghost use Rattle.wav_codec.specs.Form.{written_form, data_bytes};

use crate::form::WavForm;
use ses_units::Bits;

/// The bytes before the sound of a file of this form that has so many frames (RIFF WAVE, PCM).
#[tactic(auto, unfolding(sound_model::specs::Wav::header))]
pub fn header(form: &WavForm, frames: u64) -> [u8; 44]
    requires one_channel { 1 ≤ form.now.channels }
    requires eight_channels { form.now.channels ≤ 8 }
    requires slowest { 8000 ≤ form.now.rate }
    requires fastest { form.now.rate ≤ 192000 }
    requires size { 36 + data_bytes form.now frames + data_bytes form.now frames % 2 < 2 ^ 32 }
    ensures { result ≡ header (written_form form.now) (data_bytes form.now frames) }
{
    let align = form.channels * width(form.bits);
    let bytes = (frames * u64::from(align)) as u32;
    let [r0, r1, r2, r3] = (36 + bytes + bytes % 2).to_le_bytes();
    let [c0, c1] = form.channels.to_le_bytes();
    let [f0, f1, f2, f3] = form.rate.to_le_bytes();
    let [s0, s1, s2, s3] = (form.rate * u32::from(align)).to_le_bytes();
    let [a0, a1] = align.to_le_bytes();
    let [b0, b1] = (8 * width(form.bits)).to_le_bytes();
    let [d0, d1, d2, d3] = bytes.to_le_bytes();
    [
        b'R', b'I', b'F', b'F', r0, r1, r2, r3, b'W', b'A', b'V', b'E', b'f', b'm', b't', b' ', 16,
        0, 0, 0, 1, 0, c0, c1, f0, f1, f2, f3, s0, s1, s2, s3, a0, a1, b0, b1, b'd', b'a', b't',
        b'a', d0, d1, d2, d3,
    ]
}

/// A file that is written is its header, the bytes of its samples, which are whole frames, and a
/// pad byte where these bytes are odd.
#[tactic(auto, unfolding(sound_model::specs::Wav::canon))]
pub fn canon_is_header_and_sound()
    ensures { (form : Form) (frames : ℕ) (samples : List ℤ)
        → length samples ≡ frames * form.channels
        → canon form samples ≡ header form (frames * align form)
        ++ sound_bytes form.bits samples ++ replicate (frames * align form % 2) 0 }
{}

// The bytes of a sample.
fn width(bits: Bits) -> u16
    ensures { 8 * result ≡ bits_of bits }
{
    match bits {
        Bits::B16 => 2,
        Bits::B24 => 3,
    }
}
