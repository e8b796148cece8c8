//! The file of the source: 4,096 frames, mono, that rise from 0 to 127 again and again.
ghost use Rattle.std.specs.Prelude.{◌≡◌, IfOk};
ghost use Rattle.sound_model.specs.Wav.{sound_bytes};
ghost use Rattle.made_session.specs.Tone as spec;

use ses_io::NoMemory;
use ses_units::Bits;
use sound_laws::{written_head_is_read, written_sound_is_read};
use std::alloc::Global;
use wav_codec::{WavForm, canon_is_header_and_sound, encode, header};

const FRAMES: u16 = 4_096;

// A sample, at 24-bit scale.
fn sample(i: u16) -> i32
    ensures { result ≡ spec.tone_sample i }
{
    256 * i32::from(i % 128)
}

fn samples(alloc: Global) -> Result<Vec<i32>, NoMemory>
    ensures { IfOk result (λ v. v.items ≡ spec.tone_samples) }
{
    let mut samples = Vec::new(alloc);
    for i in 0..FRAMES {
        samples.push(sample(i))?;
    }
    Ok(samples)
}

// The bytes of the samples.
fn sound(alloc: Global) -> Result<Vec<u8>, NoMemory>
    ensures { IfOk result (λ v. v.items ≡ sound_bytes 16 spec.tone_samples) }
{
    let samples = samples(alloc)?;
    let mut bytes = vec![in alloc; 0; 2 * FRAMES as usize]?;
    encode(samples.as_slice(), Bits::B16, bytes.as_mut_slice());
    Ok(bytes)
}

/// The bytes of the file of the source of a session that is made from a number. Err is want of memory.
#[tactic(auto, unfolding(crate::specs::Tone::tone))]
pub fn tone(alloc: Global) -> Result<Vec<u8>, NoMemory>
    ensures { IfOk result (λ bytes. bytes.items ≡ spec.tone) }
{
    let form = WavForm {
        channels: 1,
        rate: 48_000,
        bits: Bits::B16,
    };
    let sound = sound(alloc)?;
    canon_is_header_and_sound();
    let mut bytes = Vec::new(alloc);
    bytes.extend_from_slice(&header(&form, u64::from(FRAMES)))?;
    bytes.extend_from_slice(sound.as_slice())?;
    Ok(bytes)
}

/// Frame i of it is the 16-bit sample `i mod 128`, and past its 4,096 frames there is silence.
pub fn tone_sounds()
    ensures { spec.ToneSounds }
{
    written_head_is_read();
    written_sound_is_read();
}
