//! Canonical files of one channel, 16 bits and 48,000 frames a second, written by hand after RIFF WAVE.
use ses_io::NoMemory;
use std::alloc::Global;

const FORMAT: &[u8] = &[
    16, 0, 0, 0, 1, 0, 1, 0, 0x80, 0xbb, 0, 0, 0, 0x77, 1, 0, 2, 0, 16, 0,
];

// A header before so many bytes of sound.
fn header(alloc: Global, bytes: u16) -> Result<Vec<u8>, NoMemory> {
    let mut file = Vec::new(alloc);
    file.extend_from_slice(b"RIFF")?;
    file.extend_from_slice(&(36 + u32::from(bytes)).to_le_bytes())?;
    file.extend_from_slice(b"WAVEfmt ")?;
    file.extend_from_slice(FORMAT)?;
    file.extend_from_slice(b"data")?;
    file.extend_from_slice(&u32::from(bytes).to_le_bytes())?;
    Ok(file)
}

// The bytes of samples.
fn sound(alloc: Global, samples: &[u16]) -> Result<Vec<u8>, NoMemory> {
    let mut bytes = Vec::new(alloc);
    for sample in samples {
        bytes.extend_from_slice(&sample.to_le_bytes())?;
    }
    Ok(bytes)
}

/// A file of these samples.
pub fn wav(alloc: Global, samples: &[u16]) -> Result<Vec<u8>, NoMemory> {
    let sound = sound(alloc, samples)?;
    let Ok(bytes) = u16::try_from(sound.len()) else {
        return Err(NoMemory);
    };
    let mut file = header(alloc, bytes)?;
    file.extend_from_slice(&sound)?;
    Ok(file)
}
