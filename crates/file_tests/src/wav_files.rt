//! Worked values: heads that are read and refused, and samples both ways.

mod extensible;
mod heads;
mod lengths;
mod refusals;
mod samples;

ghost use Rattle.std.specs.Prelude.{◌≡◌, ℕ, ◌^◌, ◌<◌, List, length, take, drop, is_some, MatchResult};
ghost use Rattle.sound_model.specs.Wav.{head};
ghost use Rattle.wav_codec.specs.Info.{head_of};
ghost use Rattle.wav_codec.specs.Progress.{HasSize};
ghost use Rattle.wav_codec.specs.Refusal.{refusal_of};

pub(crate) use samples::BASE;
use wav_codec::{Scan, Step, WavInfo, WavRefusal};

// So many bytes of a file from a place on, fewer where it ends.
fn piece_of(file: &[u8], at: u64, count: u32) -> &[u8]
    requires { at < 2 ^ 33 }
    ensures { result.now ≡ take count (drop at file.now) }
{
    let from = (at as usize).min(file.len());
    let rest = &file[from..];
    &rest[..(count as usize).min(rest.len())]
}

// The head of a whole file in memory, given to a scan piece by piece, whose size is told to the scan or not.
fn read(size: Option<u64>, file: &[u8]) -> Result<WavInfo, WavRefusal>
    requires { HasSize size file.now }
    ensures { MatchResult result (λ info. head (is_some size) file.now ≡ Ok (head_of info))
        (λ refusal. head (is_some size) file.now ≡ Err (refusal_of refusal)) }
{
    let mut scan = Scan::new(size);
    loop {
        let want = scan.want();
        match scan.give(piece_of(file, want.at, want.length)) {
            Ok(Step::More(next)) => scan = next,
            Ok(Step::Done(info)) => return Ok(info),
            Err(refusal) => return Err(refusal),
        }
    }
}

/// The head of a mono file of 48,000 frames a second.
fn mono(bits: u16, data_at: u64, frames: u64) -> WavInfo
    ensures { result.bits ≡ bits }
{
    WavInfo {
        channels: 1,
        rate: 48_000,
        bits,
        data_at,
        frames,
    }
}
