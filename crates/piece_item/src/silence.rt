//! Samples of nothing.
ghost use Rattle.std.specs.Prelude.{◌≡◌, IfOk};
ghost use Rattle.piece_item.specs.Silence.{silence_of};

use ses_io::NoMemory;
use session_model::Samples;
use std::alloc::Global;

/// So many samples, all of them 0, in a list that is full.
pub(crate) fn silence(alloc: Global, count: u32) -> Result<Samples, NoMemory>
    ensures { IfOk result (λ samples. samples ≡ silence_of count) }
{
    let mut samples = Samples::new(alloc, count)?;
    for made in 0..count {
        samples.push(0);
    }
    Ok(samples)
}
