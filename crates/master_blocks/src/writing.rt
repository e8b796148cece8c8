//! Bytes of a master's file that are no block of an entry: its header, silence, and a pad byte.
ghost use Rattle.std.specs.Prelude.{◌≡◌, ◌*◌, ◌/◌, ◌≤◌, length, replicate};
ghost use Rattle.ses_io.specs.Outside.{Writes};
ghost use Rattle.ses_units.specs.Bits.{bits_of};
ghost use Rattle.session_model.specs.Valid.{IsValid};
ghost use Rattle.engine_model.specs.Played.{master_form};
ghost use Rattle.wav_codec.specs.Form.{written_form};

use ses_io::{Failed, Sink, write_all};
use ses_units::Bits;
use session_model::Session;
use wav_codec::WavForm;

/// The form of a session's master.
pub(crate) fn form_of(s: &Session) -> WavForm
    requires { IsValid s.now }
    ensures { written_form result ≡ master_form s.now }
{
    let routes = s.routes.as_slice();
    WavForm {
        channels: routes[routes.len() - 1].channels,
        rate: s.rate,
        bits: s.bits,
    }
}

/// The bytes of a sample.
pub(crate) fn sample_size(bits: Bits) -> usize
    ensures size { result ≡ bits_of bits / 8 }
    ensures most { result ≤ 3 }
{
    match bits {
        Bits::B16 => 2,
        Bits::B24 => 3,
    }
}

/// Writes a block of zeros so many times.
pub(crate) fn write_zeros<W: Sink>(zeros: &[u8], blocks: u32, sink: &mut W) -> Result<(), Failed>
    requires zeros { zeros.now ≡ replicate (length zeros.now) 0 }
    ensures { Writes W.outside (replicate (blocks * length zeros.now) 0) sink.old sink.new result }
{
    for _block in 0..blocks {
        write_all(sink, zeros)?;
    }
    Ok(())
}
