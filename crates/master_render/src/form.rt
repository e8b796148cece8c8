//! The form of a session's master.
ghost use Rattle.std.specs.Prelude.{◌≡◌, ◌⊎◌, ◌≤◌, ◌/◌};
ghost use Rattle.ses_units.specs.Bits.{bits_of};
ghost use Rattle.session_model.specs.Valid.{IsValid};
ghost use Rattle.engine_model.specs.Played.{master_channels, master_form};
ghost use Rattle.wav_codec.specs.Form.{written_form};

use ses_units::Bits;
use session_model::Session;
use wav_codec::WavForm;

/// The samples of a frame of the master.
pub(crate) fn width(s: &Session) -> usize
    requires { IsValid s.now }
    ensures width { result ≡ master_channels s.now }
    ensures some { (result ≡ 1) ⊎ (result ≡ 2) }
    ensures least { 1 ≤ result }
    ensures most { result ≤ 2 }
{
    let routes = s.routes.as_slice();
    routes[routes.len() - 1].channels as usize
}

/// The bytes of a sample.
pub(crate) fn sample_size(bits: Bits) -> usize
    ensures size { result ≡ bits_of bits / 8 }
    ensures most { result ≤ 3 }
{
    match bits {
        Bits::B16 => 2,
        Bits::B24 => 3,
    }
}

/// The form of the file of the master.
pub(crate) fn form_of(s: &Session) -> WavForm
    requires { IsValid s.now }
    ensures form { written_form result ≡ master_form s.now }
    ensures least { 1 ≤ result.channels }
    ensures most { result.channels ≤ 2 }
{
    WavForm {
        channels: width(s) as u16,
        rate: s.rate,
        bits: s.bits,
    }
}
