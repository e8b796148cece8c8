//! Values that are one of a few, as a text has them.
ghost use Rattle.std.specs.Prelude.{◌≡◌};
ghost use Rattle.ses_units.specs.Bits as units;
ghost use Rattle.session_walk.specs.Says as spec;

use ses_units::{Bits, Mode, Shape};

/// The word for a mode.
pub(crate) fn mode_word(mode: Mode) -> &'static str
    ensures { result.now ≡ spec.mode_word mode }
{
    match mode {
        Mode::Manual => "manual",
        Mode::Play => "play",
    }
}

/// The word for a shape.
pub(crate) fn shape_word(shape: Shape) -> &'static str
    ensures { result.now ≡ spec.shape_word shape }
{
    match shape {
        Shape::Linear => "linear",
        Shape::Slow => "slow",
    }
}

/// The number of bits.
pub(crate) fn bits_number(bits: Bits) -> u64
    ensures { result ≡ units.bits_of bits }
{
    match bits {
        Bits::B16 => 16,
        Bits::B24 => 24,
    }
}
