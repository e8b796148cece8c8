//! A gain in 16.16 fixed point: 65,536 is unity, and 262,144 is the loudest.
ghost use Rattle.std.specs.Prelude.{◌≡◌, ℕ, ◌≤◌, ◌<◌, ◌↔◌, IfOk, IsErr};
ghost use Rattle.sound_model.specs.Numbers.{unity};

use crate::limits::LOUDEST;
use std::marker::Model;
use thiserror::Error;

/// How much a sample is scaled, in 65,536ths, from 0 to 262,144 (own).
#[derive(Clone, Copy, Debug, PartialEq, Eq)]
pub struct Gain {
    number: u32,
}

/// A number above the loudest gain.
#[derive(Clone, Copy, Debug, PartialEq, Eq, Error)]
#[error("a gain is at most 262144")]
pub struct TooLoud;

impl Model for Gain {
    ghost Value = { ℕ };

    ghost view = { λ g. g.number };

    ghost invariant = { λ g. g.number ≤ 262144 };

    ghost inverse = { λ n. record { number = n } };
}

impl Gain {
    /// The gain that leaves a sample as it is.
    pub const UNITY: Gain = Gain { number: 65_536 };

    /// `UNITY`, which is the unity of the definitions.
    pub fn unity() -> Gain
        ensures { result ≡ unity }
    {
        Gain::UNITY
    }

    /// The gain of so many 65,536ths, at most 262,144.
    pub fn new(n: u32) -> Result<Gain, TooLoud>
        ensures value { IfOk result (λ gain. gain ≡ n) }
        ensures loud { IsErr result ↔ (262144 < n) }
    {
        if n <= LOUDEST {
            Ok(Gain { number: n })
        } else {
            Err(TooLoud)
        }
    }

    /// The number of 65,536ths.
    pub fn value(&self) -> u32
        ensures value { result ≡ self.now }
        ensures bound { self.now ≤ 262144 }
    {
        self.number
    }
}
