//! What rolls, from which place, and round which loop: the place of frame n is the target plus n, and from the end of a
//! loop on it goes round the loop.
ghost use Rattle.std.specs.Prelude.{◌≡◌, ◌+◌, ◌<◌, ◌^◌};
ghost use Rattle.engine_model.specs.Transport.{at_rest, place_of};
ghost use Rattle.locate_loop.specs.Transport.{transport_of, IsTransport};

/// A loop: the places from `from` to before `to` are played again and again (Ardour's manual).
#[derive(Clone, Copy, Debug, PartialEq, Eq)]
pub struct Wrap {
    /// The first place.
    pub from: u64,
    /// The place after the last.
    pub to: u64,
}

/// The state of the transport. Places are counted in frames.
#[derive(Clone, Copy, Debug, PartialEq, Eq)]
pub struct Transport {
    /// Whether it rolls.
    pub rolling: bool,
    /// Whether armed tracks record while it rolls.
    pub recording: bool,
    /// How often a place was located, a loop begun or ended.
    pub generation: u32,
    /// The place of the generation's first frame, below 2^40.
    pub target: u64,
    /// The loop in force; its end is below 2^40.
    pub wrap: Option<Wrap>,
    /// Whether the run was told to end.
    pub quit: bool,
}

impl Transport {
    /// That of a run's begin: stopped at place 0.
    pub fn at_rest() -> Transport
        ensures value { transport_of result ≡ at_rest }
        ensures bounds { IsTransport result }
    {
        Transport {
            rolling: false,
            recording: false,
            generation: 0,
            target: 0,
            wrap: None,
            quit: false,
        }
    }

    /// The place of frame `n` of the generation.
    pub fn place(&self, n: u64) -> u64
        requires bounds { IsTransport self.now }
        requires frame { n < 2 ^ 30 }
        ensures { result ≡ place_of (transport_of self.now) n }
    {
        let straight = self.target + n;
        match self.wrap {
            Some(w) if self.target < w.to && straight >= w.to => {
                w.from + (straight - w.to) % (w.to - w.from)
            }
            _ => straight,
        }
    }
}
