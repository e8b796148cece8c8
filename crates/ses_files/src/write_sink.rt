//! Any writer of std as a sink, as standard output.
ghost use Rattle.std.specs.Prelude.{◌≡◌};

use crate::counted::counted;
use crate::tries;
use ses_io::{Failed, Sink};
use std::io::Write;
use std::marker::Model;

/// A writer, which contracts see as its count of faults. It is never flushed, so one that keeps
/// bytes back doesn't serve.
#[derive(Drop)]
pub struct WriteSink<T> {
    writer: T,
    faults: u64,
}

impl<T> Model for WriteSink<T> {
    ghost use Rattle.std.specs.Prelude.{ℕ};

    ghost Value = { ℕ };

    ghost view = { λ s. s.faults };
}

impl<T> WriteSink<T> {
    pub fn new(writer: T) -> WriteSink<T>
        ensures { result ≡ 0 }
    {
        WriteSink { writer, faults: 0 }
    }
}

impl<T: Write + Drop> Sink for WriteSink<T> {
    ghost use Rattle.std.specs.Prelude.{[]};

    ghost outside = { record {
      tells = ⊥;
      held = λ _. [];
      faults = λ s. s;
    } };

    fn write(&mut self, bytes: &[u8]) -> Result<usize, Failed> {
        let result = tries::write(&mut self.writer, bytes);
        counted(&mut self.faults, result)
    }
}
