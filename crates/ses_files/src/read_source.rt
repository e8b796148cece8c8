//! Any reader of std as a source, as standard input.
ghost use Rattle.std.specs.Prelude.{◌≡◌};

use crate::counted::counted;
use crate::tries;
use ses_io::{Failed, Source};
use std::io::Read;
use std::marker::Model;

/// A reader, which contracts see as its count of faults.
#[derive(Drop)]
pub struct ReadSource<T> {
    reader: T,
    faults: u64,
}

impl<T> Model for ReadSource<T> {
    ghost use Rattle.std.specs.Prelude.{ℕ};

    ghost Value = { ℕ };

    ghost view = { λ s. s.faults };
}

impl<T> ReadSource<T> {
    pub fn new(reader: T) -> ReadSource<T>
        ensures { result ≡ 0 }
    {
        ReadSource { reader, faults: 0 }
    }
}

impl<T: Read + Drop> Source for ReadSource<T> {
    ghost use Rattle.std.specs.Prelude.{[]};

    ghost outside = { record {
      tells = ⊥;
      left = λ _. [];
      faults = λ s. s;
    } };

    fn read(&mut self, buf: &mut [u8]) -> Result<usize, Failed> {
        let result = tries::read(&mut self.reader, buf);
        counted(&mut self.faults, result)
    }
}
