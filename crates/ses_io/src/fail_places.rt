//! The files and places at which a media in memory fails.
ghost use Rattle.std.specs.Prelude.{◌≡◌, [], ◌∷◌, ◌++◌, IfOk, OnOk, OnErr};
ghost use Rattle.ses_io.specs.Stored.{covers, fails_at};

use crate::NoMemory;
use std::alloc::Global;
use std::marker::Model;

/// From this place on calls on the file fail; the empty name stands for every file.
#[derive(Drop)]
struct FailPlace {
    name: String,
    from: u64,
}

impl Model for FailPlace {
    ghost use Rattle.std.specs.Prelude.{string_bytes};
    ghost use Rattle.ses_io.specs.Stored.{FailPlace as Place};

    ghost Value = { Place };

    ghost view = { λ p. record { name = string_bytes p.name; from = p.from } };
}

impl FailPlace {
    fn new(alloc: Global, name: &str, from: u64) -> Result<FailPlace, NoMemory>
        ensures { IfOk result (λ p. p ≡ record { name = name.now; from = from }) }
    {
        Ok(FailPlace {
            name: String::from_str(alloc, name)?,
            from,
        })
    }

    fn covers(&self, name: &str, at: u64) -> bool
        ensures { result ≡ covers self.now name.now at }
    {
        (self.name.is_empty() || self.name.as_str() == name) && self.from <= at
    }
}

/// The places, in the order that they were given.
#[derive(Drop)]
pub(crate) struct FailPlaces {
    places: Vec<FailPlace>,
}

impl Model for FailPlaces {
    ghost use Rattle.std.specs.Prelude.{List};
    ghost use Rattle.ses_io.specs.Stored.{FailPlace as Place};

    ghost Value = { List Place };

    ghost view = { λ p. p.places.items };
}

impl FailPlaces {
    pub(crate) fn new(alloc: Global) -> FailPlaces
        ensures { result ≡ [] }
    {
        FailPlaces {
            places: Vec::new(alloc),
        }
    }

    pub(crate) fn add(&mut self, alloc: Global, name: &str, from: u64) -> Result<(), NoMemory>
        ensures ok { OnOk result
            (self.new ≡ self.old ++ record { name = name.now; from = from } ∷ []) }
        ensures err { OnErr result (self.new ≡ self.old) }
    {
        self.places.push(FailPlace::new(alloc, name, from)?)?;
        Ok(())
    }

    /// Whether a call on that file at that place fails.
    pub(crate) fn cover(&self, name: &str, at: u64) -> bool
        ensures { result ≡ fails_at self.now name.now at }
    {
        self.places.iter().any(|p| p.covers(name, at))
    }
}
