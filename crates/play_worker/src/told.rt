//! What no code holds and clauses speak of, carried beside a worker into its thread.
ghost use Rattle.std.specs.Prelude.{◌≡◌};

use ses_io::{Sink, Source};
use session_model::Session;
use std::snapshot::Snapshot;

/// What the process was given at first. It has no bytes. A closure's clause names only what the closure has, so such a value has to be
/// in something that moves.
#[derive(Drop)]
pub struct Told<I: Source, W: Sink> {
    pub session: Snapshot<Session>,
    pub input: Snapshot<I>,
    pub sink: Snapshot<W>,
}

impl<I: Source, W: Sink> Told<I, W> {
    /// These, as they are now.
    pub fn of(session: &Session, input: &I, sink: &W) -> Told<I, W>
        ensures session { result.session.value ≡ session.now }
        ensures input { result.input.value ≡ input.now }
        ensures sink { result.sink.value ≡ sink.now }
    {
        Told {
            session: Snapshot::of(session),
            input: Snapshot::of(input),
            sink: Snapshot::of(sink),
        }
    }
}
