//! The two workers of a run between two letters, and what has failed.
ghost use Rattle.std.specs.Prelude.{◌≡◌};
ghost use Rattle.engine_core.specs.Now.{is_played_out};

use run_end::Failures;
use ses_io::{Media, Sink, Source};
use worker_pair::Pair;

/// A run on one thread.
pub struct Run<M: Media, I: Source, W: Sink> {
    pub pair: Pair<M, I, W>,
    pub failed: Failures,
}

impl<M: Media, I: Source, W: Sink> Run<M, I, W> {
    /// Whether no further cycle can run: all that were asked are made, the process has entered a
    /// quit, or it has stopped.
    pub fn is_played_out(&self) -> bool
        ensures { result ≡ is_played_out self.now }
    {
        let journal = self.pair.process.journal();
        self.failed.has_stopped()
            || journal.entries().len() >= journal.room() as usize
            || self.pair.playing.transport().quit
    }
}
