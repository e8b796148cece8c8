//! How the master of a run begins and ends.
ghost use Rattle.std.specs.Prelude.{◌≡◌, false};
ghost use Rattle.run_end.specs.Started.{Started};
ghost use Rattle.engine_core.specs.UnderWay.{IsUnderWay, IsFresh, IsWritten};
ghost use Rattle.worker_pair.specs.Plays.{OnlyTheMaster};

use crate::run::Run;
use run_end::Failures;
use ses_io::{Media, Sink, Source};
use worker_pair::Pair;

impl<M: Media, I: Source, W: Sink> Run<M, I, W> {
    /// A run whose workers did nothing yet begins: the header of its master is written.
    pub fn begin(pair: Pair<M, I, W>) -> Run<M, I, W>
        ghost on: { Started M I W }
        requires { IsFresh M.outside I.outside W.outside on pair }
        ensures under_way { IsUnderWay M.outside I.outside W.outside on result }
        ensures only { OnlyTheMaster pair result.pair }
    {
        let mut pair = pair;
        let answer = pair.begin();
        Run {
            pair,
            failed: Failures::default().after_cycle(&answer),
        }
    }

    /// A run ends: silence is written for the cycles that weren't made, and the pad byte, unless a
    /// write of the master has failed.
    pub fn end(&mut self)
        ghost on: { Started M I W }
        requires { IsUnderWay M.outside I.outside W.outside on self.old }
        ensures written { IsWritten M.outside I.outside W.outside on self.old self.new }
    {
        if self.failed.master {
            return;
        }
        let answer = self.pair.silence();
        self.failed = self.failed.after_cycle(&answer);
    }
}
