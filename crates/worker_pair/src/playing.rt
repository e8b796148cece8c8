//! What the process does: it begins the master, looks at each track, makes a cycle, and ends the
//! master.
ghost use Rattle.std.specs.Prelude.{◌≡◌, true, [], length, IfErr, OnOk};
ghost use Rattle.ses_io.specs.Outside.{Writes};
ghost use Rattle.master_blocks.specs.Bytes.{head_bytes, end_bytes};
ghost use Rattle.process_cycle.specs.declared.fault.CycleFault.TheVariants.{MasterFault};
ghost use Rattle.process_ends.specs.Ends.{MayMeetPlays};
ghost use Rattle.process_cycle.specs.Looked.{HasLooked};
ghost use Rattle.process_cycle.specs.Playing.{IsPlaying};
ghost use Rattle.process_cycle.specs.ProcessState.{Playing};
ghost use Rattle.process_cycle.specs.Promised.{IsMastered};
ghost use Rattle.worker_pair.specs.Begun.{At, headed, looked, playing_at};
ghost use Rattle.worker_pair.specs.Runs.{HearsInput, Rests, Runs};
ghost use Rattle.worker_pair.specs.Steps.{EndsAsMachine, LooksAsMachine};
ghost use Rattle.worker_pair.specs.Plays.{Cycles, Looks, MayCycle, MeetsAfter, OnlyTheMaster};

use crate::pair::Pair;
use process_cycle::CycleFault;
use ses_io::{Media, Sink, Source};

impl<M: Media, I: Source, W: Sink> Pair<M, I, W> {
    /// Writes the header of the master. Its one fault is MasterFault.
    pub fn begin(&mut self) -> Result<(), CycleFault>
        ghost at: { At }
        requires runs { Runs M.outside I.outside W.outside at self.old }
        requires none { self.old.process.journal.items ≡ [] }
        requires before { W.outside.held self.old.process.master.sink ≡ at.begun.before }
        ensures runs { OnOk result (Runs M.outside I.outside W.outside (headed at) self.new) }
        ensures rests { Rests M.outside at self.new }
        ensures writes { Writes W.outside
            (head_bytes at.begun.session self.old.process.journal.room)
            self.old.process.master.sink self.new.process.master.sink result }
        ensures same { OnlyTheMaster self.old self.new }
        ensures fault { IfErr result (λ why. why ≡ MasterFault) }
    {
        self.process.begin()
    }

    /// One look of the process at each track in the edition that it entered, where a cycle is
    /// open, and a meeting of the ends.
    pub fn look(&mut self)
        ghost at: { At }
        requires runs { Runs M.outside I.outside W.outside at self.old }
        requires in_cycle { self.old.in_cycle ≡ true }
        ensures runs { Runs M.outside I.outside W.outside
            (looked self.old.playing.edits at) self.new }
        ensures looked { HasLooked (playing_at (looked self.old.playing.edits at))
            self.new.process }
        ensures looks { Looks self.old self.new }
        ensures as_machine { LooksAsMachine at.begun.session self.old self.new }
    {
        self.process.look(&self.playing);
        self.meet();
    }

    // The ends of playback rings tell each other what they know. Nothing else changes.
    fn meet(&mut self)
        ghost at: { Playing }
        requires { MayMeetPlays self.old.process.ends self.old.butler.ends }
        ensures same { self.new ≡ record self.old
            { butler = self.new.butler; process = self.new.process } }
        ensures meets { MeetsAfter self.old self.old.process self.new }
        ensures playing { IsPlaying I.outside at self.old.process
            → IsPlaying I.outside at self.new.process }
        ensures looked { HasLooked at self.old.process → HasLooked at self.new.process }
        ensures master { IsMastered W.outside at self.old.process
            → IsMastered W.outside at self.new.process }
    {
        self.butler.meet_plays(&mut self.process);
    }

    /// One cycle of the process in the edition of its last look, and a meeting of the ends. After a
    /// fault no entry is made. No cycle is open after it.
    pub fn cycle(&mut self) -> Result<(), CycleFault>
        ghost at: { At }
        requires { MayCycle M.outside I.outside W.outside at self.old }
        ensures runs { OnOk result (Runs M.outside I.outside W.outside at self.new) }
        ensures rests { Rests M.outside at self.new }
        ensures hears { HearsInput I.outside at self.new }
        ensures cycles { Cycles I.outside W.outside at self.old result self.new }
        ensures as_machine { EndsAsMachine at.begun.session self.old result self.new }
    {
        let answer = self.process.cycle(&self.playing);
        self.butler.meet(&mut self.process);
        self.in_cycle = false;
        answer
    }

    /// Writes silence for the cycles that weren't made, and the pad byte. Its one fault is
    /// MasterFault.
    pub fn silence(&mut self) -> Result<(), CycleFault>
        ghost at: { At }
        requires { Rests M.outside at self.old }
        ensures rests { Rests M.outside at self.new }
        ensures writes { Writes W.outside (end_bytes at.begun.session self.old.process.journal.room
            (length self.old.process.journal.items))
            self.old.process.master.sink self.new.process.master.sink result }
        ensures same { OnlyTheMaster self.old self.new }
        ensures fault { IfErr result (λ why. why ≡ MasterFault) }
    {
        self.process.silence()
    }
}
