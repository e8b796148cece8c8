//! How a process begins its master, makes a cycle, and ends its master.
ghost use Rattle.std.specs.Prelude.{◌≡◌, ◌<◌, ◌≤◌, [], ◌∷◌, ◌++◌, length, IfOk, IfErr, OnOk, OnErr};
ghost use Rattle.ses_io.specs.Outside.{Writes};
ghost use Rattle.session_model.specs.declared.session.Session.{Session as Opening};
ghost use Rattle.master_blocks.specs.State.{IsMasterOf};
ghost use Rattle.master_blocks.specs.Bytes.{head_bytes, end_bytes};
ghost use Rattle.process_cycle.specs.declared.fault.CycleFault.TheVariants.{MasterFault};
ghost use Rattle.process_cycle.specs.ProcessState.{Playing, position_of};
ghost use Rattle.process_cycle.specs.Promised.{IsMastered};
ghost use Rattle.process_cycle.specs.Playing.{IsPlaying};
ghost use Rattle.process_cycle.specs.Cycles.{Acknowledges, CycleReads, CycleWrites, HasStopped, MakesEntry, MayCycle, block_after, next_bytes};
ghost use Rattle.process_cycle.specs.Making.{Cycling, IsCycleOf, IsMade, done};
ghost use Rattle.process_cycle.specs.Noting.{MayPutAck, NotesOnly, told_of};

use crate::capturing::capture_all;
use crate::fault::CycleFault;
use crate::position::{ack_of, block_after, rolls};
use crate::process::Process;
use crate::putting::write_block;
use cycle_journal::Entry;
use edition_log::Edition;
use ses_io::{Sink, Source};
use track_playback::{PlayPosition, entry};

impl<I: Source, W: Sink> Process<I, W> {
    /// Writes the header of the master, for all cycles that are asked for. It takes no memory. Its
    /// one fault is MasterFault.
    pub fn begin(&mut self) -> Result<(), CycleFault>
        ghost at: { Playing }
        requires playing { IsPlaying I.outside at self.old }
        requires first { length self.old.journal.items ≡ 0 }
        requires before { W.outside.tells → W.outside.held self.old.master.sink ≡ at.before }
        ensures writes { Writes W.outside (head_bytes at.session self.old.journal.room)
            self.old.master.sink self.new.master.sink result }
        ensures same { self.new ≡ record self.old {
          master = record self.old.master
              { sink = self.new.master.sink };
        } }
        ensures playing { IsPlaying I.outside at self.new }
        ensures master { OnOk result (IsMastered W.outside at self.new) }
        ensures fault { IfErr result (λ why. why ≡ MasterFault) }
    {
        self.master.begin(self.journal.room())?;
        Ok(())
    }

    /// One cycle in the edition of the last look: a block of the input is read, the pieces that
    /// were received are mixed and written to the master, the tracks that are recorded are
    /// captured, the entry is noted, and butler and control are told. After a fault no entry is
    /// made and nothing is captured; an InputFault comes before a MasterFault. It takes no memory and
    /// waits for no other worker; its read of the input and its write of the master may take long.
    pub fn cycle(&mut self, e: &Edition) -> Result<(), CycleFault>
        ghost at: { Playing }
        requires { MayCycle I.outside at e.now self.old }
        ensures made { OnOk result (MakesEntry at.session e.now self.old self.new) }
        ensures reads { CycleReads I.outside at self.old result self.new }
        ensures writes { CycleWrites W.outside (next_bytes at.session e.now self.old)
            self.old result self.new }
        ensures playing { OnOk result (IsPlaying I.outside at self.new) }
        ensures master { OnOk result (IsMastered W.outside at self.old
            → IsMastered W.outside at self.new) }
        ensures of { IsMasterOf at.session self.new.master }
        ensures fault { OnErr result (HasStopped self.old self.new) }
    {
        let made = self.make(e)?;
        self.note(made);
        Ok(())
    }

    // Reads, writes and captures what a cycle does, and gives the entry that is to be noted of it.
    fn make(&mut self, e: &Edition) -> Result<Entry, CycleFault>
        ghost on: { Cycling }
        requires may { MayCycle I.outside on.at e.now self.old }
        requires of { IsCycleOf on self.old }
        ensures made { IfOk result (IsMade e.now self.old self.new) }
        ensures reads { CycleReads I.outside on.at self.old (done result) self.new }
        ensures writes { CycleWrites W.outside (next_bytes on.at.session e.now self.old)
            self.old (done result) self.new }
        ensures master { IsMasterOf on.at.session self.new.master }
        ensures fault { OnErr result (HasStopped self.old self.new) }
    {
        // by which the session is valid that the edition has
        let _session = e.session();
        let at = self.position();
        let mut made = entry(
            self.playbacks.as_slice(),
            e.number(),
            e.transport().rolling,
            at,
        );
        self.input.read()?;
        write_block(
            self.playbacks.as_slice(),
            e,
            made.state,
            at,
            &mut self.master,
        )?;
        capture_all(
            e,
            rolls(made.state),
            self.input.channels(),
            self.input.samples(),
            self.captures.as_mut_slice(),
            self.ends.takes.as_mut_slice(),
            made.notes.as_mut_slice(),
        );
        Ok(made)
    }

    // Notes an entry, and acknowledges it to butler and control.
    fn note(&mut self, made: Entry)
        requires room { length self.old.journal.items < self.old.journal.room }
        requires few { self.old.journal.room ≤ 100000 }
        requires near { self.old.next ≤ 100000 }
        requires to_butler { MayPutAck self.old.ends.to_butler }
        requires to_control { MayPutAck self.old.ends.to_control }
        ensures noted { self.new.journal ≡ record self.old.journal
            { items = self.old.journal.items ++ made ∷ [] } }
        ensures next { self.new.next ≡ block_after made.state self.old.next }
        ensures to_butler { Acknowledges (told_of self.new made)
            self.old.ends.to_butler self.new.ends.to_butler }
        ensures to_control { Acknowledges (told_of self.new made)
            self.old.ends.to_control self.new.ends.to_control }
        ensures same { NotesOnly self.old self.new }
    {
        self.next = block_after(made.state, self.next);
        let settled = made.settled;
        self.journal.note(made);
        let ack = ack_of(&self.journal, self.generation, self.next, settled);
        self.to_butler.send(&mut self.ends.to_butler, ack);
        self.to_control.send(&mut self.ends.to_control, ack);
    }

    // Where it plays.
    pub(super) fn position(&self) -> PlayPosition
        ensures { result ≡ position_of self.now }
    {
        PlayPosition {
            depth: self.depth,
            generation: self.generation,
            next: self.next,
        }
    }

    /// Writes silence for the cycles that were asked for and not made, and a pad byte where the
    /// master's bytes are odd in number. It takes no memory. Its one fault is MasterFault.
    pub fn silence(&mut self) -> Result<(), CycleFault>
        ghost s: { Opening }
        requires of { IsMasterOf s self.old.master }
        requires few { self.old.journal.room ≤ 100000 }
        ensures writes { Writes W.outside
            (end_bytes s self.old.journal.room (length self.old.journal.items))
            self.old.master.sink self.new.master.sink result }
        ensures same { self.new ≡ record self.old {
          master = record self.old.master
              { sink = self.new.master.sink };
        } }
        ensures fault { IfErr result (λ why. why ≡ MasterFault) }
    {
        let made = self.journal.entries().len() as u32;
        self.master.end(self.journal.room(), made)?;
        Ok(())
    }
}
