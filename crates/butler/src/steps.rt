//! The steps of a turn, one after the other.
ghost use Rattle.std.specs.Prelude.{◌≡◌, false, length};
ghost use Rattle.capture_flush.specs.Taking.{IsTakingOf};
ghost use Rattle.edition_log.specs.EditionState.{IsEditionState};
ghost use Rattle.read_ahead.specs.Reader.{IsReady};
ghost use Rattle.read_ahead.specs.AllServes.{AllStocked};
ghost use Rattle.capture_drain.specs.Files.{RunStart};
ghost use Rattle.butler.specs.Serving.{AreStocked};
ghost use Rattle.butler.specs.Turns.{pass_of};
ghost use Rattle.butler.specs.Steps.{Accepts, EntersIn, Flushes, SendsOn, reader_of};

use crate::accepting::{accept, next_of};
use crate::butler::Butler;
use audio_source::ReadFault;
use capture_flush::WriteFault;
use edition_log::Edition;
use read_ahead::{Pass, enter_all, send_all};
use ses_io::Media;

impl<M: Media> Butler<M> {
    /// Takes acknowledgements until there is none.
    pub(crate) fn accept(&mut self)
        requires { self.old.ends.acks.room ≡ 0 }
        ensures { Accepts self.old self.new }
    {
        let Some(husk) = self.holds.husk.take() else {
            unreachable!()
        };
        let (husk, ended) = accept(&mut self.ends.acks, husk, self.holds.nexts.as_mut_slice());
        self.holds.husk = Some(husk);
        self.holds.ended = ended;
    }

    /// Enters an edition for each track, unless it was entered last.
    pub(crate) fn enter(&mut self, e: &Edition)
        requires { length self.old.supplies ≡ length e.now.session.tracks.items }
        ensures enters { EntersIn e.now self.old self.new }
        ensures seen { IsEditionState e.now }
    {
        // it shows what every edition keeps
        let _session = e.session();
        let number = e.number();
        if self.holds.entered != number {
            enter_all(e, self.holds.supplies.as_mut_slice());
            self.holds.entered = number;
        }
    }

    /// Flushes at most so many blocks.
    pub(crate) fn flush(&mut self, most: u32) -> Result<u32, WriteFault>
        ghost run: { RunStart }
        requires of { IsTakingOf run.session self.old.drain.files }
        requires tracks { length self.old.ends.takes.items ≡ length run.session.tracks.items }
        ensures flushes { Flushes M.outside run most self.old result self.new }
        ensures stocked { AreStocked self.new.supplies self.new.drain self.new.ends }
    {
        let holds = &mut self.holds;
        let rings = self.ends.takes.as_mut_slice();
        let answer = holds.drain.drain(&mut holds.reader.media, rings, most);
        if answer.is_err() {
            holds.write_failed = true;
        }
        answer
    }

    /// Sends at most so many items of what is due, unless it is hushed.
    pub(crate) fn send(&mut self, e: &Edition, most: u32) -> Result<u32, ReadFault>
        requires seen { IsEditionState e.now }
        requires ready { IsReady (reader_of self.old) (pass_of e.now self.old) }
        requires tracks { length self.old.supplies ≡ length e.now.session.tracks.items }
        requires stocked { self.old.hushed ≡ false
            → AllStocked e.now self.old.supplies self.old.ends.sends.items }
        ensures { SendsOn M.outside e.now most self.old result self.new }
    {
        let holds = &mut self.holds;
        if holds.hushed {
            return Ok(0);
        }
        let pass = Pass {
            edition: e,
            next: next_of(holds.nexts.as_slice(), e),
            cycles: holds.cycles,
        };
        let sends = self.ends.sends.as_mut_slice();
        let answer = send_all(
            &mut holds.reader,
            &pass,
            holds.supplies.as_mut_slice(),
            sends,
            most,
        );
        holds.hushed = answer.is_err();
        answer
    }
}
