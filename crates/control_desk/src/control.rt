//! Control: it takes its lines one by one, and answers them.
ghost use Rattle.std.specs.Prelude.{◌≡◌, ℕ, ◌+◌, ◌≤◌, true, [], ◌∷◌, Some, IfSome, IsTrue, IfOk, OnErr};
ghost use Rattle.std.specs.Option.{option_map};
ghost use Rattle.engine_model.specs.Edits.{keeps_forms};
ghost use Rattle.engine_model.specs.Lines.{Says};
ghost use Rattle.engine_model.specs.Plain.{Wait};
ghost use Rattle.edit_script.specs.Reading.{line_of};
ghost use Rattle.control_desk.specs.Seen.{awaited_of, replies_by, replies_to, edit_of, wait_of};
ghost use Rattle.control_desk.specs.Texts.{edit_reply, reply_of};
ghost use Rattle.control_desk.specs.Standing.{standing_of, is_ready, is_ended, awaits_of, awaiting, due, after_due, after_edit};
ghost use Rattle.control_desk.specs.State as state;
ghost use Rattle.control_desk.specs.State.{parts_of};
ghost use Rattle.control_desk.specs.Steps.{Replies, CarriesOut};
ghost use Rattle.control_desk.specs.Taking.{TakesNext, TakesNone};
ghost use Rattle.control_desk.specs.GoesOn.{GoesOn};

use crate::parts::ControlParts;
use crate::progress::{Awaited, Progress};
use crate::reply::Reply;
use crate::script::Script;
use crate::standing::{End, Standing};
use control_lines::ControlLines;
use edit_resolve::Refusal;
use edit_script::{Command, LineRefusal, read_can_be_said, waits_are_few};
use ses_io::{Failed, Sink, Source, write_all};
use session_model::Edit;
use std::marker::Model;

/// The lines of a run, and where they are answered. Contracts see it as a record of
/// `specs/State.antt`.
#[derive(Drop)]
pub struct Control<C: Source, O: Sink> {
    lines: ControlLines<C>,
    script: Script,
    out: O,
    standing: Standing,
}

impl<C: Source, O: Sink> Model for Control<C, O> {
    ghost use Rattle.control_desk.specs.Standing.{standing_of};
    ghost use Rattle.control_desk.specs.State.{ControlState, script_of};

    ghost Value = { ControlState C O };

    ghost view = { λ c. record {
      lines = c.lines;
      script = script_of c.script;
      out = c.out;
      standing = standing_of c.standing;
    } };
}

impl<C: Source, O: Sink> Control<C, O> {
    /// Control whose lines are the source's, and are answered to out.
    pub fn reading(source: C, out: O) -> Control<C, O>
        ensures { result ≡ state.reading source out }
    {
        Control {
            lines: ControlLines::new(source),
            script: Script::Absent,
            out,
            standing: Standing::Ready,
        }
    }

    /// The control of an export: locate there, in frames, and roll. The source is never read, and
    /// nothing is ever written to out.
    pub fn scripted(source: C, out: O, from: u64) -> Control<C, O>
        ensures { result ≡ state.scripted source out from }
    {
        Control {
            lines: ControlLines::new(source),
            script: Script::Locate(from),
            out,
            standing: Standing::Ready,
        }
    }

    // Writes a reply. Control stands so then, unless the write failed.
    fn reply(&mut self, reply: &Reply, standing: Standing)
        ensures { Replies O.outside (reply_of reply.now ∷ []) (standing_of standing)
            self.old self.new }
    {
        self.standing = standing;
        if !matches!(self.script, Script::Absent) {
            return;
        }
        if write_all(&mut self.out, reply.line().text.as_str().as_bytes()).is_err() {
            self.standing = Standing::Ended(End::WriteFailed(standing.has_quit()));
        }
    }

    // Waits, unless that is over: then it is answered.
    fn wait_for(&mut self, awaited: Awaited, seen: &Progress)
        ensures { Replies O.outside (replies_by seen.now (awaited_of awaited))
            (awaiting seen.now (Some (awaited_of awaited))) self.old self.new }
    {
        if seen.is_over(awaited) {
            self.reply(&seen.reply(awaited), Standing::Ready);
        } else {
            self.standing = Standing::Awaits(awaited);
        }
    }

    // Answers what is waited for, where that is over.
    fn settle(&mut self, seen: &Progress)
        ensures { Replies O.outside (due seen.now self.old.standing)
            (after_due seen.now self.old.standing) self.old self.new }
    {
        if let Standing::Awaits(awaited) = self.standing {
            self.wait_for(awaited, seen);
        }
    }

    // Takes the next line.
    fn line(&mut self) -> Result<Option<Result<Command, LineRefusal>>, Failed>
        ensures line { IfOk result (λ said. TakesNext C.outside self.old said self.new) }
        ensures fault { OnErr result (TakesNone C.outside self.old self.new) }
    {
        // Their contracts are laws of what is read.
        read_can_be_said();
        waits_are_few();
        match self.script {
            Script::Absent => self.lines.next(),
            Script::Locate(from) => {
                self.script = Script::Roll;
                Ok(Some(Ok(Command::Do(Edit::Locate { to: from }))))
            }
            Script::Roll => {
                self.script = Script::Said;
                Ok(Some(Ok(Command::Do(Edit::Roll))))
            }
            Script::Said => Ok(None),
        }
    }

    // Does what a line says; an edit is given back.
    fn carry_out(&mut self, said: Result<Command, LineRefusal>, seen: &Progress) -> Option<Edit>
        requires ready { is_ready self.old.standing ≡ true }
        requires few { (n : ℕ) → line_of said ≡ Says (Wait n) → seen.now.entries + n ≤ 200000 }
        ensures given { result ≡ edit_of (line_of said) }
        ensures replies { Replies O.outside (replies_to seen.now (line_of said))
            (awaiting seen.now (wait_of seen.now (line_of said))) self.old self.new }
    {
        match said {
            Ok(Command::Do(edit)) => return Some(edit),
            Ok(Command::Wait(n)) => self.wait_for(Awaited::Entries(seen.entries + n), seen),
            Ok(Command::Sync) => self.wait_for(Awaited::SettledIn(seen.edits), seen),
            Ok(Command::Nothing) => (),
            Err(why) => self.reply(&Reply::LineRefused(why), Standing::Ready),
        }
        None
    }

    /// Answers what is waited for, where that is over. Whether the next line may be carried out.
    pub fn answer(&mut self, seen: &Progress) -> bool
        ensures ready { result ≡ is_ready self.new.standing }
        ensures replies { Replies O.outside (due seen.now self.old.standing)
            (after_due seen.now self.old.standing) self.old self.new }
        ensures goes { GoesOn C.outside O.outside self.old [] (due seen.now self.old.standing)
            self.new }
    {
        self.settle(seen);
        self.standing == Standing::Ready
    }

    /// Carries out the next line. An edit is given back: its caller publishes it, and calls
    /// `published`. It takes no memory.
    pub fn next(&mut self, seen: &Progress) -> Option<Edit>
        requires ready { is_ready self.old.standing ≡ true }
        requires few { seen.now.entries ≤ 100000 }
        ensures step { CarriesOut C.outside O.outside seen.now self.old result self.new }
        ensures forms { IfSome result (λ edit. IsTrue (keeps_forms edit)) }
    {
        match self.line() {
            Ok(Some(said)) => self.carry_out(said, seen),
            Ok(None) => {
                self.standing = Standing::Ended(End::NoLine);
                None
            }
            Err(_) => {
                self.standing = Standing::Ended(End::ReadFailed);
                None
            }
        }
    }

    /// Answers an edit that was published. After an accepted quit control has ended.
    pub fn published(&mut self, edit: &Edit, answer: Result<u32, Refusal>)
        requires ready { is_ready self.old.standing ≡ true }
        ensures replies { Replies O.outside (edit_reply answer ∷ []) (after_edit edit.now answer)
            self.old self.new }
        ensures goes { GoesOn C.outside O.outside self.old [] (edit_reply answer ∷ [])
            self.new }
    {
        match answer {
            Ok(edition) if matches!(edit, Edit::Quit) => {
                self.reply(&Reply::Accepted(edition), Standing::Ended(End::Quit));
            }
            Ok(edition) => self.reply(&Reply::Accepted(edition), Standing::Ready),
            Err(why) => self.reply(&Reply::Refused(why), Standing::Ready),
        }
    }

    /// What control waits for.
    pub fn awaits(&self) -> Option<Awaited>
        ensures { option_map awaited_of result ≡ awaits_of self.now.standing }
    {
        match self.standing {
            Standing::Awaits(awaited) => Some(awaited),
            Standing::Ready | Standing::Ended(_) => None,
        }
    }

    /// Whether no line is carried out any more.
    pub fn has_ended(&self) -> bool
        ensures { result ≡ is_ended self.now.standing }
    {
        matches!(self.standing, Standing::Ended(_))
    }

    /// What control leaves.
    pub fn parts(self) -> ControlParts<C, O>
        ensures { result ≡ parts_of self }
    {
        let Control {
            lines,
            out,
            standing,
            ..
        } = self;
        let long = lines.is_spent() && !standing.has_quit();
        ControlParts {
            source: lines.into_source(),
            out,
            read_failed: matches!(standing, Standing::Ended(End::ReadFailed)),
            write_failed: matches!(standing, Standing::Ended(End::WriteFailed(_))),
            long,
        }
    }
}
