//! Control's bytes, and the lines that they make.
ghost use Rattle.std.specs.Prelude.{◌≡◌, ◌==◌, ◌<◌, ◌≤◌, [], length, OnOk, OnErr, IfOk, IfSome, IfNone, Some};
ghost use Rattle.ses_io.specs.Faults.{HasCause};
ghost use Rattle.control_lines.specs.Begun.{IsCutAt};
ghost use Rattle.control_lines.specs.Lines.{at_first, TakesByte, TakesLine, TakesAFront, TakesFront, Fetches, CutsLine, to_come};

use crate::begun::{BegunLine, said_before_feed};
use edit_script::{Command, LineRefusal};
use ses_io::{Failed, Source};
use std::marker::Model;

// How many bytes are asked for at a time.
const PIECE: usize = 4_096;

// No more bytes are read of control.
const LIMIT: usize = 16_777_216;

/// Control, which is read line by line, up to 16,777,216 bytes of it.
#[derive(Drop)]
pub struct ControlLines<C: Source> {
    source: C,
    // The bytes that were read last, of which those from `at` to `end` are in no line yet.
    piece: [u8; PIECE],
    at: usize,
    end: usize,
    // How many may be read yet.
    budget: usize,
}

impl<C: Source> Model for ControlLines<C> {
    ghost use Rattle.std.specs.Prelude.{take, drop};
    ghost use Rattle.control_lines.specs.Lines.{LinesState, IsKept};

    ghost Value = { LinesState C };

    ghost view = { λ l. record {
      source = l.source;
      waiting = drop l.at (take l.end l.piece);
      budget = l.budget;
    } };

    ghost invariant = { λ l. IsKept l.piece l.at l.end l.budget };
}

// Reads bytes into the front of a piece, up to so many.
fn read_front<C: Source>(
    source: &mut C,
    piece: &mut [u8; PIECE],
    most: usize,
) -> Result<usize, Failed>
    requires some { 0 < most }
    requires few { most ≤ 4096 }
    ensures long { length piece.new ≡ 4096 }
    ensures bound { IfOk result (λ n. n ≤ most) }
    ensures takes { C.outside.tells → IfOk result
        (TakesFront (C.outside.left source.old) (C.outside.left source.new) piece.new) }
    ensures unchanged { C.outside.tells
        → OnErr result (C.outside.left source.new ≡ C.outside.left source.old) }
    ensures cause { HasCause (C.outside.faults source.old) (C.outside.faults source.new) result }
{
    source.read(&mut piece[..most])
}

// Where the first line feed stands among bytes.
fn feed_in(bytes: &[u8]) -> Option<usize>
    ensures { IfSome result (λ long. IsCutAt long bytes.now) }
{
    bytes.iter().position(|byte| *byte == b'\n')
}

impl<C: Source> ControlLines<C> {
    /// Nothing was read of it yet.
    pub fn new(source: C) -> ControlLines<C>
        ensures { result ≡ at_first source }
    {
        ControlLines {
            source,
            piece: [0; PIECE],
            at: 0,
            end: 0,
            budget: LIMIT,
        }
    }

    // Reads the next piece. It has no byte where no more is read.
    fn fetch(&mut self) -> Result<(), Failed>
        requires { self.old.waiting ≡ [] }
        ensures takes { OnOk result (Fetches C.outside self.old self.new) }
        ensures kept { OnErr result (self.new ≡ record self.old { source = self.new.source }) }
        ensures left { C.outside.tells
            → OnErr result (C.outside.left self.new.source ≡ C.outside.left self.old.source) }
        ensures cause { HasCause (C.outside.faults self.old.source)
            (C.outside.faults self.new.source) result }
    {
        self.at = 0;
        self.end = 0;
        let most = self.budget.min(PIECE);
        if most == 0 {
            return Ok(());
        }
        let read = read_front(&mut self.source, &mut self.piece, most)?;
        self.end = read;
        self.budget -= read;
        Ok(())
    }

    // The next byte, if there is one.
    fn byte(&mut self) -> Result<Option<u8>, Failed>
        ensures takes { IfOk result (λ byte. TakesByte C.outside self.old byte self.new) }
        ensures none { OnErr result (TakesAFront C.outside self.old self.new) }
        ensures cause { HasCause (C.outside.faults self.old.source)
            (C.outside.faults self.new.source) result }
    {
        if self.at == self.end {
            self.fetch()?;
        }
        if self.at == self.end {
            return Ok(None);
        }
        let byte = self.piece[self.at];
        self.at += 1;
        Ok(Some(byte))
    }

    // The next line, where its line feed is among the bytes that wait: it is said where it stands.
    fn waiting_line(&mut self) -> Option<Result<Command, LineRefusal>>
        ensures line { IfSome result (λ answer.
            TakesLine C.outside self.old (Some answer) self.new) }
        ensures none { IfNone result (self.new ≡ self.old) }
        ensures source { self.new.source ≡ self.old.source }
    {
        let waiting = &self.piece[self.at..self.end];
        let long = feed_in(waiting)?;
        let answer = said_before_feed(&waiting[..long]);
        self.at += long + 1;
        Some(answer)
    }

    // What the next line says, byte by byte; none at the end.
    fn next_by_bytes(&mut self) -> Result<Option<Result<Command, LineRefusal>>, Failed>
        ensures line { IfOk result (λ answer. TakesLine C.outside self.old answer self.new) }
        ensures cuts { C.outside.tells → IfOk result (λ answer.
            CutsLine (to_come C.outside self.old) answer (to_come C.outside self.new)) }
        ensures cut { OnErr result (TakesAFront C.outside self.old self.new) }
        ensures cause { HasCause (C.outside.faults self.old.source)
            (C.outside.faults self.new.source) result }
    {
        let mut line = BegunLine::new();
        while let Some(byte) = self.byte()? {
            if byte == b'\n' {
                return Ok(Some(line.ended()));
            }
            line.push(byte);
        }
        Ok(line.last())
    }

    /// What the next line says, or why it isn't read; none at the end. A line that was begun when a read fails is lost, and
    /// nothing more may be read then. It takes no memory.
    pub fn next(&mut self) -> Result<Option<Result<Command, LineRefusal>>, Failed>
        ensures line { IfOk result (λ answer. TakesLine C.outside self.old answer self.new) }
        ensures cuts { C.outside.tells → IfOk result (λ answer.
            CutsLine (to_come C.outside self.old) answer (to_come C.outside self.new)) }
        ensures cut { OnErr result (TakesAFront C.outside self.old self.new) }
        ensures cause { HasCause (C.outside.faults self.old.source)
            (C.outside.faults self.new.source) result }
    {
        match self.waiting_line() {
            Some(answer) => Ok(Some(answer)),
            None => self.next_by_bytes(),
        }
    }

    /// Whether all bytes were read that may be.
    pub fn is_spent(&self) -> bool
        ensures { result ≡ (self.now.budget == 0) }
    {
        self.budget == 0
    }

    /// Control, as far as it was read.
    pub fn into_source(self) -> C
        ensures { result ≡ self.source }
    {
        let ControlLines { source, .. } = self;
        source
    }
}
