//! The line that ends out where a run failed.
ghost use Rattle.std.specs.Prelude.{◌≡◌, ◌+◌, ◌≤◌, ◌++◌, None, length, IsOk, IfSome};
ghost use Rattle.std.specs.Option.{option_map};
ghost use Rattle.ses_io.specs.Outside.{Writes};
ghost use Rattle.fault_lines.specs.Fault.{error_line, fault_line, fault_words};

use crate::line::Line;
use cycle_journal::Status;
use ses_io::{Failed, Sink, write_all};
use std::fmt;

impl Line {
    // The line with the words of a status more, if it has any.
    fn fault(self, status: &Status) -> Option<Line>
        requires { length self.text.bytes ≤ 6 }
        ensures bytes { option_map (λ line. line.text.bytes) result
            ≡ option_map (λ words. self.text.bytes ++ words) (fault_words status.now) }
        ensures long { IfSome result (λ line. length line.text.bytes ≤ 95) }
    {
        match status {
            Status::Done | Status::OutFault => None,
            Status::Usage => Some(self.word("usage")),
            Status::Session(why) => Some(self.word("session ").session(why)),
            Status::SourceFile(name, why) => {
                Some(self.word("source ").name(name).word(" ").file(why))
            }
            Status::ReadFault => Some(self.word("read-fault")),
            Status::WriteFault => Some(self.word("write-fault")),
            Status::InputFault => Some(self.word("input-fault")),
            Status::MasterFault => Some(self.word("master-fault")),
            Status::ControlFault => Some(self.word("control-fault")),
            Status::Refuted(line) => Some(self.word("refuted ").number(*line)),
            Status::BadReport(line) => Some(self.word("bad-report ").number(*line)),
            Status::BadInput(why) => Some(self.word("input ").input(why)),
            Status::NoMemory => Some(self.word("no-memory")),
            Status::TakesExist(takes) => Some(self.word("takes-exist ").name(takes)),
            Status::ControlTooLong => Some(self.word("control-too-long")),
        }
    }
}

/// The words that say how a run failed, of a status that has a line.
#[derive(Clone, Copy)]
pub struct FaultWords<'a>(pub &'a Status);

impl fmt::Display for FaultWords<'_> {
    ghost output = { λ words. fault_words words.0.now };

    fn fmt<W: fmt::Write>(&self, f: &mut fmt::Formatter<W>) -> fmt::Result {
        match Line::of("").fault(self.0) {
            Some(line) => f.write_str(line.text.as_str()),
            None => Ok(()),
        }
    }
}

// The line of a status, if it has one.
fn line_of(status: &Status) -> Option<Line>
    ensures { option_map (λ line. line.text.bytes) result
        ≡ option_map error_line (fault_words status.now) }
{
    let line = Line::of("error ").fault(status)?;
    Some(line.word("\n"))
}

/// Writes the line of a status to out, and nothing where it has none: at Done, and at OutFault,
/// where out itself failed. At Failed, a front of the line. It takes no memory.
pub fn write_fault<O: Sink>(out: &mut O, status: &Status) -> Result<(), Failed>
    ensures writes { Writes O.outside (fault_line status.now) out.old out.new result }
    ensures silent { fault_words status.now ≡ None → IsOk result }
    ensures untouched { fault_words status.now ≡ None → out.new ≡ out.old }
    ensures short { length (fault_line status.now) ≤ 96 }
{
    match line_of(status) {
        Some(line) => write_all(out, line.text.as_str().as_bytes()),
        None => Ok(()),
    }
}
