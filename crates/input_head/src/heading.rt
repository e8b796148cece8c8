//! The head of a WAV stream, read piece by piece.
ghost use Rattle.std.specs.Prelude.{◌≡◌, ℕ, ◌^◌, ◌<◌, ◌≤◌, List, None, IfOk};
ghost use Rattle.wav_codec.specs.Info.{IsFound};
ghost use Rattle.wav_codec.specs.Progress.{wanted_at, wanted_end};
ghost use Rattle.input_head.specs.Answers.{HeadCause, TellsHead};
ghost use Rattle.input_head.specs.Steps.{IsReading, IfGoesOn, IfEnds, TellsStep};

use crate::fetching::fetch;
use ses_io::{Failed, Source};
use wav_codec::{Scan, Step, WavInfo, WavRefusal};

/// Why no head is read.
#[derive(Clone, Copy, PartialEq, Eq)]
pub(crate) enum Unread {
    /// There is no byte at all.
    Empty,
    /// It is the head of no WAV stream that is read.
    Refused(WavRefusal),
    /// A read failed, and the stream's count of faults rose.
    Fault,
}

impl From<Failed> for Unread {
    ghost use Rattle.std.specs.Prelude.{◌≡◌};
    ghost use Rattle.input_head.specs.declared.heading.Unread.TheVariants.{Fault};

    ghost from_gives = { λ f e. e ≡ Fault };

    fn from(_error: Failed) -> Self {
        Unread::Fault
    }
}

// Reads the piece that the scan wants, and gives it. So many bytes were taken before.
fn step<I: Source>(input: &mut I, taken: u64, scan: Scan) -> Result<Step, Unread>
    ghost start: { List ℕ }
    requires size { scan.size ≡ None }
    requires place { taken ≤ wanted_at scan }
    requires reading { I.outside.tells
        → IsReading start taken scan (I.outside.left input.old) }
    ensures size { IfGoesOn result (λ next. next.size ≡ None) }
    ensures rises { IfGoesOn result (λ next. wanted_end scan ≤ wanted_at next) }
    ensures bound { wanted_at scan < 2 ^ 33 }
    ensures found { IfEnds result IsFound }
    ensures told { I.outside.tells
        → TellsStep start (wanted_end scan) (I.outside.left input.new) result }
    ensures cause { HeadCause I.outside input.old input.new result }
{
    let want = scan.want();
    let mut piece = [0; 16];
    let read = fetch(input, want.at - taken, &mut piece[..want.length as usize])?;
    if want.at == 0 && read == 0 {
        return Err(Unread::Empty);
    }
    match scan.give(&piece[..read]) {
        Ok(next) => Ok(next),
        Err(refusal) => Err(Unread::Refused(refusal)),
    }
}

/// What the head of the stream says. The stream then stands at the first byte of its sound.
pub(crate) fn scanned<I: Source>(input: &mut I) -> Result<WavInfo, Unread>
    ghost start: { List ℕ }
    requires { I.outside.tells → I.outside.left input.old ≡ start }
    ensures found { IfOk result IsFound }
    ensures told { I.outside.tells → TellsHead start (I.outside.left input.new) result }
    ensures cause { HeadCause I.outside input.old input.new result }
{
    let mut scan = Scan::new(None);
    let mut taken = 0;
    loop {
        let want = scan.want();
        match step(input, taken, scan)? {
            Step::More(next) => {
                scan = next;
                taken = want.at + u64::from(want.length);
            }
            Step::Done(info) => return Ok(info),
        }
    }
}
