//! The head of a WAV file of the media, read piece by piece.
ghost use Rattle.std.specs.Prelude.{◌≡◌, ◌≢◌, ◌^◌, ◌<◌, length, true, None, IfOk};
ghost use Rattle.sound_model.specs.Wav.{head};
ghost use Rattle.ses_io.specs.Files.{content};
ghost use Rattle.ses_io.specs.Outside.{OnlyReads};
ghost use Rattle.wav_codec.specs.Info.{IsFound};
ghost use Rattle.wav_codec.specs.Progress.{Agrees, wanted_at};
ghost use Rattle.audio_source.specs.Answers.{TellsHead, HeadCause};
ghost use Rattle.audio_source.specs.Steps.{TellsStep, IfGoesOn, IfEnds};

use ses_io::{Failed, Media, read_at_full};
use wav_codec::{Scan, Step, WavInfo, WavRefusal};

/// Why the head of a file isn't read.
#[derive(Clone, Copy, PartialEq, Eq)]
pub(crate) enum Unread {
    /// It is the head of no WAV file that is read.
    Refused(WavRefusal),
    /// A read failed, and the media's count of them rose.
    Fault,
}

impl From<Failed> for Unread {
    ghost use Rattle.std.specs.Prelude.{◌≡◌};
    ghost use Rattle.audio_source.specs.declared.heading.Unread.TheVariants.{Fault};

    ghost from_gives = { λ f e. e ≡ Fault };

    fn from(_error: Failed) -> Self {
        Unread::Fault
    }
}

// Reads the piece that the scan wants, and gives it.
fn step<M: Media>(media: &mut M, name: &str, scan: Scan) -> Result<Step, Unread>
    requires { scan.size ≢ None }
    ensures size { IfGoesOn result (λ next. next.size ≡ scan.size) }
    ensures rises { IfGoesOn result (λ next. wanted_at scan < wanted_at next) }
    ensures bound { wanted_at scan < 2 ^ 33 }
    ensures found { IfEnds result IsFound }
    ensures told { M.outside.tells → Agrees scan (content (M.outside.files media.old) name.now)
        → TellsStep (content (M.outside.files media.old) name.now) result }
    ensures only_reads { OnlyReads M.outside media.old media.new }
    ensures cause { HeadCause M.outside media.old media.new result }
{
    let want = scan.want();
    let mut piece = [0; 16];
    let read = read_at_full(media, name, want.at, &mut piece[..want.length as usize])?;
    match scan.give(&piece[..read]) {
        Ok(next) => Ok(next),
        Err(refusal) => Err(Unread::Refused(refusal)),
    }
}

/// What the head of the file says, whose size was told.
pub(crate) fn scanned<M: Media>(media: &mut M, name: &str, size: u64) -> Result<WavInfo, Unread>
    requires { M.outside.tells → length (content (M.outside.files media.old) name.now) ≡ size }
    ensures found { IfOk result IsFound }
    ensures told { M.outside.tells
        → TellsHead (head true (content (M.outside.files media.old) name.now)) result }
    ensures only_reads { OnlyReads M.outside media.old media.new }
    ensures cause { HeadCause M.outside media.old media.new result }
{
    let mut scan = Scan::new(Some(size));
    loop {
        match step(media, name, scan)? {
            Step::More(next) => scan = next,
            Step::Done(info) => return Ok(info),
        }
    }
}
