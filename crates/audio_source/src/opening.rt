//! One source's file as it is opened: there, read, of the session's rate and of the source's channels.
ghost use Rattle.std.specs.Prelude.{◌≡◌, IfOk, Ok};
ghost use Rattle.sound_model.specs.Wav.{head};
ghost use Rattle.wav_codec.specs.Info.{head_of, IsFound};
ghost use Rattle.audio_source.specs.Answers.{TellsSource, SourceCause, TellsFitting};
ghost use Rattle.audio_source.specs.Opened.{Fits};
ghost use Rattle.audio_source.specs.Refusals.{source_head, fitting};
ghost use Rattle.ses_io.specs.Outside.{OnlyReads};

use crate::heading::{Unread, scanned};
use crate::refusal::FileRefusal;
use ses_io::{Failed, Media};
use wav_codec::WavInfo;

/// Why a source isn't opened.
#[derive(Clone, Copy, PartialEq, Eq)]
pub(crate) enum Unopened {
    Refused(FileRefusal),
    /// A read failed, and the media's count of them rose.
    Fault,
}

impl From<Failed> for Unopened {
    ghost use Rattle.std.specs.Prelude.{◌≡◌};
    ghost use Rattle.audio_source.specs.declared.opening.Unopened.TheVariants.{Fault};

    ghost from_gives = { λ f e. e ≡ Fault };

    fn from(_error: Failed) -> Self {
        Unopened::Fault
    }
}

impl From<Unread> for Unopened {
    ghost use Rattle.std.specs.Prelude.{◌≡◌};
    ghost use Rattle.audio_source.specs.Answers.{unopened_by};

    ghost from_gives = { λ u e. e ≡ unopened_by u };

    fn from(unread: Unread) -> Self {
        match unread {
            Unread::Refused(refusal) => Unopened::Refused(FileRefusal::Wav(refusal)),
            Unread::Fault => Unopened::Fault,
        }
    }
}

// The head, where it has the session's rate and the source's channels.
fn fitting(rate: u32, channels: u16, info: WavInfo) -> Result<WavInfo, FileRefusal>
    ensures fitting { TellsFitting (fitting rate channels (head_of info)) result }
    ensures fits { IfOk result (Fits rate channels) }
    ensures same { IfOk result (λ it. it ≡ info) }
{
    if info.rate != rate {
        return Err(FileRefusal::RateDiffers {
            has: info.rate,
            want: rate,
        });
    }
    if info.channels != channels {
        return Err(FileRefusal::ChannelsDiffer {
            has: info.channels,
            want: channels,
        });
    }
    Ok(info)
}

/// What the head of a source's file says, or why the source isn't opened.
pub(crate) fn opened<M: Media>(
    media: &mut M,
    name: &str,
    rate: u32,
    channels: u16,
) -> Result<WavInfo, Unopened>
    ensures found { IfOk result IsFound }
    ensures fits { IfOk result (Fits rate channels) }
    ensures told { M.outside.tells
        → TellsSource (source_head rate channels (M.outside.files media.old name.now)) result }
    ensures only_reads { OnlyReads M.outside media.old media.new }
    ensures cause { SourceCause M.outside media.old media.new result }
{
    let Some(size) = media.size(name)? else {
        return Err(Unopened::Refused(FileRefusal::Absent));
    };
    let info = scanned(media, name, size)?;
    match fitting(rate, channels, info) {
        Ok(info) => Ok(info),
        Err(why) => Err(Unopened::Refused(why)),
    }
}
