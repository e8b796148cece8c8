//! A head, judged by the session's rate and by the channels that its tracks take.
ghost use Rattle.std.specs.Prelude.{◌≡◌, ◌+◌, ◌<◌, ◌≤◌, length, IfOk, IfSome};
ghost use Rattle.wav_codec.specs.Info.{head_of};
ghost use Rattle.session_model.specs.Formed.{channels_at};
ghost use Rattle.session_model.specs.Valid.{IsValid};
ghost use Rattle.input_head.specs.Answers.{TellsFitting, FitsInput};
ghost use Rattle.input_head.specs.Input.{taken_by, wanted_channels, fitting};

use cycle_journal::InputRefusal;
use session_model::{Session, Track};
use wav_codec::WavInfo;

// The channels of the input up to the last that a track takes.
fn taken_by(session: &Session, track: &Track) -> u16
    requires route { track.now.route < length session.now.routes.items }
    requires few { IfSome track.now.input
        (λ first. first + channels_at session.now track.now.route ≤ 8) }
    ensures { result ≡ taken_by session.now track.now }
{
    match track.input {
        Some(first) => first + session.routes.as_slice()[track.route as usize].channels,
        None => 0,
    }
}

// The channels that the input has to have.
fn wanted(session: &Session) -> u16
    requires { IsValid session.now }
    ensures { result ≡ wanted_channels session.now }
{
    let mut most = 0;
    for track in session.tracks.as_slice() {
        most = most.max(taken_by(session, track));
    }
    most
}

/// The head, where it has the session's rate and no fewer channels than its tracks take.
pub(crate) fn fitting(session: &Session, info: WavInfo) -> Result<WavInfo, InputRefusal>
    requires { IsValid session.now }
    ensures fitting { TellsFitting (fitting session.now (head_of info)) result }
    ensures fits { IfOk result (FitsInput session.now) }
    ensures same { IfOk result (λ it. it ≡ info) }
{
    if info.rate != session.rate {
        return Err(InputRefusal::RateDiffers {
            has: info.rate,
            want: session.rate,
        });
    }
    let want = wanted(session);
    if info.channels < want {
        return Err(InputRefusal::InputChannels {
            has: info.channels,
            want,
        });
    }
    Ok(info)
}
