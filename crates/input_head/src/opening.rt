//! The input of a run, as far as its first frame.
ghost use Rattle.std.specs.Prelude.{IfOk, IfSome, OnErr};
ghost use Rattle.wav_codec.specs.Info.{IsFound};
ghost use Rattle.session_model.specs.Valid.{IsValid};
ghost use Rattle.input_head.specs.Answers.{InputCause, TellsInput, FitsInput};
ghost use Rattle.input_head.specs.Input.{input_head};
ghost use Rattle.input_head.specs.Taken.{StandsBehind, TakesNoData};

use crate::heading::{Unread, scanned};
use crate::judging::fitting;
use crate::refusal::NoInput;
use cycle_journal::InputRefusal;
use ses_io::Source;
use session_model::Session;
use wav_codec::WavInfo;

/// Reads the head of an input, and judges it by the session: what it says, or why it isn't played with. Ok(None) is an
/// input without a byte, which is none. After Ok(Some) the input stands at the first byte of its data, and no answer takes a
/// byte of them. It takes no memory.
pub fn open_input<I: Source>(input: &mut I, session: &Session) -> Result<Option<WavInfo>, NoInput>
    requires { IsValid session.now }
    ensures told { I.outside.tells
        → TellsInput (input_head session.now (I.outside.left input.old)) result }
    ensures found { IfOk result (λ form. IfSome form IsFound) }
    ensures fits { IfOk result (λ form. IfSome form (FitsInput session.now)) }
    ensures rest { I.outside.tells
        → IfOk result (StandsBehind (I.outside.left input.old) (I.outside.left input.new)) }
    ensures no_data { I.outside.tells
        → OnErr result (TakesNoData (I.outside.left input.old) (I.outside.left input.new)) }
    ensures cause { InputCause I.outside input.old input.new result }
{
    let info = match scanned(input) {
        Ok(info) => info,
        Err(Unread::Empty) => return Ok(None),
        Err(Unread::Refused(why)) => return Err(NoInput::Refused(InputRefusal::Wav(why))),
        Err(Unread::Fault) => return Err(NoInput::Fault),
    };
    match fitting(session, info) {
        Ok(info) => Ok(Some(info)),
        Err(why) => Err(NoInput::Refused(why)),
    }
}
