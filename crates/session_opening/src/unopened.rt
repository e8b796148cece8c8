//! Why a session isn't opened with its sources.
use crate::no_session::NoSession;
use audio_source::FileRefusal;
use ses_io::NoMemory;
use ses_units::Name;
use session_model::SessionRefusal;

/// Why a session isn't opened with its sources: the first of these that holds. ReadFault and NoMemory may stand in place of each.
#[derive(Clone, Copy, PartialEq, Eq)]
pub enum Unopened {
    /// The session's file is absent or too long, or its text breaks this rule.
    Session(SessionRefusal),
    /// The file of the source of this name isn't opened.
    Source(Name, FileRefusal),
    /// A call that asks for a file's size or reads it failed, and the media's count of these rose.
    ReadFault,
    /// Memory ran out.
    NoMemory,
}

impl From<NoMemory> for Unopened {
    ghost use Rattle.std.specs.Prelude.{◌≡◌};
    ghost use Rattle.session_opening.specs.declared.unopened.Unopened.TheVariants as why;

    ghost from_gives = { λ _ e. e ≡ why.NoMemory };

    fn from(_error: NoMemory) -> Unopened {
        Unopened::NoMemory
    }
}

impl From<NoSession> for Unopened {
    ghost use Rattle.std.specs.Prelude.{◌≡◌};
    ghost use Rattle.session_opening.specs.Answers.{unopened};

    ghost from_gives = { λ n e. e ≡ unopened n };

    fn from(why: NoSession) -> Unopened {
        match why {
            NoSession::Refused(refusal) => Unopened::Session(refusal),
            NoSession::ReadFault => Unopened::ReadFault,
            NoSession::NoMemory => Unopened::NoMemory,
        }
    }
}
