//! Why a session's file isn't read as a session.
use crate::reading::Unread;
use ses_io::Failed;
use session_model::SessionRefusal;
use session_toml::SessionFault;

/// Why there is no session: the first of these that holds. ReadFault and NoMemory may stand in place of each.
#[derive(Clone, Copy, PartialEq, Eq)]
pub enum NoSession {
    /// Its file is absent or too long, or its text breaks this rule.
    Refused(SessionRefusal),
    /// A call that asks for the file's size or reads it failed, and the media's count of these rose.
    ReadFault,
    /// Memory ran out.
    NoMemory,
}

impl From<Failed> for NoSession {
    ghost use Rattle.std.specs.Prelude.{◌≡◌};
    ghost use Rattle.session_opening.specs.declared.no_session.NoSession.TheVariants.{ReadFault};

    ghost from_gives = { λ _ e. e ≡ ReadFault };

    fn from(_error: Failed) -> NoSession {
        NoSession::ReadFault
    }
}

impl From<Unread> for NoSession {
    ghost use Rattle.std.specs.Prelude.{◌≡◌};
    ghost use Rattle.session_opening.specs.Answers.{by_read};

    ghost from_gives = { λ u e. e ≡ by_read u };

    fn from(unread: Unread) -> NoSession {
        match unread {
            Unread::Fault => NoSession::ReadFault,
            Unread::NoMemory => NoSession::NoMemory,
        }
    }
}

impl From<SessionFault> for NoSession {
    ghost use Rattle.std.specs.Prelude.{◌≡◌};
    ghost use Rattle.session_opening.specs.Answers.{by_text};

    ghost from_gives = { λ f e. e ≡ by_text f };

    fn from(fault: SessionFault) -> NoSession {
        match fault {
            SessionFault::Refused(refusal) => NoSession::Refused(refusal),
            SessionFault::NoMemory => NoSession::NoMemory,
        }
    }
}
