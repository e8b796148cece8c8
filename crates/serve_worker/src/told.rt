//! What no code holds and clauses speak of, lent to the butler's thread.
ghost use Rattle.std.specs.Prelude.{◌≡◌};

use ses_io::Media;
use session_model::Session;
use std::snapshot::Snapshot;

/// What the butler was given at first. It has no bytes.
#[derive(Drop)]
pub struct ServeTold<M: Media> {
    pub session: Snapshot<Session>,
    pub media: Snapshot<M>,
}

impl<M: Media> ServeTold<M> {
    /// These, as they are now.
    pub fn of(session: &Session, media: &M) -> ServeTold<M>
        ensures session { result.session.value ≡ session.now }
        ensures media { result.media.value ≡ media.now }
    {
        ServeTold {
            session: Snapshot::of(session),
            media: Snapshot::of(media),
        }
    }
}
