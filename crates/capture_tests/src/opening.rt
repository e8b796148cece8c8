//! What a butler begins with: a session, edition 0 of it and its sources.
ghost use Rattle.std.specs.Prelude.{IfSome};
ghost use Rattle.capture_tests.specs.Bench.{IsOpened};

use audio_source::Sources;
use edition_log::Edition;
use ses_io::{Media, TryClone};
use session_model::Session;
use session_toml::session_of;
use std::alloc::Global;

/// A session as it was opened, with its first edition and its sources.
#[derive(Drop)]
pub(crate) struct Opened {
    pub(crate) session: Session,
    pub(crate) edition: Edition,
    pub(crate) sources: Sources,
}

/// What the text of a session opens to.
pub(crate) fn open_session<M: Media>(alloc: Global, text: &[u8], media: &mut M) -> Option<Opened>
    ensures { IfSome result (λ o. IsOpened o.session o.edition o.sources) }
{
    let Ok(session) = session_of(alloc, text) else {
        return None;
    };
    let Ok(sources) = Sources::new(alloc, media, &session.sources, session.rate) else {
        return None;
    };
    let Ok(first) = session.try_clone(alloc) else {
        return None;
    };
    let Ok(edition) = Edition::opening(alloc, first) else {
        return None;
    };
    Some(Opened {
        session,
        edition,
        sources,
    })
}
