//! What a run plays: edition 0 of its session, and its sources, or the first thing that is wrong.
ghost use Rattle.std.specs.Prelude.{◌≡◌, [], IfOk};
ghost use Rattle.session_model.specs.Valid.{IsValid};
ghost use Rattle.audio_source.specs.Opened.{IsListed, IsOpened};
ghost use Rattle.session_opening.specs.Answers.{Gives, GivesSession, IsRead, IsLoaded, HasHeads, Caused, CausedSession, refusal_at};
ghost use Rattle.session_opening.specs.Plan as spec;
ghost use Rattle.ses_io.specs.Outside.{OnlyReads};

use crate::no_session::NoSession;
use crate::reading::read_whole;
use crate::unopened::Unopened;
use audio_source::{FileRefusal, OpenRefusal, Sources};
use edition_log::Edition;
use ses_io::Media;
use ses_units::limits::SESSION_BYTES;
use session_model::{Session, SessionRefusal, SourceDecl};
use session_toml::session_of;
use std::alloc::Global;

/// What a run plays.
#[derive(Drop)]
pub struct Loaded {
    /// Edition 0 of the session.
    pub edition: Edition,
    /// The sources of the session, in their order.
    pub sources: Sources,
}

// The text of the session's file.
fn text_in<M: Media>(alloc: Global, media: &mut M, name: &str) -> Result<Vec<u8>, NoSession>
    ensures told { M.outside.tells
        → GivesSession (λ v. v.items) (spec.text_in (M.outside.files media.old name.now)) result }
    ensures only_reads { OnlyReads M.outside media.old media.new }
    ensures cause { CausedSession M.outside media.old media.new result }
{
    let Some(size) = media.size(name)? else {
        return Err(NoSession::Refused(SessionRefusal::Absent));
    };
    if size > SESSION_BYTES {
        return Err(NoSession::Refused(SessionRefusal::TooLong(size)));
    }
    let text = read_whole(alloc, media, name, size)?;
    Ok(text)
}

/// The session of the file of that name. What is wrong is told in this order: the file, then its text by the first rule
/// that it breaks.
#[tactic(auto, unfolding(crate::specs::Plan::read_session))]
pub fn read_session<M: Media>(
    alloc: Global,
    media: &mut M,
    name: &str,
) -> Result<Session, NoSession>
    ensures told { M.outside.tells
        → GivesSession (λ s. s) (spec.read_session (M.outside.files media.old name.now)) result }
    ensures read { IfOk result IsRead }
    ensures valid { IfOk result IsValid }
    ensures only_reads { OnlyReads M.outside media.old media.new }
    ensures cause { CausedSession M.outside media.old media.new result }
{
    let text = text_in(alloc, media, name)?;
    let session = session_of(alloc, &text)?;
    Ok(session)
}

// The refusal of the source at that place.
fn refused(sources: &[SourceDecl], place: u32, why: FileRefusal) -> Unopened
    ensures value { result ≡ refusal_at sources.now place why }
{
    match sources.get(place as usize) {
        Some(source) => Unopened::Source(source.name, why),
        // Only a source of the session is refused.
        None => Unopened::NoMemory,
    }
}

// The sources of the session.
fn sources_in<M: Media>(
    alloc: Global,
    media: &mut M,
    session: &Session,
) -> Result<Sources, Unopened>
    ensures told { M.outside.tells → Gives (λ o. tt)
        (spec.sources_in (M.outside.files media.old) session.now.rate
        session.now.sources.items) result }
    ensures listed { IfOk result
        (λ s. IsListed session.now.rate session.now.sources.items s.opened) }
    ensures held { IfOk result (λ s. s.held ≡ []) }
    ensures heads { M.outside.tells → IfOk result
        (λ s. IsOpened (M.outside.files media.old) session.now.rate
        session.now.sources.items s.opened) }
    ensures only_reads { OnlyReads M.outside media.old media.new }
    ensures cause { Caused M.outside media.old media.new result }
{
    match Sources::new(alloc, media, &session.sources, session.rate) {
        Ok(sources) => Ok(sources),
        Err(OpenRefusal::File { source, why }) => {
            Err(refused(session.sources.as_slice(), source, why))
        }
        Err(OpenRefusal::ReadFault) => Err(Unopened::ReadFault),
        Err(OpenRefusal::NoMemory) => Err(Unopened::NoMemory),
    }
}

/// A session, and its sources.
#[derive(Drop)]
pub struct Opened {
    pub session: Session,
    /// The sources of the session, in their order.
    pub sources: Sources,
}

/// Opens a session and the files of its sources, by their heads. What is wrong is told in this order: the session's file,
/// its text, the first source, in their order, whose file isn't opened. It takes the memory of the session and of all
/// later reads of the sources.
#[tactic(auto, unfolding(crate::specs::Plan::session_plan))]
pub fn open_session<M: Media>(alloc: Global, media: &mut M, name: &str) -> Result<Opened, Unopened>
    ensures told { M.outside.tells → Gives (λ o. o.session)
        (spec.session_plan (M.outside.files media.old) name.now) result }
    ensures valid { IfOk result (λ o. IsValid o.session) }
    ensures listed { IfOk result
        (λ o. IsListed o.session.rate o.session.sources.items o.sources.opened) }
    ensures held { IfOk result (λ o. o.sources.held ≡ []) }
    ensures heads { M.outside.tells → IfOk result (λ o. IsOpened (M.outside.files media.old)
        o.session.rate o.session.sources.items o.sources.opened) }
    ensures only_reads { OnlyReads M.outside media.old media.new }
    ensures cause { Caused M.outside media.old media.new result }
{
    let session = read_session(alloc, media, name)?;
    let sources = sources_in(alloc, media, &session)?;
    Ok(Opened { session, sources })
}

/// Opens what a run plays: edition 0 of the session of that name, and its sources. What is wrong is told as `open_session`
/// tells it. It takes the memory of the session, of its editions and of all later reads of the sources.
pub fn open<M: Media>(alloc: Global, media: &mut M, name: &str) -> Result<Loaded, Unopened>
    ensures told { M.outside.tells → Gives (λ l. l.edition.session)
        (spec.session_plan (M.outside.files media.old) name.now) result }
    ensures played { IfOk result IsLoaded }
    ensures heads { M.outside.tells → IfOk result (HasHeads (M.outside.files media.old)) }
    ensures only_reads { OnlyReads M.outside media.old media.new }
    ensures cause { Caused M.outside media.old media.new result }
{
    let Opened { session, sources } = open_session(alloc, media, name)?;
    let edition = Edition::opening(alloc, session)?;
    Ok(Loaded { edition, sources })
}
