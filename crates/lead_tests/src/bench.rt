//! A list of edits, and the rings that join control with a process that isn't there.
ghost use Rattle.std.specs.Prelude.{◌≡◌, ◌<◌, length, [], false, IfOk, IfSome};
ghost use Rattle.session_model.specs.Valid.{IsValid};
ghost use Rattle.edition_log.specs.EditionState.{IsEditionOf};
ghost use Rattle.disk_ring.specs.Sender.{Sender};
ghost use Rattle.disk_ring.specs.Receiver.{Receiver};

use disk_ring::{RingIn, RingOut, ring};
use edition_log::Edition;
use piece_item::Ack;
use run_world::Grant;
use ses_io::{NoMemory, TryClone};
use session_model::Session;
use session_toml::session_of;
use std::alloc::Global;

// Rings of two items, one track.
const TEXT: &str = r#"[session]
version = 1
rate = 48000
bits = 16
channels = 1
block = 4
depth = 2

[[source]]
name = "a"
file = "a.wav"
channels = 1

[[track]]
name = "t"
channels = 1

[[track.region]]
id = 1
source = "a"
length = 8
at = 0
"#;

/// A session as it was opened, with its first edition.
#[derive(Drop)]
pub(crate) struct Opened {
    pub(crate) session: Session,
    pub(crate) edition: Edition,
}

/// What the text opens to.
pub(crate) fn open_session(alloc: Global) -> Option<Opened>
    ensures valid { IfSome result (λ o. IsValid o.session) }
    ensures edition { IfSome result (λ o. IsEditionOf o.session o.edition) }
    ensures first { IfSome result (λ o. (o.edition.edits ≡ []) × (o.edition.ended ≡ false)) }
{
    let Ok(session) = session_of(alloc, TEXT.as_bytes()) else {
        return None;
    };
    let Ok(first) = session.try_clone(alloc) else {
        return None;
    };
    match Edition::opening(alloc, first) {
        Ok(edition) => Some(Opened { session, edition }),
        Err(_) => None,
    }
}

/// An empty box for a grant.
pub(crate) fn husk(alloc: Global) -> Result<Box<Grant>, NoMemory> {
    let none = Grant {
        cycles: 0,
        edition: 0,
    };
    Ok(Box::new(alloc, none)?)
}

/// The ends of a ring of so many grants.
pub(crate) fn grants_ring(
    alloc: Global,
    depth: u32,
) -> Result<(RingIn<Grant>, RingOut<Grant>), NoMemory>
    requires { 0 < depth }
    ensures to { IfOk result (λ r. (r.0.closed ≡ false) × (r.0.room ≡ 0) × (r.0.depth ≡ depth)
        × (r.0.sent ≡ [])) }
    ensures from { IfOk result (λ r. r.1.room ≡ 0) }
{
    let mut husks = Vec::new(alloc);
    for _made in 0..depth {
        husks.push(husk(alloc)?)?;
    }
    let (to, from) = ring(alloc, depth, husks)?;
    Ok((to, from))
}

/// The ends of a ring of so many acknowledgements.
pub(crate) fn acks_ring(alloc: Global, depth: u32) -> Result<(RingIn<Ack>, RingOut<Ack>), NoMemory>
    requires { 0 < depth }
    ensures to { IfOk result (λ r. (r.0.closed ≡ false) × (r.0.room ≡ 0)) }
    ensures from { IfOk result (λ r. (r.1.room ≡ 0) × (r.1.received ≡ [])) }
{
    let mut husks = Vec::new(alloc);
    for _made in 0..depth {
        husks.push(Ack::blank(alloc)?)?;
    }
    let (to, from) = ring(alloc, depth, husks)?;
    Ok((to, from))
}
