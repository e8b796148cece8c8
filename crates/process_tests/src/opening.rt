//! What a process begins with: a session and edition 0 of it, and an input and a master in memory.
ghost use Rattle.std.specs.Prelude.{◌≡◌, [], IfSome, IfOk};
ghost use Rattle.process_tests.specs.Bench.{IsOpened};

use edition_log::Edition;
use ses_io::{MemSink, MemSource, NoMemory, TryClone};
use session_model::Session;
use session_toml::session_of;
use std::alloc::Global;

/// A session as it was opened, with its first edition.
#[derive(Drop)]
pub(crate) struct Opened {
    pub(crate) session: Session,
    pub(crate) edition: Edition,
}

/// What the text of a session opens to.
pub(crate) fn open_session(alloc: Global, text: &[u8]) -> Option<Opened>
    ensures { IfSome result (λ o. IsOpened o.session o.edition) }
{
    let Ok(session) = session_of(alloc, text) else {
        return None;
    };
    let Ok(first) = session.try_clone(alloc) else {
        return None;
    };
    let Ok(edition) = Edition::opening(alloc, first) else {
        return None;
    };
    Some(Opened { session, edition })
}

/// The numbers of the reads of the input that fail, and of the writes of the master, each from 1.
#[derive(Clone, Copy)]
pub(crate) struct Fails {
    pub(crate) reads: &'static [u64],
    pub(crate) writes: &'static [u64],
}

/// What a process on a bench is given: a session, how many cycles are asked for, the bytes of its input and the input itself,
/// of 16 bits and one channel, with the frames that its head tells, and its master.
#[derive(Drop)]
pub(crate) struct Given<I, W> {
    pub(crate) opened: Opened,
    pub(crate) cycles: u32,
    pub(crate) start: Vec<u8>,
    pub(crate) input: I,
    pub(crate) frames: u16,
    pub(crate) master: W,
}

fn copied<T: Copy + Drop>(alloc: Global, items: &[T]) -> Result<Vec<T>, NoMemory>
    ensures { IfOk result (λ v. v.items ≡ items.now) }
{
    let mut copy = Vec::new(alloc);
    copy.extend_from_slice(items)?;
    Ok(copy)
}

/// An input of these bytes, which it also gives, and an empty master.
pub(crate) fn ends_of(
    alloc: Global,
    bytes: &[u8],
    fails: &Fails,
) -> Result<(Vec<u8>, MemSource, MemSink), NoMemory>
    ensures input { IfOk result (λ r. r.1.left ≡ r.0.items) }
    ensures master { IfOk result (λ r. r.2.held ≡ []) }
{
    let start = copied(alloc, bytes)?;
    let input = MemSource::new(copied(alloc, bytes)?, copied(alloc, fails.reads)?);
    let master = MemSink::new(alloc, copied(alloc, fails.writes)?);
    Ok((start, input, master))
}
