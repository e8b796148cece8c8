//! A script is led, with no other worker.
ghost use Rattle.std.specs.Prelude.{◌≡◌, ◌<◌, [], false, IfOk, IfSome};
ghost use Rattle.lead_worker.specs.Leads.{BeginsToLead};

use crate::bench::{Opened, acks_ring, grants_ring, husk, open_session};
use crate::rows::ROWS;
use control_desk::Control;
use cycle_grants::Granting;
use disk_ring::{RingIn, RingOut};
use lead_worker::{AckHearing, LeadWorker, Led, ProcessLink, lead};
use piece_item::Ack;
use route_lists::lists;
use run_bells::Bells;
use run_world::Grant;
use ses_io::{MemSink, MemSource, NoMemory, TryClone};
use session_model::Session;
use std::alloc::Global;
use std::snapshot::Snapshot;
use std::sync::Wait;

/// A script: control's bytes; the acknowledgements that wait, by entry and settled edition, and whether their ring is closed; and what
/// comes of it: the replies, how many edits are accepted, and the grants, by cycles and edition.
#[derive(Clone, Copy)]
pub(crate) struct Row {
    pub(crate) control: &'static [u8],
    pub(crate) acks: &'static [(u32, u32)],
    pub(crate) closed: bool,
    pub(crate) replies: &'static str,
    pub(crate) edits: u32,
    pub(crate) grants: &'static [(u32, u32)],
}

/// Control of a script, with which of its reads and of the writes of its replies fail.
#[derive(Drop)]
pub(crate) struct Script {
    pub(crate) source: MemSource,
    pub(crate) out: MemSink,
}

/// What is left of a script.
#[derive(Drop)]
pub(crate) struct Left {
    pub(crate) out: MemSink,
    pub(crate) edits: u32,
    pub(crate) read_failed: bool,
    pub(crate) write_failed: bool,
    pub(crate) memory: bool,
    /// The end that takes its grants.
    pub(crate) grants: RingOut<Grant>,
}

// Puts acknowledgements, as far as there is room, and closes their ring.
fn acknowledge(
    alloc: Global,
    to: RingIn<Ack>,
    acks: &[(u32, u32)],
    closed: bool,
) -> Result<(), NoMemory>
    requires open { to.closed ≡ false }
    requires room { to.room ≡ 0 }
{
    let mut to = to;
    for (cycle, settled) in acks {
        let mut ack = Ack::blank(alloc)?;
        ack.cycle = *cycle;
        ack.settled = *settled;
        let _ = to.put(ack);
    }
    if closed {
        to.close();
    }
    Ok(())
}

// The workers' ends of new rings for control, with these acknowledgements, and the end that takes its grants.
fn linked(alloc: Global, depth: u32, row: &Row) -> Result<(ProcessLink, RingOut<Grant>), NoMemory>
    requires { 0 < depth }
    ensures link { IfOk result (λ r. (r.0.granting.to.depth ≡ depth) × (r.0.granting.to.sent ≡ [])
        × (r.0.granting.over ≡ false)) }
    ensures from { IfOk result (λ r. r.1.room ≡ 0) }
{
    let (to, grants) = grants_ring(alloc, depth)?;
    let (told, acks) = acks_ring(alloc, depth)?;
    acknowledge(alloc, told, row.acks, row.closed)?;
    let hearing = AckHearing::new(acks, Ack::blank(alloc)?);
    let link = ProcessLink::new(Granting::new(to, husk(alloc)?), hearing);
    Ok((link, grants))
}

// A worker that may begin.
fn worker<'r, R: Wait>(
    rt: &'r R,
    alloc: Global,
    script: Script,
    row: &Row,
) -> Option<
    (
        Session,
        LeadWorker<'r, R, MemSource, MemSink>,
        RingOut<Grant>,
    ),
>
    ensures begins { IfSome result (λ r. BeginsToLead r.0 r.1.lists r.1.control r.1.link) }
    ensures from { IfSome result (λ r. r.2.room ≡ 0) }
{
    let Opened { session, edition } = open_session(alloc)?;
    let Ok((link, grants)) = linked(alloc, session.depth, row) else {
        return None;
    };
    let Ok((lists, _playing, _serving)) = lists(rt, alloc, edition) else {
        return None;
    };
    let Script { source, out } = script;
    let worker = LeadWorker {
        lists,
        control: Control::reading(source, out),
        link,
    };
    Some((session, worker, grants))
}

/// What is left of a script.
pub(crate) fn led<R: Wait>(rt: &R, alloc: Global, script: Script, row: &Row) -> Option<Left>
    ensures { IfSome result (λ l. l.grants.room ≡ 0) }
{
    let (session, worker, grants) = worker(rt, alloc, script, row)?;
    let bells = Bells::new();
    bells.ended(0);
    let told = Snapshot::of(&session);
    let Led {
        lists,
        control,
        grants: _,
        acks: _,
        memory,
    } = lead(rt, &told, worker, 8, &bells);
    let parts = control.parts();
    Some(Left {
        out: parts.out,
        edits: lists.edition().number(),
        read_failed: parts.read_failed,
        write_failed: parts.write_failed,
        memory,
        grants,
    })
}

// Whether these are the grants that were put.
fn are_granted(alloc: Global, from: RingOut<Grant>, grants: &[(u32, u32)]) -> Result<bool, NoMemory>
    requires { from.room ≡ 0 }
{
    let mut from = from;
    for (cycles, edition) in grants {
        let Ok(grant) = from.take(husk(alloc)?) else {
            return Ok(false);
        };
        if grant.cycles != *cycles || grant.edition != *edition {
            return Ok(false);
        }
    }
    Ok(from.take(husk(alloc)?).is_err())
}

/// A script of which nothing fails.
pub(crate) fn plain(alloc: Global, row: &Row) -> Result<Script, NoMemory> {
    Ok(Script {
        source: MemSource::new(row.control.to_vec(alloc)?, Vec::new(alloc)),
        out: MemSink::new(alloc, Vec::new(alloc)),
    })
}

// Whether a script leaves what its row says.
fn leaves<R: Wait>(rt: &R, alloc: Global, row: &Row) -> bool {
    let Ok(script) = plain(alloc, row) else {
        return false;
    };
    let Some(left) = led(rt, alloc, script, row) else {
        return false;
    };
    let Left {
        out,
        edits,
        read_failed,
        write_failed,
        memory,
        grants,
    } = left;
    out.bytes() == row.replies.as_bytes()
        && edits == row.edits
        && !read_failed
        && !write_failed
        && !memory
        && are_granted(alloc, grants, row.grants) == Ok(true)
}

#[test]
fn each_script_leaves_what_was_worked_out(rt: HostRuntime) {
    for row in ROWS {
        assert!(rt; leaves(&rt, rt.alloc(), row));
    }
}
