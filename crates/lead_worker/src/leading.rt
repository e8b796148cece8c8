//! Control's whole thread.
ghost use Rattle.std.specs.Prelude.{◌≡◌, true};
ghost use Rattle.control_desk.specs.Standing.{is_ended};
ghost use Rattle.lead_worker.specs.Leads.{BeginsToLead, IsLedUntil, LeadLeaves};
ghost use Rattle.disk_ring.specs.Receiver.{GoesOnOut};
ghost use Rattle.disk_ring.specs.Sender.{GoesOnIn};
ghost use Rattle.lead_worker.specs.Links.{GoesOnLink};

use crate::line::carry;
use crate::link::ProcessLink;
use crate::settling::settle;
use control_desk::Control;
use disk_ring::{RingIn, RingOut};
use piece_item::Ack;
use route_lists::Lists;
use run_bells::Bells;
use run_world::Grant;
use ses_io::{Sink, Source};
use session_model::Session;
use std::snapshot::Snapshot;
use std::sync::Wait;

/// What control's thread owns.
#[derive(Drop)]
pub struct LeadWorker<'r, R: Wait, C: Source, O: Sink> {
    pub lists: Lists<'r, R>,
    pub control: Control<C, O>,
    pub link: ProcessLink,
}

/// What it gives back.
#[derive(Drop)]
pub struct Led<'r, R: Wait, C: Source, O: Sink> {
    pub lists: Lists<'r, R>,
    pub control: Control<C, O>,
    pub grants: RingIn<Grant>,
    pub acks: RingOut<Ack>,
    /// Whether there was no memory for an edit, after which no line was taken.
    pub memory: bool,
}

// All lines, until control has ended, or there is no memory for an edit. Whether there was none.
fn all_lines<'r, R: Wait, C: Source, O: Sink>(
    rt: &R,
    session: &Snapshot<Session>,
    lists: Lists<'r, R>,
    control: &mut Control<C, O>,
    link: &mut ProcessLink,
    bells: &Bells,
) -> (Lists<'r, R>, bool)
    requires begins { BeginsToLead session.now.value lists control.old link.old }
    ensures led { IsLedUntil C.outside O.outside session.now.value control.old result.0
        control.new link.new result.1 }
    ensures goes { GoesOnLink link.old link.new }
{
    let mut lists = lists;
    for _line in rt.forever() {
        if control.has_ended() {
            return (lists, false);
        }
        let (next, wanting) = carry(session, lists, control);
        lists = next;
        if wanting {
            return (lists, true);
        }
        bells.wake_butler();
        settle(rt, control, link, lists.edition().number(), bells);
    }
    unreachable!()
}

/// Control's thread: its lines one by one, each answered to out before the next one is taken, what it awaits with all its cycles allowed;
/// and then so many cycles more. It takes the memory of edits alone, and where there is none for one it takes no further line.
pub fn lead<'r, R: Wait, C: Source, O: Sink>(
    rt: &R,
    session: &Snapshot<Session>,
    w: LeadWorker<'r, R, C, O>,
    cycles: u32,
    bells: &Bells,
) -> Led<'r, R, C, O>
    requires begins { BeginsToLead session.now.value w.lists w.control w.link }
    ensures leaves { LeadLeaves C.outside O.outside session.now.value cycles w.entry.control
        result.memory result.lists result.control result.grants result.acks }
    ensures grants { GoesOnIn w.entry.link.granting.to result.grants }
    ensures acks { GoesOnOut w.entry.link.hearing result.acks }
{
    let LeadWorker {
        lists,
        mut control,
        mut link,
    } = w;
    let (lists, memory) = all_lines(rt, session, lists, &mut control, &mut link, bells);
    link.allow_all(rt, cycles, lists.edition().number(), bells);
    let (grants, acks) = link.ends();
    Led {
        lists,
        control,
        grants,
        acks,
        memory,
    }
}
