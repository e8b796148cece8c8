//! An edition: a session with its transport after the accepted edits, which it keeps as a list.
ghost use Rattle.std.specs.Prelude.{◌≡◌, ◌+◌, ◌<◌, ◌≤◌, [], length, slice_index_or, IfOk, IsTrue, true, false};
ghost use Rattle.session_model.specs.declared.session.Session.{Session as Opening};
ghost use Rattle.session_model.specs.Valid.{IsValid};
ghost use Rattle.locate_loop.specs.Transport.{IsTransport};
ghost use Rattle.edition_log.specs.EditionState.{EditionState, IsEditionState, IsOpen, IsEditionOf};
ghost use Rattle.engine_model.specs.Edits.{keeps_forms};
ghost use Rattle.edition_log.specs.Steps.{Applies, Admits, Resolved};

use crate::changing::{change_session, note};
use crate::moving::moved;
use crate::types::read_types;
use edit_resolve::{Bound, Refusal, change_of};
use locate_loop::Transport;
use route_graph::{Order, order};
use ses_io::{NoMemory, TryClone};
use ses_units::limits::EDITS;
use session_change::Change;
use session_model::{Edit, EditList, Session};
use std::alloc::Global;
use std::marker::Model;

/// The state of a session after the accepted edits, the list of them, and whether it ended. Contracts see it as a record
/// of `specs/EditionState.antt`; `IsEditionOf` says that it is the state after just these edits.
#[derive(Drop)]
pub struct Edition {
    session: Session,
    transport: Transport,
    order: Order,
    touched: [u32; 32],
    edits: EditList,
    ended: bool,
}

impl Model for Edition {
    ghost use Rattle.std.specs.Prelude.{◌≤◌, length};
    ghost use Rattle.edition_log.specs.EditionState.{EditionState, IsEditionState};

    ghost Value = { EditionState };

    ghost view = { λ e. record {
      session = e.session;
      transport = e.transport;
      order = e.order;
      touched = e.touched;
      edits = e.edits.items;
      ended = e.ended;
    } };

    ghost invariant = { λ e. IsEditionState record {
      session = e.session;
      transport = e.transport;
      order = e.order;
      touched = e.touched;
      edits = e.edits.items;
      ended = e.ended;
    }
        × (10000 ≤ e.edits.room) };
}

impl Edition {
    /// Edition 0 of a session, with room for 10,000 edits.
    pub fn opening(alloc: Global, s: Session) -> Result<Edition, NoMemory>
        requires { IsValid s }
        ensures state { IfOk result (IsEditionOf s) }
        ensures first { IfOk result (λ e. (e.session ≡ s) × (e.edits ≡ []) × (e.ended ≡ false)) }
    {
        let Ok(order) = order(alloc, &s) else {
            return Err(NoMemory);
        };
        read_types(&s);
        Ok(Edition {
            session: s,
            transport: Transport::at_rest(),
            order,
            touched: [0; 32],
            edits: EditList::new(alloc, EDITS)?,
            ended: false,
        })
    }
    // What an edit changes, or why it isn't accepted.
    fn resolved(&self, edit: &Edit) -> Result<Change, Refusal>
        ensures { Resolved self.now edit.now result }
    {
        if self.edits.len() >= EDITS as usize {
            return Err(Refusal::Limit(Bound::Edits));
        }
        change_of(&self.session, self.transport.wrap, edit)
    }

    /// Takes in one more edit, and answers the number of the edition that it makes. A refused edit changes nothing. It
    /// takes no memory. The edit keeps the forms of a control line: ids are 1..999,999, lengths 1 or more, layers at most
    /// 65,535.
    pub fn apply(&mut self, edit: &Edit) -> Result<u32, Refusal>
        requires forms { IsTrue (keeps_forms edit.now) }
        requires open { IsOpen self.old }
        ensures step { Applies self.old edit.now result self.new }
        ensures stays { (s : Opening) → IsEditionOf s self.old → IsEditionOf s self.new }
    {
        let change = self.resolved(edit)?;
        change_session(&mut self.session, &mut self.order, &change);
        self.transport = moved(&self.transport, edit);
        self.edits.push(*edit);
        note(&mut self.touched, &change, self.edits.len() as u32);
        Ok(self.number())
    }

    /// The refusal that `apply` would give of an edit, or that it would be accepted.
    pub fn admits(&self, edit: &Edit) -> Result<(), Refusal>
        requires open { IsOpen self.now }
        ensures { Admits self.now edit.now result }
    {
        self.resolved(edit)?;
        Ok(())
    }

    /// No edit follows.
    pub fn end(&mut self)
        ensures ended { self.new ≡ record self.old { ended = true } }
        ensures stays { (s : Opening) → IsEditionOf s self.old → IsEditionOf s self.new }
    {
        self.ended = true;
    }

    /// How many edits were accepted.
    pub fn number(&self) -> u32
        ensures number { result ≡ length self.now.edits }
        ensures few { result ≤ 10000 }
    {
        self.edits.len() as u32
    }

    /// The session as the edits have made it.
    pub fn session(&self) -> &Session
        ensures session { result.now ≡ self.now.session }
        ensures seen { IsEditionState self.now }
    {
        &self.session
    }

    /// What the transport does, and where.
    pub fn transport(&self) -> &Transport
        ensures transport { result.now ≡ self.now.transport }
        ensures bounds { IsTransport self.now.transport }
    {
        &self.transport
    }

    /// The routes of the session, with feeders first.
    pub fn order(&self) -> &Order
        ensures { result.now ≡ self.now.order }
    {
        &self.order
    }

    /// The number of the last edit that changed a track's playlist, 0 where none did.
    pub fn touched(&self, track: u32) -> u32
        requires { track < length self.now.session.tracks.items }
        ensures { result ≡ slice_index_or self.now.touched track 0 }
    {
        self.touched[track as usize]
    }

    /// The accepted edits, the first one first.
    pub fn edits(&self) -> &EditList
        ensures { result.now.items ≡ self.now.edits }
    {
        &self.edits
    }

    /// Whether no edit follows.
    pub fn ended(&self) -> bool
        ensures { result ≡ self.now.ended }
    {
        self.ended
    }
}

impl TryClone for Edition {
    fn try_clone(&self, alloc: Global) -> Result<Self, NoMemory> {
        Ok(Edition {
            session: self.session.try_clone(alloc)?,
            transport: self.transport,
            order: self.order.try_clone(alloc)?,
            touched: self.touched,
            edits: self.edits.try_clone(alloc)?,
            ended: self.ended,
        })
    }
}
