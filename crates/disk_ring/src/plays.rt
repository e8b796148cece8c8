//! What each step tells. These types are for the proofs alone.
ghost use Rattle.std.specs.Prelude.{[], false, length};
ghost use Rattle.disk_ring.specs.Steps.{SawHead, Sent, Shut, SawTail, GlancedAt, Received};
ghost use Rattle.disk_ring.specs.Steps.{RecalledIn, RecalledOut, note, hears, hears_list};

use crate::ring_table::Known;
use crate::roomy::Roomy;
use atomic_table::{Join, Play, Split};

/// The producer's load of the head, with the slot that it takes.
pub(crate) struct SeeHead;

impl<T: Roomy> Play<Box<T>, Known<T>> for SeeHead {
    ghost then = { SawHead (λ b. b.value) T.room_of };
}

/// The producer's store of the tail, with the slot that it gives back.
pub(crate) struct Append;

impl<T: Roomy> Play<Box<T>, Known<T>> for Append {
    ghost then = { λ st m r. Sent (λ b. b.value) m };
}

/// The producer's store of the close bit.
pub(crate) struct SetBit;

impl<T: Roomy> Play<Box<T>, Known<T>> for SetBit {
    ghost then = { λ st m r. Shut m };
}

/// The consumer's load of the tail, with the slot that it takes.
pub(crate) struct SeeTail;

impl<T: Roomy> Play<Box<T>, Known<T>> for SeeTail {
    ghost then = { SawTail (λ b. b.value) T.room_of };
}

/// The consumer's load of the tail, with no slot.
pub(crate) struct GlanceAtTail;

impl<T: Roomy> Play<Box<T>, Known<T>> for GlanceAtTail {
    ghost then = { λ st m. GlancedAt m };
}

/// The consumer's store of the head, with the slot that it gives back.
pub(crate) struct Free;

impl<T: Roomy> Play<Box<T>, Known<T>> for Free {
    ghost then = { λ st m r. Received m };
}

/// A load of the head that tells the producer how what it was told fits what it sent.
pub(crate) struct RecallIn;

impl<T: Roomy> Play<Box<T>, Known<T>> for RecallIn {
    ghost then = { λ st m r. RecalledIn m };
}

/// A load of the tail that tells the consumer how what it was told fits what it received.
pub(crate) struct RecallOut;

impl<T: Roomy> Play<Box<T>, Known<T>> for RecallOut {
    ghost then = { λ st m r. RecalledOut st m };
}

/// The first seat becomes the producer's, and the new one is the consumer's.
pub(crate) struct Part;

impl<T> Split<Known<T>> for Part {
    ghost left = { λ v. record v { takes = false } };

    ghost right = { λ v. record v { sends = false } };
}

/// The producer writes what it sent into a note.
pub(crate) struct NoteIn;

impl<T> Split<Known<T>> for NoteIn {
    ghost left = { λ v. v };

    ghost right = { λ v. note v.sent v.closed v.got };
}

/// The consumer writes what it received into a note.
pub(crate) struct NoteOut;

impl<T> Split<Known<T>> for NoteOut {
    ghost left = { λ v. v };

    ghost right = { λ v. note v.received v.ended (length v.received) };
}

/// The consumer writes what it was told into a note.
pub(crate) struct NoteHeard;

impl<T> Split<Known<T>> for NoteHeard {
    ghost left = { λ v. v };

    ghost right = { λ v. note v.heard v.over v.got };
}

/// The producer reads a note, but for the number received.
pub(crate) struct HearList;

impl<T> Join<Known<T>> for HearList {
    ghost both = { hears_list };

    ghost spent = { note [] false 0 };
}

/// An end reads a note.
pub(crate) struct Hear;

impl<T> Join<Known<T>> for Hear {
    ghost both = { hears };

    ghost spent = { note [] false 0 };
}
