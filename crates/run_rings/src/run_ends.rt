//! The rings of a run, with their ends at the process, the butler and control.
ghost use Rattle.std.specs.Prelude.{IfOk};
ghost use Rattle.session_model.specs.Valid.{IsValid};
ghost use Rattle.run_rings.specs.Rings.{AreNewRunEnds};

use crate::husks::new_ring;
use crate::joining::TrackEnds;
use crate::rings::new_track_ends;
use disk_ring::RingOut;
use piece_item::{Ack, ButlerEnds};
use process_ends::ProcessEnds;
use ses_io::NoMemory;
use session_model::Session;
use std::alloc::Global;

/// Who has which ends.
#[derive(Drop)]
pub struct RunEnds {
    pub process: ProcessEnds,
    pub butler: ButlerEnds,
    /// Control's.
    pub acks: RingOut<Ack>,
}

/// New rings for a session, each of its depth, and with a box for each place.
pub fn new_run_ends(alloc: Global, s: &Session) -> Result<RunEnds, NoMemory>
    requires { IsValid s.now }
    ensures { IfOk result (AreNewRunEnds s.now) }
{
    let TrackEnds {
        sends,
        plays,
        captures,
        flushes,
    } = new_track_ends(alloc, s)?;
    let (to_butler, taken) = new_ring(alloc, s.depth, 0)?;
    let (to_control, acks) = new_ring(alloc, s.depth, 0)?;
    Ok(RunEnds {
        process: ProcessEnds {
            plays,
            takes: captures,
            to_butler,
            to_control,
        },
        butler: ButlerEnds {
            sends,
            takes: flushes,
            acks: taken,
        },
        acks,
    })
}
