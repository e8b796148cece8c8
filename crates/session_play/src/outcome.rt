//! What a run gives back.
ghost use Rattle.std.specs.Prelude.{◌≡◌, [], Some, None};

use cycle_journal::{Journal, Status};
use disk_ring::Ring;
use piece_item::Ack;
use run_rings::RingsList;
use run_world::Grant;
use ses_io::{FixedList, World};
use std::alloc::Global;

/// What a run gives back.
#[derive(Drop)]
pub struct Outcome<M, I, C, W, O> {
    pub status: Status,
    /// The world that the run was given, as it is now.
    pub world: World<M, I, C, W, O>,
    /// An entry for each cycle, where something was played.
    pub journal: Option<Journal>,
    /// The rings of each track, in the order of tracks; none where nothing was played.
    pub rings: RingsList,
    /// The ring of acknowledgements to control, where something was played.
    pub acks: Option<Ring<Ack>>,
    /// The ring by which control allowed cycles; none on one thread.
    pub grants: Option<Ring<Grant>>,
}

/// Of a run that played nothing. It takes no memory.
pub fn unplayed<M, I, C, W, O>(
    alloc: Global,
    status: Status,
    world: World<M, I, C, W, O>,
) -> Outcome<M, I, C, W, O>
    ensures status { result.status ≡ status }
    ensures world { result.world ≡ world }
    ensures journal { result.journal ≡ None }
    ensures rings { result.rings.items ≡ [] }
    ensures acks { result.acks ≡ None }
    ensures grants { result.grants ≡ None }
{
    Outcome {
        status,
        world,
        journal: None,
        rings: FixedList::from_vec(Vec::new(alloc)),
        acks: None,
        grants: None,
    }
}
