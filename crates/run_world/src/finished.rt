//! A run that has ended.
use cycle_journal::Journal;
use disk_ring::{Ring, Roomy};
use piece_item::Ack;
use run_rings::RingsList;
use ses_io::World;
use session_model::EditList;

/// What went wrong in a run: each is set exactly where its object's count rose, but for `long` and
/// `memory`, which no count tells.
#[derive(Clone, Copy, Debug, Default, PartialEq, Eq)]
pub struct Faults {
    /// A read of the input failed.
    pub input: bool,
    /// A write of the master failed.
    pub master: bool,
    /// A call that reads the media failed.
    pub read: bool,
    /// A call that writes the media failed.
    pub write: bool,
    /// A read of control failed.
    pub control: bool,
    /// Control gave more bytes than are read, with no accepted `quit` in them.
    pub long: bool,
    /// A write of the replies failed.
    pub out: bool,
    /// A call of a run on threads answered want of memory once they had begun; a run on one thread
    /// never sets it.
    pub memory: bool,
}

/// So many cycles may be made, in this edition or in a newer one: what control tells the process on
/// threads.
#[derive(Clone, Copy, Debug, PartialEq, Eq)]
pub struct Grant {
    pub cycles: u32,
    /// How many edits were accepted by then.
    pub edition: u32,
}

impl Roomy for Grant {
    ghost room_of = { λ _. 0 };

    fn room(&self) -> u32 {
        0
    }
}

/// All that a run leaves.
#[derive(Drop)]
pub struct Finished<M, I, C, W, O> {
    pub world: World<M, I, C, W, O>,
    pub journal: Journal,
    /// The accepted edits.
    pub edits: EditList,
    pub rings: RingsList,
    /// The ring of acknowledgements to control.
    pub acks: Ring<Ack>,
    /// The ring by which control allowed cycles; none on one thread.
    pub grants: Option<Ring<Grant>>,
    pub faults: Faults,
}
