//! The lists that a run leaves, with room for all that they will hold.
ghost use Rattle.std.specs.Prelude.{◌≡◌, ◌≤◌, [], IfOk};
ghost use Rattle.run_end.specs.Lists.{no_lists};

use edition_log::Edition;
use run_rings::RingsList;
use ses_io::{FixedList, NoMemory};
use ses_units::limits::EDITS;
use session_model::EditList;
use std::alloc::Global;

/// The lists, empty at first.
#[derive(Drop)]
pub struct RunLists {
    /// Of the rings of all tracks.
    pub rings: RingsList,
    /// Of the accepted edits.
    pub edits: EditList,
}

impl RunLists {
    /// Empty lists for so many tracks.
    pub fn new(alloc: Global, tracks: u32) -> Result<RunLists, NoMemory>
        ensures { IfOk result (λ x. x ≡ no_lists tracks) }
    {
        Ok(RunLists {
            rings: FixedList::new(alloc, tracks)?,
            edits: FixedList::new(alloc, EDITS)?,
        })
    }
}

/// Copies the edits of an edition into an empty list.
pub(crate) fn copy_edits(edits: &mut EditList, edition: &Edition)
    requires none { edits.old.items ≡ [] }
    requires room { 10000 ≤ edits.old.room }
    ensures { edits.new.items ≡ edition.now.edits }
{
    let accepted = edition.edits().as_slice();
    for k in 0..edition.number() {
        edits.push(accepted[k as usize]);
    }
}
