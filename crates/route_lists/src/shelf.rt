//! The shared value: the list of accepted edits, with room for 10,000, and whether the end was published.
ghost use Rattle.std.specs.Prelude.{◌≤◌, [], All, IsTrue, IfOk, false, ◌≡◌};
ghost use Rattle.engine_model.specs.Edits.{keeps_forms};

use crate::step::Step;
use left_right::Absorb;
use ses_io::NoMemory;
use ses_units::limits::EDITS;
use session_model::{Edit, EditList};
use std::alloc::{AllocError, Global};

/// The list as both copies of it have it.
#[derive(Drop)]
pub struct Shelf {
    pub edits: EditList,
    pub ended: bool,
    ghost room: { 10000 ≤ edits.room },
    ghost forms: { All (λ e. IsTrue (keeps_forms e)) edits.items },
}

impl Shelf {
    ghost use Rattle.route_lists.specs.Shared.{taken_in};

    /// No edit, and no end.
    pub(crate) fn new(alloc: Global) -> Result<Shelf, NoMemory>
        ensures { IfOk result (λ s. (s.edits.items ≡ []) × (s.ended ≡ false)) }
    {
        Ok(Shelf {
            edits: EditList::new(alloc, EDITS)?,
            ended: false,
        })
    }

    // A full list stays as it is, so taking in can't fail.
    fn take_in(&mut self, step: &Step)
        ensures { (self.new.edits.items, self.new.ended)
            ≡ taken_in (self.old.edits.items, self.old.ended) step.now }
    {
        match step {
            Step::Add(accepted) => {
                if self.edits.len() < EDITS as usize {
                    self.edits.push(accepted.edit);
                }
            }
            Step::End => self.ended = true,
        }
    }
}

impl Absorb<Step> for Shelf {
    ghost use Rattle.route_lists.specs.Shared.{taken_in};

    // A clause reads the array as a list, of any length.
    type State = ([Edit; 0], bool);

    ghost state = { λ s. (s.edits.items, s.ended) };

    ghost applied = { taken_in };

    ghost never_fails = { Unit {0} };

    fn absorb_first(&mut self, operation: &Step, _other: &Shelf) -> Result<(), AllocError> {
        self.take_in(operation);
        Ok(())
    }

    fn absorb_second(&mut self, operation: Step, _other: &Shelf) -> Result<(), Step> {
        self.take_in(&operation);
        Ok(())
    }
}
