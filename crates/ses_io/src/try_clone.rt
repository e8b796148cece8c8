//! Equal values of their own: what a copy is where making it takes memory.
ghost use Rattle.std.specs.Prelude.{◌≡◌, IfOk};

use crate::{FixedList, NoMemory};
use std::alloc::Global;

/// A type of which a second, equal value can be made.
pub trait TryClone: Drop {
    /// A value equal to this one, with the same room.
    fn try_clone(&self, alloc: Global) -> Result<Self, NoMemory>
        ensures { IfOk result (λ other. other ≡ self.now) };
}

impl<T: TryClone> TryClone for FixedList<T> {
    fn try_clone(&self, alloc: Global) -> Result<Self, NoMemory> {
        let mut other = FixedList::new(alloc, self.room())?;
        for item in self.as_slice() {
            other.push(item.try_clone(alloc)?);
        }
        Ok(other)
    }
}
