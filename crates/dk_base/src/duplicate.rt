//! Types whose values are copied with memory of their own.

ghost use Rattle.std.specs.Prelude.{◌≡◌, IfOk};

use crate::error::NoMemory;
use crate::list::Sequence;
use std::alloc::Global;

/// Types whose values are copied with memory of their own.
pub trait Duplicate: Drop {
    /// An equal value.
    fn duplicate(&self, alloc: Global) -> Result<Self, NoMemory>
        ensures { IfOk result (λ copy. copy ≡ self.now) };
}

impl Duplicate for u8 {
    fn duplicate(&self, _alloc: Global) -> Result<Self, NoMemory> {
        Ok(*self)
    }
}

impl<T: Duplicate> Duplicate for Sequence<T> {
    fn duplicate(&self, alloc: Global) -> Result<Self, NoMemory> {
        let mut copy = Sequence::new(alloc);
        for item in self.slice() {
            copy.push(item.duplicate(alloc)?)?;
        }
        Ok(copy)
    }
}
