ghost use Rattle.std.specs.Prelude.{◌≡◌, IfOk};

use sqlite_items::Items;
use std::alloc::{AllocError, Global};

/// Copies of trees, in memory of their own.
pub trait CloneIn: Drop {
    /// A copy, field for field and item for item.
    fn clone_in(&self, alloc: Global) -> Result<Self, AllocError>
        ensures { IfOk result (λ copy. copy ≡ self.now) };
}

impl<T: CloneIn> CloneIn for Items<T> {
    fn clone_in(&self, alloc: Global) -> Result<Items<T>, AllocError> {
        let mut copies = Vec::with_capacity(alloc, self.len())?;
        for item in self.as_slice() {
            copies.push(item.clone_in(alloc)?)?;
        }
        Ok(Items::from_vec(copies))
    }
}
