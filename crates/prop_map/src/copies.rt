//! Equal values beside those that stand.
ghost use Rattle.std.specs.Prelude.{◌≡◌, ◌++◌, ◌∷◌, [], IfOk, map, take};

use crate::{List, OutOfMemory};
use std::alloc::Global;

/// A value of which an equal one can be made.
pub trait Copies: Sized + Drop {
    /// An equal value. What is shared in it stays shared and takes no memory; the rest has memory of its own.
    ///
    /// # Errors
    /// Only want of memory.
    fn copy(&self, alloc: Global) -> Result<Self, OutOfMemory>
        ensures { IfOk result (λ other. other ≡ self.now) };
}

impl<T: Copies> Copies for List<T> {
    fn copy(&self, alloc: Global) -> Result<List<T>, OutOfMemory> {
        let items = self.as_slice();
        let mut copied = Vec::new(alloc);
        for item in items {
            copied.push(item.copy(alloc)?)?;
        }
        Ok(List::of(copied))
    }
}

impl<T: Copies> Copies for Option<T> {
    fn copy(&self, alloc: Global) -> Result<Option<T>, OutOfMemory> {
        match self {
            Some(value) => Ok(Some(value.copy(alloc)?)),
            None => Ok(None),
        }
    }
}
