//! A list that grows at its end alone. Its items stand in parts, which copies share.
ghost use Rattle.shared_log.specs.Parts.{joined};
ghost use Rattle.std.specs.Cmp.Lexicographic.{lists_equiv, lists_per, pointwise};
ghost use Rattle.std.specs.Prelude.{◌≡◌, ◌++◌, ◌∷◌, [], OnErr, OnOk};

use crate::parts::{merged, shared, staying};
use prop_map::{Copies, List, OutOfMemory, Shared};
use std::alloc::Global;
use std::fmt;
use std::marker::Model;

/// A list that grows at its end alone. Contracts see its items. A copy shares what it holds, so it takes room for a
/// number of parts that grows with the logarithm of the length.
#[derive(Drop)]
pub struct SharedLog<T> {
    parts: Vec<Shared<List<T>>>,
}

impl<T> Model for SharedLog<T> {
    ghost use Rattle.std.specs.Prelude.{List};
    ghost use Rattle.shared_log.specs.Parts.{joined};

    ghost Value = { List T };

    ghost view = { λ l. joined l.parts.items };
}

impl<T: Copies> SharedLog<T> {
    /// A list with no items. It takes no memory.
    pub fn new(alloc: Global) -> SharedLog<T>
        ensures { result ≡ [] }
    {
        SharedLog {
            parts: Vec::new(alloc),
        }
    }

    /// The parts in which the items stand, the first one first. It takes no memory. There are about as many as the
    /// number of items has binary digits.
    pub fn parts(&self) -> &[Shared<List<T>>]
        ensures { joined result.now ≡ self.now }
    {
        self.parts.as_slice()
    }

    /// Adds an item at the end. On the average of all that were added it copies about as many items as the number of
    /// items has binary digits, since a part is merged only into one at least twice as long.
    ///
    /// # Errors
    /// Only want of memory. The list is as it was then, and the item is dropped.
    pub fn push(&mut self, alloc: Global, item: T) -> Result<(), OutOfMemory>
        ensures ok { OnOk result (self.new ≡ self.old ++ item ∷ []) }
        ensures err { OnErr result (self.new ≡ self.old) }
    {
        self.parts.reserve(1)?;
        let kept = staying(self.parts.as_slice());
        let last = merged(alloc, &self.parts[kept..], item)?;
        self.parts.truncate(kept);
        self.parts.push_reserved(last);
        Ok(())
    }
}

impl<T: Copies> Copies for SharedLog<T> {
    fn copy(&self, alloc: Global) -> Result<SharedLog<T>, OutOfMemory> {
        Ok(SharedLog {
            parts: shared(alloc, self.parts.as_slice())?,
        })
    }
}

impl<T: Copies + PartialEq> PartialEq for SharedLog<T> {
    ghost eq = { pointwise T.eq };

    ghost laws = { lists_per T.laws };

    fn eq(&self, other: &SharedLog<T>) -> bool {
        let ours = self.parts.iter().flat_map(|part| part.get().as_slice());
        ours.eq(other.parts.iter().flat_map(|part| part.get().as_slice()))
    }
}

impl<T: Copies + Eq> Eq for SharedLog<T> {
    ghost laws = { lists_equiv T.Eq.laws };
}

impl<T: Copies + fmt::Debug> fmt::Debug for SharedLog<T> {
    fn fmt<W: fmt::Write>(&self, f: &mut fmt::Formatter<W>) -> fmt::Result {
        let items = self.parts.iter().flat_map(|part| part.get().as_slice());
        f.debug_list().entries(items).finish()
    }
}
