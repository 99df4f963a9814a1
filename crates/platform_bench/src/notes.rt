//! What lies under the lock: numbers with their owners.
ghost use Rattle.std.specs.Prelude.{◌≡◌, [], ◌∷◌, ◌++◌, OnErr, OnOk};

use front_lock::Grows;
use std::alloc::{AllocError, Global};

/// Numbers, each with its owner.
#[derive(Drop)]
pub struct Notes {
    items: Vec<(u64, u64)>,
}

impl Grows for Notes {
    type Entry = u64;

    ghost entries = { λ n. n.items.items };

    ghost kept = { λ _. [] };

    ghost tie = { λ _. [] };

    fn length(&self) -> u64 {
        self.items.len() as u64
    }
}

impl Notes {
    /// No numbers.
    pub fn new(alloc: Global) -> Notes
        ensures { result.items.items ≡ [] }
    {
        Notes {
            items: Vec::new(alloc),
        }
    }

    /// Appends a number under its owner. At `Err` nothing changes.
    pub fn append(&mut self, owner: u64, number: u64) -> Result<(), AllocError>
        ensures ok { OnOk result (self.new.items.items ≡ self.old.items.items ++ (owner, number) ∷ []) }
        ensures err { OnErr result (self.new.items.items ≡ self.old.items.items) }
    {
        self.items.reserve(1)?;
        self.items.push_reserved((owner, number));
        Ok(())
    }
}
