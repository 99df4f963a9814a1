//! A keeper in memory.
ghost use Rattle.fault_count.specs.Memory.{is_listed};
ghost use Rattle.fault_count.specs.Steps.{Rose};
ghost use Rattle.std.specs.Prelude.{◌≡◌, ◌≤◌, is_err, IfErr, IfOk, IsTrue, OnErr, OnOk};
ghost use Rattle.world_keeper.specs.KeptWorlds.{kept_after, nothing};
ghost use Rattle.world_keeper.specs.Memory.{after_call};
ghost use Rattle.world_keeper.specs.Orders.{IsOrdered};

use crate::keeping::kept_of;
use crate::{Change, KeepFault, Keeper, Kept};
use prop_map::Copies;
use std::alloc::Global;
use std::marker::Model;

/// Keeps a list of changes, and fails in the calls that are listed. Contracts see what it keeps and how it fails.
#[derive(Drop)]
pub struct MemoryKeeper {
    alloc: Global,
    changes: Vec<Change>,
    failing: Vec<u64>,
    calls: u64,
    faults: u64,
}

impl Model for MemoryKeeper {
    ghost use Rattle.world_keeper.specs.KeptWorlds.{kept_by};
    ghost use Rattle.world_keeper.specs.Memory.{MemoryWorld};

    ghost Value = { MemoryWorld };

    ghost view = { λ k. record {
      kept = kept_by k.changes.items;
      failing = k.failing.items;
      calls = k.calls;
      fault_count = k.faults;
    } };
}

impl MemoryKeeper {
    /// A keeper that keeps nothing yet. A `load` or an `apply` fails where its number, from 0, is listed in `failing`.
    pub fn new(alloc: Global, failing: Vec<u64>) -> MemoryKeeper
        ensures { result ≡ record { kept = nothing; failing = failing.items; calls = 0; fault_count = 0 } }
    {
        MemoryKeeper {
            alloc,
            changes: Vec::new(alloc),
            failing,
            calls: 0,
            faults: 0,
        }
    }

    // Counts a call, which fails where it is listed.
    fn begin(&mut self) -> Result<(), KeepFault>
        ensures after { self.new ≡ after_call self.old }
        ensures failed { is_err result ≡ is_listed self.old.failing self.old.calls }
        ensures only { IfErr result (λ fault. fault ≡ KeepFault.Failed) }
        ensures cause { OnErr result (Rose self.old.fault_count self.new.fault_count) }
        ensures later { self.old.fault_count ≤ self.new.fault_count }
    {
        let call = self.calls;
        self.calls = call.saturating_add(1);
        if self.failing.contains(&call) {
            self.faults = self.faults.saturating_add(1);
            return Err(KeepFault::Failed);
        }
        Ok(())
    }
}

impl Keeper for MemoryKeeper {
    ghost kept = { λ k. k.kept };

    ghost fault_count = { λ k. k.fault_count };

    fn load(&mut self) -> Result<Kept, KeepFault>
        ensures same { self.new.kept ≡ self.old.kept }
        ensures all { IfOk result (λ found. found ≡ self.old.kept) }
        ensures ordered { IfOk result IsOrdered }
        ensures cause { result ≡ Err KeepFault.Failed → Rose self.old.fault_count self.new.fault_count }
        ensures later { self.old.fault_count ≤ self.new.fault_count }
        ensures listed { IsTrue (is_listed self.old.failing self.old.calls) → result ≡ Err KeepFault.Failed }
        ensures only_listed { result ≡ Err KeepFault.Failed → IsTrue (is_listed self.old.failing self.old.calls) }
        ensures after { self.new ≡ after_call self.old }
    {
        self.begin()?;
        Ok(kept_of(self.alloc, self.changes.as_slice())?)
    }

    fn apply(&mut self, change: &Change) -> Result<(), KeepFault>
        ensures ok { OnOk result (self.new.kept ≡ kept_after self.old.kept change.now) }
        ensures err { OnErr result (self.new.kept ≡ self.old.kept) }
        ensures cause { result ≡ Err KeepFault.Failed → Rose self.old.fault_count self.new.fault_count }
        ensures later { self.old.fault_count ≤ self.new.fault_count }
        ensures listed { IsTrue (is_listed self.old.failing self.old.calls) → result ≡ Err KeepFault.Failed }
        ensures only_listed { result ≡ Err KeepFault.Failed → IsTrue (is_listed self.old.failing self.old.calls) }
        ensures after { self.new ≡ record (after_call self.old) { kept = self.new.kept } }
    {
        self.begin()?;
        self.changes.push(change.copy(self.alloc)?)?;
        Ok(())
    }

    fn faults(&self) -> u64 {
        self.faults
    }
}
