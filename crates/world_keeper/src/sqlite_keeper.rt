//! A keeper over a database in memory.
ghost use Rattle.fault_count.specs.Steps.{Rose};
ghost use Rattle.std.specs.Prelude.{◌≡◌, ◌≤◌, IfOk, List};
ghost use Rattle.world_keeper.specs.KeptWorlds.{kept_by, nothing};
ghost use Rattle.world_keeper.specs.Tables.{KeepsChanges, Stays};
ghost use Rattle.world_keeper.specs.declared.change.Change.{Change};

use crate::database::{found_at, put_at};
use crate::keeping::kept_of;
use crate::shortening::shorten;
use crate::{Change, KeepFault, Keeper, Kept};
use sqlite::{Connection, Error, ErrorCode, MemStore};
use std::alloc::Global;
use std::marker::Model;

/// Keeps each change as a row of a table in memory, in order. Contracts see what it keeps and how often it has failed.
#[derive(Drop)]
pub struct SqliteKeeper {
    alloc: Global,
    place: Option<Connection<MemStore>>,
    faults: u64,
}

impl Model for SqliteKeeper {
    ghost use Rattle.world_keeper.specs.KeptWorlds.{kept_by};
    ghost use Rattle.world_keeper.specs.Stored.{StoredWorld};
    ghost use Rattle.world_keeper.specs.Tables.{KeepsChanges, changes_at};

    ghost Value = { StoredWorld };

    ghost view = { λ k. record { kept = kept_by (changes_at k.place); fault_count = k.faults } };

    ghost invariant = { λ k. KeepsChanges k.place (changes_at k.place) };
}

impl SqliteKeeper {
    /// A keeper that keeps nothing yet. It opens its database at its first call.
    pub fn new(alloc: Global) -> SqliteKeeper
        ensures { result ≡ record { kept = nothing; fault_count = 0 } }
    {
        SqliteKeeper {
            alloc,
            place: None,
            faults: 0,
        }
    }
}

// The fault that an error is told as. Each other than want of memory is counted.
fn counted(error: Error, faults: &mut u64) -> KeepFault
    ensures cause { result ≡ KeepFault.Failed → Rose faults.old faults.new }
    ensures later { faults.old ≤ faults.new }
{
    match error {
        Error::SqliteFailure(ErrorCode::OutOfMemory) => KeepFault::OutOfMemory,
        _ => {
            *faults = faults.saturating_add(1);
            KeepFault::Failed
        }
    }
}

// What is kept in a place, whose list begins anew where it is long.
fn kept_at(alloc: Global, place: &mut Option<Connection<MemStore>>) -> Result<Kept, Error>
    ensures stays { (changes : List Change) → KeepsChanges place.old changes → Stays place.new changes }
    ensures all { (changes : List Change) → KeepsChanges place.old changes →
        IfOk result (λ kept. kept ≡ kept_by changes) }
{
    let changes = found_at(alloc, place)?;
    let kept = kept_of(alloc, changes.as_slice())?;
    shorten(alloc, place, changes.len(), &kept)?;
    Ok(kept)
}

impl Keeper for SqliteKeeper {
    ghost kept = { λ k. k.kept };

    ghost fault_count = { λ k. k.fault_count };

    fn load(&mut self) -> Result<Kept, KeepFault> {
        match kept_at(self.alloc, &mut self.place) {
            Ok(kept) => Ok(kept),
            Err(error) => Err(counted(error, &mut self.faults)),
        }
    }

    fn apply(&mut self, change: &Change) -> Result<(), KeepFault> {
        match put_at(self.alloc, &mut self.place, change) {
            Ok(()) => Ok(()),
            Err(error) => Err(counted(error, &mut self.faults)),
        }
    }

    fn faults(&self) -> u64 {
        self.faults
    }
}
