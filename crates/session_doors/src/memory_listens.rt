//! Doors in memory, for addresses.
ghost use Rattle.fault_count.specs.Steps.{Rose};
ghost use Rattle.session_doors.specs.Doors.{Stays, TakesAll};
ghost use Rattle.std.specs.Prelude.{◌≡◌, ◌∷◌, ◌≤◌, [], IfErr, IfOk, IfSome, IsTrue, MatchResult, Some, length, map, slice_get, ◌<◌};

use crate::{ListenStop, Listens, MemoryDoors};
use std::marker::Model;

/// Gives doors in memory, whatever the address is. It fails where the next list hasn't as many as are asked for.
#[derive(Drop)]
pub struct MemoryListens {
    lists: Vec<Vec<MemoryDoors>>,
    faults: u64,
}

impl Model for MemoryListens {
    ghost use Rattle.session_doors.specs.Memory.{MemoryListensView};
    ghost use Rattle.std.specs.Prelude.{map};

    ghost Value = { MemoryListensView };

    ghost view = { λ l. record { offers = map (λ doors. doors.items) l.lists.items; fault_count = l.faults } };
}

impl MemoryListens {
    /// Gives these lists of doors, in order.
    pub fn new(doors: Vec<Vec<MemoryDoors>>) -> MemoryListens
        ensures { result ≡ record { offers = map (λ list. list.items) doors.items; fault_count = 0 } }
    {
        MemoryListens {
            lists: doors,
            faults: 0,
        }
    }
}

impl Listens for MemoryListens {
    type Doors = MemoryDoors;

    ghost offers = { λ l. Some l.offers };

    ghost fault_count = { λ l. l.fault_count };

    fn listen(&mut self, _address: &str, threads: u32) -> Result<Vec<MemoryDoors>, ListenStop>
        ensures many { IfOk result (λ doors. length doors.items ≡ threads) }
        ensures offers { MatchResult result (λ doors. TakesAll (Some self.old.offers) (Some self.new.offers) (doors.items ∷ [])) (λ _. Stays (Some self.old.offers) (Some self.new.offers)) }
        ensures cause { IfErr result (λ stop. stop ≡ ListenStop.Failed → Rose self.old.fault_count self.new.fault_count) }
        ensures later { self.old.fault_count ≤ self.new.fault_count }
    {
        if has_first(self.lists.as_slice(), threads) {
            return Ok(self.lists.remove(0));
        }
        self.faults = self.faults.saturating_add(1);
        Err(ListenStop::Failed)
    }

    fn faults(&self) -> u64 {
        self.faults
    }
}

// Whether the first of these lists has so many doors.
fn has_first(lists: &[Vec<MemoryDoors>], count: u32) -> bool
    ensures first { IsTrue result → 0 < length lists.now }
    ensures many { IsTrue result → IfSome (slice_get lists.now 0) (λ doors. length doors.items ≡ count) }
{
    match lists.first() {
        Some(doors) => doors.len() == count as usize,
        None => false,
    }
}
