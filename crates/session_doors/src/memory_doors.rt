//! Doors in memory.
ghost use Rattle.fault_count.specs.Steps.{Rose, next_count};
ghost use Rattle.session_doors.specs.Doors.{Adds, Gives, IsCome, Stays};
ghost use Rattle.session_doors.specs.Memory.{MemoryDoorsView, Takes};
ghost use Rattle.std.specs.Prelude.{◌≡◌, ◌+◌, ◌∷◌, ◌++◌, ◌<◌, ◌≤◌, [], IfOk, Some};

use crate::{Door, Doors, Finished};
use fault_count::{MemorySink, MemorySource};
use prop_map::OutOfMemory;
use std::marker::Model;
use std::vec::IntoIter;

/// Doors with connections in memory, which keep the sessions that have ended. They fail once no connection is to come.
#[derive(Drop)]
pub struct MemoryDoors {
    coming: IntoIter<(MemorySource, MemorySink)>,
    sessions: Vec<Finished<MemorySource, MemorySink>>,
    faults: u64,
}

impl Model for MemoryDoors {
    ghost use Rattle.session_doors.specs.Memory.{MemoryDoorsView};
    ghost use Rattle.std.specs.Prelude.{◌+◌, ◌-◌, ◌≤◌, vec_capacity, vec_len};
    ghost use Rattle.std.specs.Vec.Iter.{into_iter_items, into_iter_len};

    ghost Value = { MemoryDoorsView };

    ghost view = { λ d. record { coming = into_iter_items d.coming; sessions = d.sessions.items; under_way = vec_capacity d.sessions - vec_len d.sessions - into_iter_len d.coming; fault_count = d.faults } };

    ghost invariant = { λ d. vec_len d.sessions + into_iter_len d.coming ≤ vec_capacity d.sessions };
}

impl MemoryDoors {
    /// Doors through which these connections come, in order. They have room for all their sessions from the start.
    ///
    /// # Errors
    /// Only want of memory.
    pub fn new(connections: Vec<(MemorySource, MemorySink)>) -> Result<MemoryDoors, OutOfMemory>
        ensures { IfOk result (λ doors. doors ≡ record { coming = connections.items; sessions = []; under_way = 0; fault_count = 0 }) }
    {
        let sessions = Vec::with_capacity(*connections.allocator(), connections.len())?;
        Ok(MemoryDoors {
            coming: connections.into_iter(),
            sessions,
            faults: 0,
        })
    }

    /// The sessions that have ended, in order.
    pub fn sessions(&self) -> &[Finished<MemorySource, MemorySink>]
        ensures { result.now ≡ self.now.sessions }
    {
        self.sessions.as_slice()
    }
}

impl Doors for MemoryDoors {
    type In = MemorySource;

    type Out = MemorySink;

    ghost coming = { λ d. Some d.coming };

    ghost sessions = { λ d. Some d.sessions };

    ghost awaits = { λ d. 0 < d.under_way };

    ghost fault_count = { λ d. d.fault_count };

    fn accept(&mut self) -> Door<MemorySource, MemorySink>
        ensures come { Gives (Some self.old.coming) (Some self.new.coming) result }
        ensures sessions { Stays (Some self.old.sessions) (Some self.new.sessions) }
        ensures awaits { IsCome result → 0 < self.new.under_way }
        ensures cause { result ≡ Door.Failed → Rose self.old.fault_count self.new.fault_count }
        ensures later { self.old.fault_count ≤ self.new.fault_count }
        ensures taken { Takes self.old result self.new }
    {
        match self.coming.next() {
            Some((input, output)) => Door::Come(input, output),
            None => {
                self.faults = self.faults.saturating_add(1);
                Door::Failed
            }
        }
    }

    fn ended(&mut self, session: Finished<MemorySource, MemorySink>)
        requires awaits { 0 < self.old.under_way }
        ensures sessions { Adds (Some self.old.sessions) (Some self.new.sessions) session }
        ensures come { Stays (Some self.old.coming) (Some self.new.coming) }
        ensures later { self.old.fault_count ≤ self.new.fault_count }
        ensures one_less { self.new.under_way + 1 ≡ self.old.under_way }
        ensures faults { self.new.fault_count ≡ self.old.fault_count }
    {
        self.sessions.push_reserved(session);
    }

    fn faults(&self) -> u64 {
        self.faults
    }
}
