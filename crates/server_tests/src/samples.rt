//! Halls, and doors in memory, for tests.
ghost use Rattle.session_shell.specs.Halls.{IsOf};
ghost use Rattle.std.specs.Prelude.{IfSome};

use demonstration_kinds::Demonstration;
use fault_count::{MemorySink, MemorySource};
use scr_world::Limits;
use session_doors::MemoryDoors;
use session_shell::{Hall, HallPass};
use std::alloc::Global;

pub(crate) type DemoHall = Hall<Demonstration>;

// A new hall and its pass.
pub(crate) fn new_hall(alloc: Global) -> Option<(DemoHall, HallPass)>
    ensures { IfSome result (λ r. IsOf r.0 r.1) }
{
    let limits = Limits {
        journal: 100,
        turns: 100,
    };
    Hall::new(alloc, Demonstration, limits).ok()
}

// A connection that sends this text and takes what it is told.
fn connection(alloc: Global, text: &str) -> Option<(MemorySource, MemorySink)> {
    let bytes = text.as_bytes().to_vec(alloc).ok()?;
    let source = MemorySource::new(bytes, 40, Vec::new(alloc));
    Some((source, MemorySink::new(5, Vec::new(alloc))))
}

// Doors through which these texts come.
pub(crate) fn doors(alloc: Global, texts: &[&str]) -> Option<MemoryDoors> {
    let mut connections = Vec::new(alloc);
    for text in texts {
        connections.push(connection(alloc, text)?).ok()?;
    }
    MemoryDoors::new(connections).ok()
}
