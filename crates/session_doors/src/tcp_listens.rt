//! Doors of listeners at addresses of the system.
ghost use Rattle.fault_count.specs.Steps.{Rose};
ghost use Rattle.std.specs.Prelude.{◌≡◌, ◌≤◌, IfErr, IfOk, None, length};

use crate::{ListenStop, Listens, TcpDoors};
use prop_map::OutOfMemory;
use std::alloc::Global;
use std::net::{Net, TcpListener, TcpStream};
use std::sync::Arc;

/// Listens at addresses of the system: an IP address or the name of a host, with a port. All doors at an address share its
/// listener. What comes there is up to the system, so nothing is told.
#[derive(Drop)]
pub struct TcpListens<'a, R> {
    net: &'a R,
    alloc: Global,
    faults: u64,
}

impl<'a, R> TcpListens<'a, R> {
    /// Listens by this runtime.
    pub fn new(net: &'a R, alloc: Global) -> TcpListens<'a, R> {
        TcpListens {
            net,
            alloc,
            faults: 0,
        }
    }
}

impl<'a, R: Net<Listener = TcpListener, Stream = TcpStream>> Listens for TcpListens<'a, R> {
    type Doors = TcpDoors;

    ghost offers = { λ _. None };

    ghost fault_count = { λ l. l.faults };

    fn listen(&mut self, address: &str, threads: u32) -> Result<Vec<TcpDoors>, ListenStop> {
        match TcpListener::bind(self.net, address) {
            Ok(listener) => match doors_of(self.alloc, listener, threads) {
                Ok(doors) => Ok(doors),
                Err(_) => Err(ListenStop::OutOfMemory),
            },
            Err(_) => {
                self.faults = self.faults.saturating_add(1);
                Err(ListenStop::Failed)
            }
        }
    }

    fn faults(&self) -> u64 {
        self.faults
    }
}

// So many doors of this listener.
fn doors_of(
    alloc: Global,
    listener: TcpListener,
    threads: u32,
) -> Result<Vec<TcpDoors>, OutOfMemory>
    ensures { IfOk result (λ doors. length doors.items ≡ threads) }
{
    let shared = Arc::new(alloc, listener)?;
    let mut doors = Vec::new(alloc);
    for _ in 0..threads {
        doors.push(TcpDoors::new(Arc::try_clone(&shared)?))?;
    }
    Ok(doors)
}
