//! Doors of a listener.
ghost use Rattle.session_doors.specs.Doors.{Adds, Stays};
ghost use Rattle.std.specs.Prelude.{◌≤◌, None};

use crate::{Door, Doors, Finished};
use fault_count::{StdSink, StdSource};
use std::io;
use std::net::{TcpListener, TcpStream};
use std::sync::Arc;

/// The doors of a listener that threads share: each has a value of its own, with its own count of faults. They tell
/// neither list, and let each session go, so that its connection is closed. What comes through them is up to the system.
#[derive(Drop)]
pub struct TcpDoors {
    listener: Arc<TcpListener>,
    faults: u64,
}

impl TcpDoors {
    /// Doors of this listener.
    pub fn new(listener: Arc<TcpListener>) -> TcpDoors {
        TcpDoors {
            listener,
            faults: 0,
        }
    }
}

impl Doors for TcpDoors {
    type In = StdSource<TcpStream>;

    type Out = StdSink<TcpStream>;

    ghost coming = { λ _. None };

    ghost sessions = { λ _. None };

    ghost awaits = { λ _. Unit {0} };

    ghost fault_count = { λ d. d.faults };

    fn accept(&mut self) -> Door<StdSource<TcpStream>, StdSink<TcpStream>> {
        match next_stream(&self.listener) {
            Ok((input, output)) => Door::Come(StdSource::new(input), StdSink::new(output)),
            Err(_) => {
                self.faults = self.faults.saturating_add(1);
                Door::Failed
            }
        }
    }

    fn ended(&mut self, session: Finished<StdSource<TcpStream>, StdSink<TcpStream>>)
        requires awaits { Unit {0} }
        ensures sessions { Adds None None session }
        ensures come { Stays {X = Unit {0}} None None }
        ensures later { self.old.faults ≤ self.new.faults }
    {
        drop(session);
    }

    fn faults(&self) -> u64 {
        self.faults
    }
}

// The next connection, twice: to be read from and to be written to. What is written goes out at once.
fn next_stream(listener: &TcpListener) -> io::Result<(TcpStream, TcpStream)> {
    let (stream, _) = listener.accept()?;
    stream.set_nodelay(true)?;
    let other = stream.try_clone()?;
    Ok((stream, other))
}
