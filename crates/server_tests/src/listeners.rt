//! Doors of listeners: over memory, and at the loopback of the system.

use crate::samples::{doors, new_hall};
use session_doors::{Doors, ListenStop, Listens, MemoryListens, TcpDoors, TcpListens};
use session_server::{DoorEnd, serve_door};
use std::alloc::Global;
use std::io;
use std::io::{Read, Write};
use std::net::{Net, Shutdown, TcpListener, TcpStream};
use std::sync::{Arc, Wait};

// One list, of one door.
fn one_door(alloc: Global) -> Option<MemoryListens> {
    let mut list = Vec::new(alloc);
    list.push(doors(alloc, &[])?).ok()?;
    let mut lists = Vec::new(alloc);
    lists.push(list).ok()?;
    Some(MemoryListens::new(lists))
}

// How many doors there are for so many threads at an address; None where listening failed.
fn many<L: Listens>(listens: &mut L, address: &str, threads: u32) -> Option<usize> {
    match listens.listen(address, threads) {
        Ok(doors) => Some(doors.len()),
        Err(ListenStop::Failed) => None,
        Err(ListenStop::OutOfMemory) => Some(0),
    }
}

#[test]
fn lists_of_doors_in_memory_are_given_in_order(rt: HostRuntime) {
    let given = match one_door(rt.alloc()) {
        Some(mut listens) => {
            many(&mut listens, "a", 2).is_none()
                && many(&mut listens, "a", 1) == Some(1)
                && many(&mut listens, "a", 1).is_none()
                && listens.faults() == 2
        }
        None => false,
    };
    assert!(rt; given);
}

#[test]
fn a_listener_of_the_system_is_shared(rt: HostRuntime) {
    let mut listens = TcpListens::new(&rt, rt.alloc());
    let given = many(&mut listens, "127.0.0.1:0", 3) == Some(3)
        && many(&mut listens, "no address", 1).is_none()
        && listens.faults() == 1;
    assert!(rt; given);
}

// Asks for the bundles, by a client that has said all before it is served.
fn asks(stream: &mut TcpStream) -> io::Result<()> {
    stream.write_all(b"bundles\n")?;
    stream.shutdown(Shutdown::Write)
}

// Whether one connection is served on a new hall.
fn is_served<R: Wait>(rt: &R, alloc: Global, doors: &mut TcpDoors) -> bool {
    match new_hall(alloc) {
        Some((hall, mut pass)) => serve_door(rt, alloc, &hall, &mut pass, doors, 1)
            == DoorEnd::Served,
        None => false,
    }
}

// Whether this client is told that there are no bundles.
fn is_told(stream: &mut TcpStream) -> bool {
    let mut room = [0u8; 16];
    match stream.read(&mut room) {
        Ok(count) => room.get(..count) == Some(b"ok 0\n".as_slice()),
        Err(_) => false,
    }
}

// Whether a client at loopback is served.
fn answers<R: Net<Listener = TcpListener, Stream = TcpStream> + Wait>(
    rt: &R,
    alloc: Global,
) -> io::Result<bool> {
    let listener = TcpListener::bind(rt, "127.0.0.1:0")?;
    let mut client = TcpStream::connect(rt, listener.local_addr()?)?;
    asks(&mut client)?;
    let mut doors = TcpDoors::new(Arc::new(alloc, listener)?);
    Ok(is_served(rt, alloc, &mut doors) && is_told(&mut client) && doors.faults() == 0)
}

#[test]
fn a_client_of_the_system_is_served(rt: HostRuntime) {
    assert!(rt; answers(&rt, rt.alloc()).unwrap_or(false));
}
