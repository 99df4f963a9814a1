//! Doors in memory, served one connection after the other.
ghost use Rattle.session_shell.specs.Halls.{IsOf};

use crate::samples::{doors, new_hall};
use fault_count::{MemorySink, MemorySource};
use session_doors::{Doors, Finished, MemoryDoors};
use session_server::{DoorEnd, serve_door};
use session_shell::SessionEnd;
use std::alloc::Global;
use std::sync::Wait;

// Installs a bundle with a component.
const INSTALLS: &str =
    "install {\"location\":\"p\",\"components\":{\"p\":{\"name\":\"p\",\"implementationClass\":\"P\"}}}\nquit\nbundles\n";

// How a session ends, how many items it notes, and what it writes.
type Told = (SessionEnd, usize, &'static [u8]);

// Whether a session that has ended is told so.
fn is_told(session: &Finished<MemorySource, MemorySink>, told: &Told) -> bool {
    session.end == told.0
        && session.notes.items.as_slice().len() == told.1
        && session.output.written() == told.2
}

// Whether just these sessions ended, in order.
fn are_told(sessions: &[Finished<MemorySource, MemorySink>], told: &[Told]) -> bool {
    if sessions.len() != told.len() {
        return false;
    }
    for (session, wanted) in sessions.iter().zip(told) {
        if !is_told(session, wanted) {
            return false;
        }
    }
    true
}

// How so many connections of these doors are served on a new hall.
fn served<R: Wait>(
    rt: &R,
    alloc: Global,
    doors: &mut MemoryDoors,
    connections: u64,
) -> Option<DoorEnd> {
    match new_hall(alloc) {
        Some((hall, mut pass)) => Some(serve_door(rt, alloc, &hall, &mut pass, doors, connections)),
        None => None,
    }
}

// Whether so many connections of which these come end so, with these sessions and so many faults.
fn is_served<R: Wait>(
    rt: &R,
    alloc: Global,
    texts: &[&str],
    connections: u64,
    end: DoorEnd,
    told: &[Told],
    faults: u64,
) -> bool {
    match doors(alloc, texts) {
        Some(mut all) => {
            served(rt, alloc, &mut all, connections) == Some(end)
                && are_told(all.sessions(), told)
                && all.faults() == faults
        }
        None => false,
    }
}

#[test]
fn each_connection_is_served_behind_the_one_before(rt: HostRuntime) {
    let texts = [INSTALLS, "bundles\n"];
    let told: [Told; 2] = [
        (SessionEnd::Quit, 1, b"ok bundle 1\n"),
        (SessionEnd::EndOfInput, 1, b"ok 1\n1 2 p 0.0.0\n"),
    ];
    assert!(rt; is_served(&rt, rt.alloc(), &texts, 2, DoorEnd::Served, &told, 0));
}

#[test]
fn a_connection_may_be_empty(rt: HostRuntime) {
    let told: [Told; 1] = [(SessionEnd::EndOfInput, 0, b"")];
    assert!(rt;
        is_served(
            &rt,
            rt.alloc(),
            &["", "bundles\n"],
            1,
            DoorEnd::Served,
            &told,
            0
        )
    );
}

#[test]
fn a_door_without_a_connection_fails(rt: HostRuntime) {
    let told: [Told; 1] = [(SessionEnd::EndOfInput, 1, b"ok 0\n")];
    assert!(rt;
        is_served(
            &rt,
            rt.alloc(),
            &["bundles\n"],
            3,
            DoorEnd::AcceptFault,
            &told,
            1
        )
    );
}
