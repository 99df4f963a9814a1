//! What an instance was told last of each service.

use crate::samples::text;
use prop_map::{Copies, Str};
use std::alloc::Global;
use told_revisions::ToldRevisions;

// Tells a revision.
fn tells(
    alloc: Global,
    told: &mut ToldRevisions,
    reference: &str,
    service: u64,
    revision: u64,
) -> bool {
    match text(alloc, reference) {
        Ok(reference) => told.tell(alloc, reference, service, revision).is_ok(),
        Err(_) => false,
    }
}

// Whether this revision was told last.
fn is_told(
    alloc: Global,
    told: &ToldRevisions,
    reference: &str,
    service: u64,
    revision: u64,
) -> bool {
    match text(alloc, reference) {
        Ok(reference) => told.revision(&reference, service) == revision,
        Err(_) => false,
    }
}

fn tells_the_last(alloc: Global) -> bool {
    let mut told = ToldRevisions::new(alloc);
    is_told(alloc, &told, "log", 4, 0)
        && tells(alloc, &mut told, "log", 4, 1)
        && tells(alloc, &mut told, "log", 2, 5)
        && tells(alloc, &mut told, "a", 4, 9)
        && tells(alloc, &mut told, "log", 4, 6)
        && is_told(alloc, &told, "log", 4, 6)
        && is_told(alloc, &told, "log", 2, 5)
        && is_told(alloc, &told, "a", 4, 9)
}

#[test]
fn the_last_revision_is_told(rt: HostRuntime) {
    assert!(rt; tells_the_last(rt.alloc()));
}

fn forgets(alloc: Global, told: &mut ToldRevisions, reference: Str, service: u64) -> bool {
    told.forget(alloc, reference, service).is_ok()
}

fn is_forgotten(alloc: Global, told: &mut ToldRevisions, log: Str) -> bool {
    forgets(alloc, told, log, 4)
        && is_told(alloc, told, "log", 4, 0)
        && is_told(alloc, told, "log", 2, 5)
}

// Whether a service is forgotten there, and not in a copy from before.
fn is_forgotten_alone(alloc: Global, told: &mut ToldRevisions, log: Str) -> bool {
    match told.copy(alloc) {
        Ok(before) => is_forgotten(alloc, told, log) && is_told(alloc, &before, "log", 4, 6),
        Err(_) => false,
    }
}

fn forgets_log(alloc: Global, told: &mut ToldRevisions) -> bool {
    match text(alloc, "log") {
        Ok(log) => is_forgotten_alone(alloc, told, log),
        Err(_) => false,
    }
}

fn forgets_one(alloc: Global) -> bool {
    let mut told = ToldRevisions::new(alloc);
    tells(alloc, &mut told, "log", 4, 6)
        && tells(alloc, &mut told, "log", 2, 5)
        && forgets_log(alloc, &mut told)
}

#[test]
fn a_forgotten_service_has_no_revision(rt: HostRuntime) {
    assert!(rt; forgets_one(rt.alloc()));
}
