//! The journal within its limit.

use journal_core::{Entry, Journal, JournalFault};
use prop_map::List;
use std::alloc::Global;

fn entry(alloc: Global, step: u64) -> Entry<u64> {
    Entry {
        step,
        closed: List::of(Vec::new(alloc)),
        opened: List::of(Vec::new(alloc)),
        stopped: List::of(Vec::new(alloc)),
    }
}

// Whether an entry was added, and what refused it otherwise. The entry that comes back is the one that was given.
fn append(alloc: Global, journal: &mut Journal<u64>, step: u64) -> Option<JournalFault> {
    match journal.append(entry(alloc, step)) {
        Ok(()) => None,
        Err((_, fault)) => Some(fault),
    }
}

// Reserves two of three places, and nothing more than there is room for.
fn reserves(alloc: Global, journal: &mut Journal<u64>) -> bool {
    journal.reserve(4) == Err(JournalFault::Full)
        && journal.reserve(2) == Ok(())
        && journal.room() == 1
        && append(alloc, journal, 10) == None
        && append(alloc, journal, 11) == Some(JournalFault::Full)
}

// Uses one of the two, and gives the other back.
fn uses_what_is_reserved(alloc: Global, journal: &mut Journal<u64>) -> bool {
    if journal.reserved() != 2 {
        return false;
    }
    if journal.append_reserved(entry(alloc, 12)).is_err() {
        return false;
    }
    if journal.reserved() != 1 {
        return false;
    }
    journal.give_back(1);
    append(alloc, journal, 13) == None
}

fn is_step(entry: Option<&Entry<u64>>, step: u64) -> bool {
    match entry {
        Some(entry) => entry.step == step,
        None => false,
    }
}

fn is_full(journal: &Journal<u64>) -> bool {
    journal.length() == 3
        && journal.entries().len() == 3
        && is_step(journal.at(1), 12)
        && journal.at(3).is_none()
}

fn keeps_room(alloc: Global) -> bool {
    let mut journal = Journal::new(alloc, 3);
    reserves(alloc, &mut journal) && uses_what_is_reserved(alloc, &mut journal) && is_full(&journal)
}

#[test]
fn reserved_room_is_kept(rt: HostRuntime) {
    assert!(rt; keeps_room(rt.alloc()));
}

// Whether the last entry, which is taken back, has this step.
fn takes_back(journal: &mut Journal<u64>, step: u64) -> bool {
    match journal.take_back() {
        Some(entry) => entry.step == step,
        None => false,
    }
}

fn has_room_again(alloc: Global) -> bool {
    let mut journal = Journal::new(alloc, 1);
    append(alloc, &mut journal, 10) == None
        && takes_back(&mut journal, 10)
        && append(alloc, &mut journal, 11) == None
}

#[test]
fn the_last_entry_is_taken_back(rt: HostRuntime) {
    assert!(rt; has_room_again(rt.alloc()));
}
