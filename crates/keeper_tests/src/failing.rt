//! A keeper whose third call fails, and what faults are told as.

use crate::changes::{P, Told, tell};
use crate::stories::{Story, holds_in_database, holds_in_memory};
use std::alloc::Global;
use world_keeper::{KeepFault, Keeper, Kept};

/// What a third call comes to, how many faults there are then, and whether the bundle is marked.
pub(crate) struct Third {
    end: Result<(), KeepFault>,
    faults: u64,
    marked: bool,
}

// How a start went behind a `load` and an install.
fn start_third<K: Keeper>(alloc: Global, keeper: &mut K) -> Result<(), KeepFault> {
    match keeper.load() {
        Ok(_) => tell(alloc, keeper, &Told::Install("p", P))?,
        Err(fault) => return Err(fault),
    }
    tell(alloc, keeper, &Told::Start("p"))
}

// Whether one bundle is kept, and is marked so.
fn is_marked<K: Keeper>(keeper: &mut K, marked: bool) -> bool {
    match keeper.load() {
        Ok(kept) => mark_is(&kept, marked),
        Err(_) => false,
    }
}

fn mark_is(kept: &Kept, marked: bool) -> bool {
    match kept.bundles.as_slice() {
        [bundle] => bundle.started == marked,
        _ => false,
    }
}

/// Whether the third call goes so.
pub(crate) fn goes<K: Keeper>(alloc: Global, keeper: &mut K, third: &Third) -> bool {
    start_third(alloc, keeper) == third.end
        && keeper.faults() == third.faults
        && is_marked(keeper, third.marked)
}

const FAILED: &Third = &Third {
    end: Err(KeepFault::Failed),
    faults: 1,
    marked: false,
};

#[test]
fn the_listed_call_fails(rt: HostRuntime) {
    assert!(rt; holds_in_memory(rt.alloc(), &[2], &Story::Third(FAILED)));
}

const DONE: &Third = &Third {
    end: Ok(()),
    faults: 0,
    marked: true,
};

#[test]
fn a_database_in_memory_has_no_fault(rt: HostRuntime) {
    assert!(rt; holds_in_database(rt.alloc(), &Story::Third(DONE)));
}

fn is_printed(alloc: Global, fault: KeepFault, wanted: &str) -> bool {
    match format!(in alloc; "{fault}") {
        Ok(text) => text.as_str() == wanted,
        Err(_) => false,
    }
}

#[test]
fn faults_have_texts(rt: HostRuntime) {
    let alloc = rt.alloc();
    assert!(rt;
        is_printed(alloc, KeepFault::Failed, "the keeper failed")
            && is_printed(alloc, KeepFault::OutOfMemory, "out of memory")
    );
}
