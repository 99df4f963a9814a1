//! That each object is told of its own instance.

use crate::Watching;
use crate::platforms::{Deed, LIMITS, holds};
use std::alloc::Global;
use std::sync::Arc;
use std::sync::atomic::{AtomicU64, Ordering};

// Whether two Creates, an Activate, a Bind and an Activate run.
fn settles(alloc: Global, heard: &Arc<AtomicU64>) -> bool {
    match Arc::try_clone(heard) {
        Ok(heard) => holds(
            alloc,
            Watching { heard },
            LIMITS,
            &Deed::Settling { turns: 5 },
        ),
        Err(_) => false,
    }
}

// How often an object was told something then.
fn counted(alloc: Global, heard: &Arc<AtomicU64>) -> u64 {
    if settles(alloc, heard) {
        heard.load(Ordering::SeqCst)
    } else {
        0
    }
}

// The same from 0 on.
fn times_heard(alloc: Global) -> u64 {
    match Arc::new(alloc, AtomicU64::new(0)) {
        Ok(heard) => counted(alloc, &heard),
        Err(_) => 0,
    }
}

#[test]
fn each_object_hears_of_its_own_instance_once(rt: HostRuntime) {
    assert!(rt; times_heard(rt.alloc()) == 3);
}

// Whether no turn is left under way in the end.
fn ends(alloc: Global, heard: &Arc<AtomicU64>) -> bool {
    match Arc::try_clone(heard) {
        Ok(heard) => holds(alloc, Watching { heard }, LIMITS, &Deed::SettlingAtLast),
        Err(_) => true,
    }
}

// Whether nobody hears twice then.
fn hears_no_more_than_once(alloc: Global) -> bool {
    match Arc::new(alloc, AtomicU64::new(0)) {
        Ok(heard) => ends(alloc, &heard) && heard.load(Ordering::SeqCst) <= 3,
        Err(_) => true,
    }
}

// To be run with each allocation failing in turn.
#[test]
fn a_turn_that_wanted_memory_is_told_once(rt: HostRuntime) {
    assert!(rt; hears_no_more_than_once(rt.alloc()));
}
