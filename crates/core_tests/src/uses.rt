//! Gets by token.

use crate::samples::{LIMITS, on_core};
use crate::turns::settles_both;
use scr_core::{Core, UseNote};
use std::alloc::Global;

// Bundle 2 gets the provider's service.
pub(crate) fn got(alloc: Global, core: &mut Core) -> Option<UseNote> {
    if !settles_both(alloc, core) {
        return None;
    }
    core.get_use(alloc, 2, 1).ok()
}

// Whether a get stood.
fn stood(alloc: Global, core: &mut Core, note: UseNote) -> bool {
    match core.end_use(alloc, note) {
        Ok(stood) => stood,
        Err(_) => false,
    }
}

fn is_noted(note: &UseNote) -> bool {
    note.place() == 14 && note.bundle() == 2 && note.service() == 1
}

fn is_released(alloc: Global, core: &mut Core) -> bool {
    match got(alloc, core) {
        Some(note) => is_noted(&note) && stood(alloc, core, note),
        None => false,
    }
}

#[test]
fn a_get_is_released(rt: HostRuntime) {
    assert!(rt; on_core(rt.alloc(), LIMITS, is_released));
}
