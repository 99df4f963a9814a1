//! The journal and the limits of a core.

use crate::samples::{LIMITS, PROVIDER, on_core, runs};
use scr_core::{Core, core_is_send};
use std::alloc::Global;

fn tells_limits_and_length(alloc: Global, core: &mut Core) -> bool {
    if !runs(alloc, core, PROVIDER, 1) {
        return false;
    }
    core.note_legal();
    core.limits() == LIMITS && core.journal().length() == 2
}

#[test]
fn a_core_tells_its_limits_and_its_journal(rt: HostRuntime) {
    assert!(rt; on_core(rt.alloc(), LIMITS, tells_limits_and_length));
}

// Whether a core on which a bundle runs leaves so many entries behind.
fn leaves(alloc: Global, length: u64) -> bool {
    match Core::new(alloc, LIMITS) {
        Ok(mut core) => {
            let ran = runs(alloc, &mut core, PROVIDER, 1);
            let journal = core.into_journal();
            ran && journal.length() == length
        }
        Err(_) => false,
    }
}

#[test]
fn a_journal_is_left(rt: HostRuntime) {
    assert!(rt; leaves(rt.alloc(), 2));
}

#[test]
fn a_core_may_go_to_another_thread(_rt: HostRuntime) {
    core_is_send();
}
