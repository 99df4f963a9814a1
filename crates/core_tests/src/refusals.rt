//! Refusals that are told without the call.

use crate::samples::{LIMITS, PROVIDER, on_core, runs};
use prop_map::Str;
use scr_core::{Command, Core, CoreFault};
use std::alloc::Global;

// Bundle 1 has no component of this name.
fn tells_no_component(alloc: Global, core: &Core) -> bool {
    match Str::spell(alloc, "E") {
        Ok(name) => match core.refusal_of(alloc, Command::Enable { bundle: 1, name }) {
            Some(CoreFault::NoComponent { .. }) => true,
            _ => false,
        },
        Err(_) => false,
    }
}

fn tells_nothing(alloc: Global, core: &Core) -> bool {
    core.refusal_of(alloc, Command::Stop { bundle: 1 })
        .is_none()
        && core.refusal_of_get(1, 1).is_none()
}

// Bundle 1 provides service 1, and there is no other.
fn tells_no_service(core: &Core) -> bool {
    match core.refusal_of_get(1, 2) {
        Some(CoreFault::NoService { service }) => service == 2,
        _ => false,
    }
}

fn tells_refusals(alloc: Global, core: &mut Core) -> bool {
    runs(alloc, core, PROVIDER, 1)
        && tells_no_component(alloc, core)
        && tells_nothing(alloc, core)
        && tells_no_service(core)
}

#[test]
fn refusals_are_told_without_the_call(rt: HostRuntime) {
    assert!(rt; on_core(rt.alloc(), LIMITS, tells_refusals));
}
