//! Whom calls reach.

use crate::samples::{LIMITS, on_core};
use crate::turns::settles_both;
use crate::uses::got;
use prop_map::Str;
use scr_core::{Core, Inward, InwardAt, Outer, OuterAt, UseNote};
use std::alloc::Global;

// Bundle 1 uses instance 2 of the provider's service.
fn uses_instance(alloc: Global, core: &Core) -> bool {
    match core.active(alloc, 1, 1) {
        Ok(Some(live)) => live.instance == 2,
        _ => false,
    }
}

fn uses_instance_at(core: &Core) -> bool {
    match core.active_at(1, 1) {
        Some(at) => at.instance == 2,
        None => false,
    }
}

fn tells_active(alloc: Global, core: &mut Core) -> bool {
    settles_both(alloc, core) && uses_instance(alloc, core) && uses_instance_at(core)
}

#[test]
fn an_active_instance_is_told(rt: HostRuntime) {
    assert!(rt; on_core(rt.alloc(), LIMITS, tells_active));
}

// A get reaches instance 2.
fn reaches(alloc: Global, core: &Core, note: &UseNote) -> bool {
    match core.outer(alloc, note) {
        Ok(Outer::Live(live)) => live.instance == 2,
        _ => false,
    }
}

fn reaches_at(core: &Core, note: &UseNote) -> bool {
    match core.outer_at(note) {
        OuterAt::Live(at) => at.instance == 2,
        _ => false,
    }
}

fn get_reaches(alloc: Global, core: &mut Core) -> bool {
    match got(alloc, core) {
        Some(note) => reaches(alloc, core, &note) && reaches_at(core, &note),
        None => false,
    }
}

#[test]
fn a_get_reaches_an_instance(rt: HostRuntime) {
    assert!(rt; on_core(rt.alloc(), LIMITS, get_reaches));
}

// The consumer's instance reaches instance 2.
fn reaches_nested(alloc: Global, core: &Core, reference: &Str) -> bool {
    match core.nested(alloc, 1, reference) {
        Ok(Inward::Live { live, .. }) => live.instance == 2,
        _ => false,
    }
}

fn reaches_nested_at(core: &Core, reference: &Str) -> bool {
    match core.nested_at(1, reference) {
        InwardAt::Live { live: at, .. } => at.instance == 2,
        _ => false,
    }
}

// It holds one service, and isn't ending.
fn holds_one(alloc: Global, core: &Core, reference: &Str) -> bool {
    match core.held_services(alloc, 1, reference) {
        Ok(held) => held.as_slice().len() == 1 && !core.ending(1),
        Err(_) => false,
    }
}

fn nested_reaches(alloc: Global, core: &mut Core) -> bool {
    match Str::spell(alloc, "P") {
        Ok(reference) => {
            settles_both(alloc, core)
                && reaches_nested(alloc, core, &reference)
                && reaches_nested_at(core, &reference)
        }
        Err(_) => false,
    }
}

#[test]
fn a_nested_call_reaches_an_instance(rt: HostRuntime) {
    assert!(rt; on_core(rt.alloc(), LIMITS, nested_reaches));
}

fn instance_holds(alloc: Global, core: &mut Core) -> bool {
    match Str::spell(alloc, "P") {
        Ok(reference) => settles_both(alloc, core) && holds_one(alloc, core, &reference),
        Err(_) => false,
    }
}

#[test]
fn an_instance_holds_a_service(rt: HostRuntime) {
    assert!(rt; on_core(rt.alloc(), LIMITS, instance_holds));
}
