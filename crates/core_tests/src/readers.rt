//! What a core tells.

use crate::samples::{LIMITS, PROVIDER, installs, listens, on_core, registers, runs};
use crate::turns::settles_both;
use ldap_filter::Filter;
use scr_core::Core;
use std::alloc::Global;

fn has_bundles(alloc: Global, core: &Core, count: usize) -> bool {
    match core.bundle_rows(alloc) {
        Ok(rows) => rows.as_slice().len() == count,
        Err(_) => false,
    }
}

fn has_services(alloc: Global, core: &Core, count: usize) -> bool {
    match core.service_rows(alloc) {
        Ok(rows) => rows.as_slice().len() == count,
        Err(_) => false,
    }
}

fn has_components(alloc: Global, core: &Core, count: usize) -> bool {
    match core.component_rows(alloc) {
        Ok(rows) => rows.as_slice().len() == count,
        Err(_) => false,
    }
}

fn tells_rows(alloc: Global, core: &mut Core) -> bool {
    settles_both(alloc, core)
        && has_bundles(alloc, core, 2)
        && has_services(alloc, core, 1)
        && has_components(alloc, core, 2)
}

#[test]
fn bundles_services_and_components_are_told(rt: HostRuntime) {
    assert!(rt; on_core(rt.alloc(), LIMITS, tells_rows));
}

// Whether the consumer holds so many services.
fn holds(alloc: Global, core: &Core, count: usize) -> bool {
    match core.held_rows(alloc, 1) {
        Ok(rows) => rows.as_slice().len() == count,
        Err(_) => false,
    }
}

fn had_turns(alloc: Global, core: &Core, count: usize) -> bool {
    match core.trace(alloc, 0) {
        Ok(turns) => turns.as_slice().len() == count,
        Err(_) => false,
    }
}

fn tells_held_and_turns(alloc: Global, core: &mut Core) -> bool {
    settles_both(alloc, core) && holds(alloc, core, 1) && had_turns(alloc, core, 5)
}

#[test]
fn held_services_and_turns_are_told(rt: HostRuntime) {
    assert!(rt; on_core(rt.alloc(), LIMITS, tells_held_and_turns));
}

// Whether the consumer is active, and one service is bound to its own reference: the satisfying condition's stands behind it.
fn is_active(alloc: Global, core: &Core) -> bool {
    match core.component(alloc, 1) {
        Ok(Some(view)) => match view.references.as_slice().first() {
            Some(reference) => view.state == 8 && reference.bound.as_slice().len() == 1,
            None => false,
        },
        _ => false,
    }
}

fn tells_component(alloc: Global, core: &mut Core) -> bool {
    settles_both(alloc, core) && is_active(alloc, core)
}

#[test]
fn a_component_is_told(rt: HostRuntime) {
    assert!(rt; on_core(rt.alloc(), LIMITS, tells_component));
}

// Whether service 1 alone is found.
fn is_found(alloc: Global, core: &Core, filter: &Filter) -> bool {
    match core.find(alloc, filter) {
        Ok(services) => services.as_slice() == [1].as_slice(),
        Err(_) => false,
    }
}

fn finds(alloc: Global, core: &mut Core) -> bool {
    match Filter::parse(alloc, "(objectClass=P)") {
        Ok(filter) => runs(alloc, core, PROVIDER, 1) && is_found(alloc, core, &filter),
        Err(_) => false,
    }
}

#[test]
fn services_are_found(rt: HostRuntime) {
    assert!(rt; on_core(rt.alloc(), LIMITS, finds));
}

// REGISTERED of service 2: service 1 is the provider's.
fn heard(core: &Core) -> bool {
    match core.events(1, 0) {
        Ok(events) => match events {
            [event] => event.value == 1 && event.service == 2,
            _ => false,
        },
        Err(_) => false,
    }
}

fn tells_listener(alloc: Global, core: &mut Core) -> bool {
    runs(alloc, core, PROVIDER, 1)
        && listens(alloc, core)
        && registers(alloc, core, 2)
        && heard(core)
}

#[test]
fn a_listener_is_told(rt: HostRuntime) {
    assert!(rt; on_core(rt.alloc(), LIMITS, tells_listener));
}

// INSTALLED of bundle 1 comes first.
fn began_installed(core: &Core) -> bool {
    match core.bundle_events(0).first() {
        Some(first) => first.value == 1 && first.bundle == 1,
        None => false,
    }
}

fn tells_bundle(alloc: Global, core: &mut Core) -> bool {
    installs(alloc, core, PROVIDER, 1) && began_installed(core)
}

#[test]
fn events_of_bundles_are_told(rt: HostRuntime) {
    assert!(rt; on_core(rt.alloc(), LIMITS, tells_bundle));
}
