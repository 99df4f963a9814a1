//! Each command once.

use crate::samples::{
    CONSUMER, LIMITS, PROVIDER, installs, listens, on_core, registers, runs, starts, takes, updates,
};
use prop_map::{Properties, Str};
use scr_core::{Command, Core, Reply};
use std::alloc::Global;

fn bundle_lives(alloc: Global, core: &mut Core) -> bool {
    installs(alloc, core, PROVIDER, 1)
        && starts(alloc, core, 1)
        && takes(alloc, core, Command::Stop { bundle: 1 }, Reply::Done)
        && updates(alloc, core, CONSUMER)
        && takes(alloc, core, Command::Uninstall { bundle: 1 }, Reply::Done)
}

#[test]
fn a_bundle_lives(rt: HostRuntime) {
    assert!(rt; on_core(rt.alloc(), LIMITS, bundle_lives));
}

fn switched(name: Str, is_enabled: bool) -> Command {
    if is_enabled {
        Command::Enable { bundle: 1, name }
    } else {
        Command::Disable { bundle: 1, name }
    }
}

fn switches(alloc: Global, core: &mut Core, is_enabled: bool) -> bool {
    // A component without a name has that of its class.
    match Str::spell(alloc, "D") {
        Ok(name) => takes(alloc, core, switched(name, is_enabled), Reply::Done),
        Err(_) => false,
    }
}

fn switches_twice(alloc: Global, core: &mut Core) -> bool {
    runs(alloc, core, PROVIDER, 1) && switches(alloc, core, false) && switches(alloc, core, true)
}

#[test]
fn a_component_is_disabled_and_enabled(rt: HostRuntime) {
    assert!(rt; on_core(rt.alloc(), LIMITS, switches_twice));
}

fn sets_properties(alloc: Global, core: &mut Core) -> bool {
    let command = Command::SetProperties {
        bundle: 1,
        service: 1,
        properties: Properties::new(alloc),
    };
    takes(alloc, core, command, Reply::Done)
}

// Service 1 in the hands of bundle 1: it is used and released, and goes.
fn is_used_and_goes(alloc: Global, core: &mut Core, bundle: u64, service: u64) -> bool {
    takes(
        alloc,
        core,
        Command::Get { bundle, service },
        Reply::Uses(1),
    ) && takes(
        alloc,
        core,
        Command::Unget { bundle, service },
        Reply::Uses(0),
    ) && takes(
        alloc,
        core,
        Command::Unregister { bundle, service },
        Reply::Done,
    )
}

fn service_lives(alloc: Global, core: &mut Core) -> bool {
    runs(alloc, core, CONSUMER, 1)
        && registers(alloc, core, 1)
        && sets_properties(alloc, core)
        && is_used_and_goes(alloc, core, 1, 1)
}

#[test]
fn a_service_comes_and_goes(rt: HostRuntime) {
    assert!(rt; on_core(rt.alloc(), LIMITS, service_lives));
}

fn listener_lives(alloc: Global, core: &mut Core) -> bool {
    runs(alloc, core, CONSUMER, 1)
        && listens(alloc, core)
        && takes(alloc, core, Command::Unlisten { listener: 1 }, Reply::Done)
}

#[test]
fn a_listener_comes_and_goes(rt: HostRuntime) {
    assert!(rt; on_core(rt.alloc(), LIMITS, listener_lives));
}

fn configures(alloc: Global, core: &mut Core) -> bool {
    match Str::spell(alloc, "one") {
        Ok(pid) => {
            let properties = Properties::new(alloc);
            let command = Command::Configure { pid, properties };
            takes(alloc, core, command, Reply::Done)
        }
        Err(_) => false,
    }
}

fn configures_named(alloc: Global, core: &mut Core, factory: Str, name: Str) -> bool {
    let command = Command::ConfigureFactory {
        factory,
        name,
        properties: Properties::new(alloc),
    };
    takes(alloc, core, command, Reply::Done)
}

fn configures_first(alloc: Global, core: &mut Core, factory: Str) -> bool {
    match Str::spell(alloc, "first") {
        Ok(name) => configures_named(alloc, core, factory, name),
        Err(_) => false,
    }
}

fn configures_factory(alloc: Global, core: &mut Core) -> bool {
    match Str::spell(alloc, "many") {
        Ok(factory) => configures_first(alloc, core, factory),
        Err(_) => false,
    }
}

fn unconfigures(alloc: Global, core: &mut Core, pid: &str) -> bool {
    match Str::spell(alloc, pid) {
        Ok(pid) => takes(alloc, core, Command::Unconfigure { pid }, Reply::Done),
        Err(_) => false,
    }
}

fn configurations_live(alloc: Global, core: &mut Core) -> bool {
    configures(alloc, core)
        && configures_factory(alloc, core)
        && unconfigures(alloc, core, "one")
        && unconfigures(alloc, core, "many~first")
}

#[test]
fn configurations_come_and_go(rt: HostRuntime) {
    assert!(rt; on_core(rt.alloc(), LIMITS, configurations_live));
}
