//! Configurations, and those of factories.

use crate::samples::properties;
use config_admin::{ConfigFault, Configuration, Configurations};
use prop_map::Value;
use std::alloc::Global;

// Whether a text stands at a key of a configuration.
fn tells(configuration: &Configuration, key: &str, text: &str) -> bool {
    match configuration.properties.get(key) {
        Some(Value::Text(value)) => value.as_str() == text,
        _ => false,
    }
}

// Whether a PID's configuration tells it.
fn tells_pid(configurations: &Configurations, pid: &str) -> bool {
    match configurations.of_pid(pid) {
        Some(own) => tells(own, "service.pid", pid),
        None => false,
    }
}

fn is_set(alloc: Global, configurations: &mut Configurations, pid: &str) -> bool {
    match properties(alloc, 1) {
        Ok(properties) => configurations.set(alloc, pid, properties).is_ok(),
        Err(_) => false,
    }
}

fn comes_and_goes(alloc: Global, configurations: &mut Configurations) -> bool {
    is_set(alloc, configurations, "b")
        && configurations.rows().len() == 1
        && tells_pid(configurations, "b")
        && configurations.delete("b").is_ok()
}

fn is_factory_set(alloc: Global, configurations: &mut Configurations) -> bool {
    match properties(alloc, 1) {
        Ok(properties) => configurations
            .set_factory(alloc, "m", "one", properties)
            .is_ok(),
        Err(_) => false,
    }
}

// Whether the first of these tells the PID of the factory `m` and its own.
fn first_tells_both(named: &[&Configuration]) -> bool {
    match named.first() {
        Some(one) => tells(one, "service.factoryPid", "m") && tells(one, "service.pid", "m~one"),
        None => false,
    }
}

fn factory_tells_both(alloc: Global, configurations: &Configurations) -> bool {
    match configurations.of(alloc, "m") {
        Ok(named) => first_tells_both(named.as_slice()),
        Err(_) => false,
    }
}

// Sets a PID's configuration and takes that back.
fn restored(
    alloc: Global,
    configurations: &mut Configurations,
    pid: &str,
) -> Result<(), ConfigFault> {
    let before = configurations.overwrite(alloc, pid, properties(alloc, 2)?)?;
    configurations.restore(before);
    Ok(())
}

// Removes the configuration of a PID and puts it back.
fn put_back(
    alloc: Global,
    configurations: &mut Configurations,
    pid: &str,
) -> Result<(), ConfigFault> {
    let room = configurations.room(alloc)?;
    let configuration = configurations.remove(pid)?;
    configurations.put_back(configuration, room);
    Ok(())
}

fn is_factory_overwritten(alloc: Global, configurations: &mut Configurations) -> bool {
    match properties(alloc, 1) {
        Ok(properties) => configurations
            .overwrite_factory(alloc, "m", "one", properties)
            .is_ok(),
        Err(_) => false,
    }
}

fn goes_back(alloc: Global, configurations: &mut Configurations) -> bool {
    match configurations.save(alloc) {
        Ok(saved) => configurations.go_back(saved),
        Err(_) => return false,
    }
    configurations.rows().len() == 1
}

fn each_change_goes_back(alloc: Global, configurations: &mut Configurations) -> bool {
    is_factory_overwritten(alloc, configurations)
        && restored(alloc, configurations, "b").is_ok()
        && put_back(alloc, configurations, "m~one").is_ok()
        && goes_back(alloc, configurations)
}

/// What happens to a table.
#[derive(Clone, Copy)]
enum Story {
    ComesAndGoes,
    OfFactory,
    Undone,
}

fn comes_true(alloc: Global, configurations: &mut Configurations, story: Story) -> bool {
    match story {
        Story::ComesAndGoes => comes_and_goes(alloc, configurations),
        Story::OfFactory => {
            is_factory_set(alloc, configurations) && factory_tells_both(alloc, configurations)
        }
        Story::Undone => each_change_goes_back(alloc, configurations),
    }
}

// The same in a new table. No other function owns one.
fn holds(alloc: Global, story: Story) -> bool {
    match Configurations::new(alloc) {
        Ok(mut configurations) => comes_true(alloc, &mut configurations, story),
        Err(_) => false,
    }
}

#[test]
fn a_configuration_tells_its_pid(rt: HostRuntime) {
    assert!(rt; holds(rt.alloc(), Story::ComesAndGoes));
}

#[test]
fn a_factory_s_configuration_tells_both_pids(rt: HostRuntime) {
    assert!(rt; holds(rt.alloc(), Story::OfFactory));
}

#[test]
fn each_change_of_configurations_is_undone(rt: HostRuntime) {
    assert!(rt; holds(rt.alloc(), Story::Undone));
}
