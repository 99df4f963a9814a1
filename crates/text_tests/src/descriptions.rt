use crate::shown::{is_printed, is_shown};
use component_dto::{Description, DescriptionFault, first_repeated, given, read_description};
use prop_map::Copies;
use serde_json::Value;
use std::alloc::Global;

fn read(alloc: Global, text: &str) -> Result<Description, DescriptionFault> {
    match Value::from_str(alloc, text) {
        Ok(json) => read_description(alloc, &json),
        Err(_) => Err(DescriptionFault::OutOfMemory),
    }
}

fn copy_is_shown(alloc: Global, description: &Description, wanted: &str) -> bool {
    match description.copy(alloc) {
        Ok(copy) => is_shown(alloc, &copy, wanted),
        Err(_) => false,
    }
}

// Whether a copy of the description of a text is shown so.
fn is_read(alloc: Global, text: &str, wanted: &str) -> bool {
    match read(alloc, text) {
        Ok(description) => copy_is_shown(alloc, &description, wanted),
        Err(_) => false,
    }
}

#[test]
fn a_description_is_read_and_copied(rt: HostRuntime) {
    let text = "{\"implementationClass\":\"C\",\"references\":[{\"interfaceName\":\"P\"}]}";
    let wanted =
        "Description { name: \"C\", scope: Singleton, implementation_class: \"C\", default_enabled: true, immediate: true, \
        service_interfaces: [], properties: [], references: [Reference { name: \"P\", interface_name: \"P\", cardinality: One, \
        policy: Static, policy_option: Reluctant, target: None, updated: None }], modified: None, \
        configuration_policy: Optional, configuration_pids: [\"C\"], implicit: true }";
    assert!(rt; is_read(rt.alloc(), text, wanted));
}

// Whether a text is an object that gives a value of its own for a key.
fn gives(alloc: Global, text: &str, key: &str) -> bool {
    match Value::from_str(alloc, text) {
        Ok(json) => given(&json, key).is_some(),
        Err(_) => false,
    }
}

fn repeats(alloc: Global, texts: &[&str], wanted: &str) -> bool {
    match first_repeated(alloc, texts) {
        Ok(Some(found)) => found == wanted,
        _ => false,
    }
}

#[test]
fn small_words_of_descriptions_answer(rt: HostRuntime) {
    let alloc = rt.alloc();
    assert!(rt; gives(alloc, "{\"a\":1}", "a") && repeats(alloc, &["a", "b", "b"], "b"));
}

fn fault_is(alloc: Global, text: &str, wanted: &str) -> bool {
    match read(alloc, text) {
        Ok(_) => false,
        Err(fault) => is_printed(alloc, &fault, wanted),
    }
}

fn faults_are(alloc: Global, rows: &[(&str, &str)]) -> bool {
    for (text, wanted) in rows {
        if !fault_is(alloc, text, wanted) {
            return false;
        }
    }
    true
}

const OF_FIELDS: &[(&str, &str)] = &[
    ("{}", "implementationClass is missing"),
    ("{\"name\":1}", "name is of a wrong type"),
    ("{\"scope\":\"\"}", "scope is none of its words"),
    (
        "{\"implementationClass\":\"C\",\"properties\":{\"f\":1.5}}",
        "the number at f is no whole number in 64 bits",
    ),
];

#[test]
fn faults_of_fields_are_printed(rt: HostRuntime) {
    assert!(rt; faults_are(rt.alloc(), OF_FIELDS));
}

const OF_WHOLE_DESCRIPTIONS: &[(&str, &str)] = &[
    (
        "{\"implementationClass\":\"C\",\"factory\":\"f\"}",
        "factory components are not supported",
    ),
    (
        "{\"implementationClass\":\"C\",\"references\":[{\"interfaceName\":\"X\",\"scope\":\"prototype\"}]}",
        "the reference X takes an instance for each use",
    ),
    (
        "{\"implementationClass\":\"C\",\"references\":[{\"interfaceName\":\"X\"},{\"interfaceName\":\"X\"}]}",
        "the reference X is there twice",
    ),
    (
        "{\"implementationClass\":\"C\",\"scope\":\"bundle\"}",
        "an immediate component has one instance",
    ),
    (
        "{\"implementationClass\":\"C\",\"immediate\":false}",
        "a component without a service is immediate",
    ),
    (
        "{\"implementationClass\":\"C\",\"references\":[{\"interfaceName\":\"X\",\"target\":\"(a=\"}]}",
        "the target of X is no filter, from byte 3",
    ),
    (
        "{\"implementationClass\":\"C\",\"configurationPid\":[\"a\",\"b\",\"$\",\"d\",\"e\"]}",
        "more than four configuration PIDs",
    ),
];

#[test]
fn faults_of_whole_descriptions_are_printed(rt: HostRuntime) {
    assert!(rt; faults_are(rt.alloc(), OF_WHOLE_DESCRIPTIONS));
}
