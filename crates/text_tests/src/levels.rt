use crate::shown::{is_printed, is_shown};
use bundle_doc::{BundleDoc, DocFault, read_bundle};
use component_dto::Description;
use level_order::{LevelFault, consumes, levels, provides};
use prop_map::{List, Str};
use std::alloc::Global;

// Components in byte order of the names of their entries; each provides what its class is called.
fn document(alloc: Global, components: &str) -> Result<BundleDoc, DocFault> {
    match format!(in alloc; "{{\"location\":\"x\",\"components\":{{{components}}}}}") {
        Ok(text) => read_bundle(alloc, text.as_bytes()),
        Err(_) => Err(DocFault::OutOfMemory),
    }
}

const CYCLE: &str =
    "\"a\":{\"implementationClass\":\"A\",\"serviceInterfaces\":[\"A\"],\"references\":[{\"interfaceName\":\"B\"}]},\
    \"b\":{\"implementationClass\":\"B\",\"serviceInterfaces\":[\"B\"],\"references\":[{\"interfaceName\":\"A\"}]}";

const CHAIN: &str =
    "\"a\":{\"implementationClass\":\"A\",\"references\":[{\"interfaceName\":\"B\"}]},\
    \"b\":{\"implementationClass\":\"B\",\"serviceInterfaces\":[\"B\"]}";

fn have_levels(alloc: Global, descriptions: &[Description], wanted: &[u32]) -> bool {
    match levels(alloc, descriptions) {
        Ok(found) => found.as_slice() == wanted,
        Err(_) => false,
    }
}

fn have_a_cycle(alloc: Global, descriptions: &[Description], wanted: &str) -> bool {
    match levels(alloc, descriptions) {
        Ok(_) => false,
        Err(fault) => is_shown(alloc, &fault, wanted),
    }
}

fn consume(descriptions: &[Description], interface: &Str) -> bool {
    match descriptions {
        [one, other] => consumes(one, other) && provides(other, interface),
        _ => false,
    }
}

fn consume_b(alloc: Global, descriptions: &[Description]) -> bool {
    match Str::spell(alloc, "B") {
        Ok(interface) => consume(descriptions, &interface),
        Err(_) => false,
    }
}

/// What holds of two components.
#[derive(Clone, Copy)]
enum Truth {
    /// The first stands one level above the second.
    Levels,
    /// They consume each other.
    Cycle,
    /// The first consumes B of the second.
    Consumer,
}

fn holds(alloc: Global, descriptions: &[Description], truth: Truth) -> bool {
    match truth {
        Truth::Levels => have_levels(alloc, descriptions, &[1, 0]),
        Truth::Cycle => have_a_cycle(alloc, descriptions, "Cycle { path: [\"A\", \"B\", \"A\"] }"),
        Truth::Consumer => consume_b(alloc, descriptions),
    }
}

// The same of the components of a document.
fn hold(alloc: Global, components: &str, truth: Truth) -> bool {
    match document(alloc, components) {
        Ok(document) => holds(alloc, document.descriptions.as_slice(), truth),
        Err(_) => false,
    }
}

#[test]
fn levels_stand_above_what_is_consumed(rt: HostRuntime) {
    assert!(rt; hold(rt.alloc(), CHAIN, Truth::Levels));
}

#[test]
fn a_cycle_is_told(rt: HostRuntime) {
    assert!(rt; hold(rt.alloc(), CYCLE, Truth::Cycle));
}

#[test]
fn one_description_consumes_another(rt: HostRuntime) {
    assert!(rt; hold(rt.alloc(), CYCLE, Truth::Consumer));
}

fn cycle_is_printed(alloc: Global, wanted: &str) -> bool {
    let path = List::of(Vec::new(alloc));
    is_printed(alloc, &LevelFault::Cycle { path }, wanted)
}

#[test]
fn faults_of_levels_are_printed(rt: HostRuntime) {
    let alloc = rt.alloc();
    assert!(rt;
        cycle_is_printed(alloc, "some components consume each other in a circle")
            && is_printed(alloc, &LevelFault::OutOfMemory, "out of memory")
    );
}
