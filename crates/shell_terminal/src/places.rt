//! Where in a document something stands, in words.

use prop_map::OutOfMemory;
use serde_json::Value;
use std::alloc::Global;

/// In an entry.
pub(crate) fn entry_place(alloc: Global, entry: &str) -> Result<String, OutOfMemory> {
    format!(in alloc; "in the entry `{entry}`: ")
}

/// In the reference of this number of an entry. It is told by its name, or else by its interface, where it has one.
pub(crate) fn reference_place(
    alloc: Global,
    entry: &str,
    number: usize,
    reference: &Value,
) -> Result<String, OutOfMemory> {
    match name_of(reference) {
        Some(name) => format!(in alloc; "in the entry `{entry}`, reference {number} (`{name}`): "),
        None => format!(in alloc; "in the entry `{entry}`, reference {number}: "),
    }
}

fn name_of(reference: &Value) -> Option<&str> {
    match reference.get("name").and_then(Value::as_str) {
        Some(name) => Some(name),
        None => reference.get("interfaceName").and_then(Value::as_str),
    }
}
