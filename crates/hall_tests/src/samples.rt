//! Documents and commands for tests.

use bundle_doc::read_bundle;
use scr_world::{Command, Limits};
use std::alloc::Global;

pub(crate) const LIMITS: Limits = Limits {
    journal: 100,
    turns: 100,
};

// A bundle with a component that provides P, and is made only once somebody wants it.
pub(crate) const PROVIDER: &str =
    r#"{"location":"p","components":{"p":{"name":"p","implementationClass":"P","serviceInterfaces":["P"]}}}"#;

// A bundle with a component that is made at once.
pub(crate) const IMMEDIATE: &str =
    r#"{"location":"m","components":{"m":{"name":"m","implementationClass":"M"}}}"#;

pub(crate) fn install(alloc: Global, document: &str) -> Option<Command> {
    match read_bundle(alloc, document.as_bytes()) {
        Ok(doc) => Some(Command::Install { doc }),
        Err(_) => None,
    }
}
