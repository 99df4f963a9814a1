//! The texts of a kept world, read anew.
ghost use Rattle.std.specs.Prelude.{◌≡◌, IfOk, option_map};
ghost use Rattle.world_reopening.specs.Readings.{behind, document_in, name_of, properties_in};

use bundle_doc::{BundleDoc, DocFault, read_bundle};
use prop_map::{OutOfMemory, PropFault, Properties};
use serde_json::{Category, Value};
use std::alloc::{AllocError, Global};

/// The properties that a JSON text gives, if it gives any.
pub(crate) fn properties_in(alloc: Global, text: &str) -> Result<Option<Properties>, OutOfMemory>
    ensures { IfOk result (λ found. found ≡ properties_in text.now) }
{
    match Value::from_str(alloc, text) {
        Ok(json) => match Properties::from_json(alloc, &json) {
            Ok(properties) => Ok(Some(properties)),
            Err(PropFault::OutOfMemory) => Err(AllocError),
            Err(_) => Ok(None),
        },
        Err(error) => {
            if error.classify() == Category::Memory {
                Err(AllocError)
            } else {
                Ok(None)
            }
        }
    }
}

/// The bundle that a document describes, if it has a reading.
pub(crate) fn document_in(alloc: Global, text: &str) -> Result<Option<BundleDoc>, OutOfMemory>
    ensures { IfOk result (λ found. found ≡ document_in text.now) }
{
    match read_bundle(alloc, text.as_bytes()) {
        Ok(doc) => Ok(Some(doc)),
        Err(DocFault::OutOfMemory) => Err(AllocError),
        Err(_) => Ok(None),
    }
}

/// The name of a factory's configuration, by the PID of the factory and its own.
pub(crate) fn name_of<'p>(factory: &str, pid: &'p str) -> Option<&'p str>
    ensures { option_map (λ n. n.now) result ≡ name_of factory.now pid.now }
{
    behind("~", behind(factory, pid)?)
}

// What follows the front of a text.
fn behind<'t>(front: &str, text: &'t str) -> Option<&'t str>
    ensures { option_map (λ t. t.now) result ≡ behind front.now text.now }
{
    text.strip_prefix(front)
}
