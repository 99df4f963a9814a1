//! The reply of a nested call.

use prop_map::{Copies, OutOfMemory, Str};
use std::alloc::Global;

/// The reply of a nested call.
#[derive(Debug, PartialEq, Eq, Drop)]
pub enum NestedReply {
    /// The text that the service answered.
    Text(Str),
    /// No service is held for the reference, or the component has no reference of that name.
    NoService,
    /// The service was registered without an object that can be called.
    NoObject,
    /// The service's instance is ending.
    Gone,
    /// The service's code refused the request.
    Refused,
}

impl Copies for NestedReply {
    fn copy(&self, alloc: Global) -> Result<NestedReply, OutOfMemory> {
        Ok(match self {
            NestedReply::Text(text) => NestedReply::Text(text.copy(alloc)?),
            NestedReply::NoService => NestedReply::NoService,
            NestedReply::NoObject => NestedReply::NoObject,
            NestedReply::Gone => NestedReply::Gone,
            NestedReply::Refused => NestedReply::Refused,
        })
    }
}
