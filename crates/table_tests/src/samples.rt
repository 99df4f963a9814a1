//! Values that several tests need.

use prop_map::{Properties, Str, Value};
use std::alloc::{AllocError, Global};

pub(crate) fn text(alloc: Global, text: &str) -> Result<Str, AllocError> {
    Ok(Str::of(String::from_str(alloc, text)?))
}

// Properties with a number at `v`.
pub(crate) fn properties(alloc: Global, v: i64) -> Result<Properties, AllocError> {
    let mut properties = Properties::new(alloc);
    properties.set(alloc, "v", Value::Whole(v))?;
    Ok(properties)
}
