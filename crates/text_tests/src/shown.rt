//! How values are shown.

use std::alloc::Global;
use std::fmt::{Debug, Display};

// Whether it is printed so.
pub(crate) fn is_printed<T: Display>(alloc: Global, value: &T, wanted: &str) -> bool {
    match format!(in alloc; "{value}") {
        Ok(text) => text.as_str() == wanted,
        Err(_) => false,
    }
}

// Whether its parts are shown so.
pub(crate) fn is_shown<T: Debug>(alloc: Global, value: &T, wanted: &str) -> bool {
    match format!(in alloc; "{value:?}") {
        Ok(text) => text.as_str() == wanted,
        Err(_) => false,
    }
}
