//! Want of memory, the one free answer of the platform.

use std::alloc::AllocError;

/// There was no memory for a call. Whatever the call was to change is as it was before.
pub type OutOfMemory = AllocError;
