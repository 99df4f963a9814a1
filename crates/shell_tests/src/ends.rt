//! Ends in memory.

use fault_count::{MemorySink, MemorySource};
use std::alloc::Global;

// The items, or nothing where there is no memory.
pub(crate) fn given<T: Copy + Drop>(alloc: Global, items: &[T]) -> Vec<T> {
    match items.to_vec(alloc) {
        Ok(items) => items,
        Err(_) => Vec::new(alloc),
    }
}

// A source of this text whose reads fail where they are listed.
pub(crate) fn source(alloc: Global, text: &str, failing: &[u64]) -> MemorySource {
    MemorySource::new(given(alloc, text.as_bytes()), 40, given(alloc, failing))
}

// A sink that takes so many bytes a write, and whose writes fail where they are listed.
pub(crate) fn sink(alloc: Global, piece: usize, failing: &[u64]) -> MemorySink {
    MemorySink::new(piece, given(alloc, failing))
}
