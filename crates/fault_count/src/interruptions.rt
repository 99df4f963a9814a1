//! Reads and writes that a signal interrupts.

/// How often one read or write is tried before it counts as failed, where each try was interrupted by a signal.
pub(crate) const MOST_TRIES: u32 = 100;
