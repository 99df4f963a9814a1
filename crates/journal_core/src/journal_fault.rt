//! Why the journal takes no entry.
use thiserror::Error;

/// Why the journal takes no entry, or reserves no room.
#[derive(Clone, Copy, Debug, PartialEq, Eq, Error)]
pub enum JournalFault {
    /// The limit would be passed.
    #[error("the journal is full")]
    Full,
    /// There was no memory.
    #[error("out of memory")]
    OutOfMemory,
}
