//! Why a pass isn't split.
use thiserror::Error;

/// Why a pass isn't split.
#[derive(Clone, Copy, Debug, Drop, PartialEq, Eq, Error)]
pub enum LockFault {
    /// No pass can be split from it: its `spare` is 0.
    #[error("no pass can be split from it")]
    SeatsFull,
    /// There was no memory. A split takes none today, so it doesn't come.
    #[error("out of memory")]
    OutOfMemory,
}
