//! A session that has ended.

use session_shell::{SessionEnd, SessionNotes};

/// A session that has ended, with the two ends of its connection as it left them.
#[derive(Drop)]
pub struct Finished<I, O> {
    /// Where its bytes came from.
    pub input: I,
    /// Where its replies went.
    pub output: O,
    /// How it ended.
    pub end: SessionEnd,
    /// What it noted.
    pub notes: SessionNotes,
}
