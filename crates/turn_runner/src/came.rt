//! What a turn came to, with its work.

use crate::{Ran, TurnWork};

/// What a turn came to, kept where it couldn't be put back for want of memory.
#[derive(Drop)]
pub struct Came<O> {
    /// The turn.
    pub work: TurnWork,
    /// What it came to.
    pub ran: Ran<O>,
}
