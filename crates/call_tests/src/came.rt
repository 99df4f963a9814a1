//! What a call comes to.

use prop_map::Str;
use scr_calls::CallFault;

/// What a call comes to.
#[derive(Clone, Copy, PartialEq, Eq)]
pub(crate) enum Came<'c> {
    /// It is answered this text.
    Answered(&'c str),
    Gone,
    NoObject,
    Pending,
    Refused,
    /// So many nested calls were made.
    TooLong(usize),
    Core,
    Settle,
    NoMemory,
}

impl Came<'_> {
    pub(crate) fn is(&self, answer: &Result<Str, CallFault>) -> bool {
        match answer {
            Ok(text) => *self == Came::Answered(text.as_str()),
            Err(fault) => *self == came_by(fault),
        }
    }
}

fn came_by(fault: &CallFault) -> Came<'static> {
    match fault {
        CallFault::Gone { .. } => Came::Gone,
        CallFault::NoObject { .. } => Came::NoObject,
        CallFault::Pending { .. } => Came::Pending,
        CallFault::Refused { .. } => Came::Refused,
        CallFault::CallTooLong { nested, .. } => Came::TooLong(nested.as_slice().len()),
        CallFault::Core { .. } => Came::Core,
        CallFault::Settle { .. } => Came::Settle,
        CallFault::OutOfMemory => Came::NoMemory,
    }
}
