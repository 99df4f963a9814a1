//! What is done to a value whatever its type is: to let it go, or an entry that found no place. In a function of its own, so that no
//! other has to know all parts of a draft or of a step to let one go.
ghost use Rattle.journal_core.specs.Rooms.{HasRoom};
ghost use Rattle.std.specs.Prelude.{◌≡◌, ◌++◌, ◌∷◌, ◌-◌, ◌<◌, [], OnErr, OnOk};

use journal_core::{Entry, Journal, JournalFault};
use prop_map::OutOfMemory;
use std::alloc::AllocError;

/// Lets a value go.
pub(crate) fn let_go<T: Drop>(_value: T) {}

/// Adds an entry at the end, where there is room.
///
/// # Errors
/// Only want of memory. The journal is as it was.
pub(crate) fn append<S: Drop>(journal: &mut Journal<S>, entry: Entry<S>) -> Result<(), OutOfMemory>
    requires { HasRoom journal.old 1 }
    ensures ok { OnOk result (journal.new ≡ record journal.old { entries = journal.old.entries ++ entry ∷ [] }) }
    ensures err { OnErr result (journal.new ≡ journal.old) }
{
    match journal.append(entry) {
        Ok(()) => Ok(()),
        Err((_, JournalFault::OutOfMemory)) => Err(AllocError),
        Err((_, JournalFault::Full)) => unreachable!(),
    }
}

/// Adds an entry for which room is reserved, and gives its room back.
///
/// # Errors
/// Only want of memory. The journal is as it was.
pub(crate) fn append_reserved<S: Drop>(
    journal: &mut Journal<S>,
    entry: Entry<S>,
) -> Result<(), OutOfMemory>
    requires { 0 < journal.old.reserved }
    ensures ok { OnOk result (journal.new ≡ record journal.old { entries = journal.old.entries ++ entry ∷ []; reserved = journal.old.reserved - 1 }) }
    ensures err { OnErr result (journal.new ≡ journal.old) }
{
    match journal.append_reserved(entry) {
        Ok(()) => Ok(()),
        Err(_) => Err(AllocError),
    }
}
