//! What is done to a value whatever its type is: to let it go, to put it in the place of another, or to add an entry that
//! may find no place. In functions of their own, so that no other has to know all parts of a draft or of a step to let
//! one go.
ghost use Rattle.std.specs.Prelude.{◌≡◌, ◌+◌, ◌≤◌, ◌++◌, ◌∷◌, [], OnErr, OnOk, length};

use journal_core::{Entry, Journal, JournalFault};
use prop_map::OutOfMemory;
use std::alloc::AllocError;

/// Lets a value go.
pub(crate) fn let_go<T: Drop>(_value: T) {}

/// Puts a value in the place of another, which it lets go.
pub(crate) fn put<T: Drop>(place: &mut T, value: T)
    ensures { place.new ≡ value }
{
    *place = value;
}

/// Adds an entry at the end, after which so many are reserved.
///
/// # Errors
/// Only want of memory. The journal is as it was.
pub(crate) fn append_reserving<S: Drop>(
    journal: &mut Journal<S>,
    entry: Entry<S>,
    reserved: u64,
) -> Result<(), OutOfMemory>
    requires { length journal.old.entries + 1 + reserved ≤ journal.old.limit }
    ensures ok { OnOk result (journal.new ≡ record journal.old {
      entries = journal.old.entries ++ entry ∷ [];
      reserved = reserved;
    }) }
    ensures err { OnErr result (journal.new ≡ journal.old) }
{
    let before = journal.reserved();
    // This lets the proof know that what is reserved has room.
    let _room = journal.room();
    set_reserved(journal, reserved);
    match journal.append(entry) {
        Ok(()) => Ok(()),
        Err((_, JournalFault::OutOfMemory)) => {
            set_reserved(journal, before);
            Err(AllocError)
        }
        Err((_, JournalFault::Full)) => unreachable!(),
    }
}

/// So many are reserved. It takes no memory.
pub(crate) fn set_reserved<S: Drop>(journal: &mut Journal<S>, reserved: u64)
    requires { length journal.old.entries + reserved ≤ journal.old.limit }
    ensures { journal.new ≡ record journal.old { reserved = reserved } }
{
    let before = journal.reserved();
    if reserved <= before {
        journal.give_back(before - reserved);
        return;
    }
    match journal.reserve(reserved - before) {
        Ok(()) => {}
        Err(_) => unreachable!(),
    }
}
