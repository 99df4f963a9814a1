//! An entry at the end of the journal, with what is reserved after it.
ghost use Rattle.journal_core.specs.declared.entry.Entry.{Entry};
ghost use Rattle.journal_core.specs.Rooms.{JournalRows};
ghost use Rattle.scr_growth.specs.Growths.{WasAdded};
ghost use Rattle.scr_world.specs.declared.step.Step.{Step};
ghost use Rattle.std.specs.Prelude.{◌≡◌, ◌+◌, ◌≤◌, ◌++◌, ◌∷◌, [], OnErr, OnOk, length};

use crate::generic::{append_reserving, let_go, set_reserved};
use crate::settling::Lists;
use journal_core::{Entry, Journal};
use prop_map::OutOfMemory;
use scr_world::Step;

/// Adds the entry of a step at the end, after which so many are reserved.
///
/// # Errors
/// Only want of memory. The journal is as it was.
pub(crate) fn add_entry(
    journal: &mut Journal<Step>,
    step: Box<Step>,
    lists: Lists,
    reserved: u64,
) -> Result<(), OutOfMemory>
    requires { length journal.old.entries + 1 + reserved ≤ journal.old.limit }
    ensures ok { OnOk result (journal.new ≡ record journal.old {
      entries = journal.old.entries ++ record {
        step = step.value;
        closed = lists.closed;
        opened = lists.opened;
        stopped = lists.stopped;
      } ∷ [];
      reserved = reserved;
    }) }
    ensures err { OnErr result (journal.new ≡ journal.old) }
{
    let Lists {
        closed,
        opened,
        stopped,
    } = lists;
    let entry = Entry {
        step: Box::into_inner(step),
        closed,
        opened,
        stopped,
    };
    append_reserving(journal, entry, reserved)?;
    Ok(())
}

/// Takes the last entry away, as if it had never come, so that as many are reserved as before it. It takes no memory.
pub(crate) fn take_entry(journal: &mut Journal<Step>, reserved: u64)
    requires { (before : JournalRows Step) × (reserved ≡ before.reserved) × WasAdded before journal.old }
    ensures { (before : JournalRows Step) → reserved ≡ before.reserved → WasAdded before journal.old → journal.new ≡ before }
{
    let entry = journal.take_back();
    let_go(entry);
    set_reserved(journal, reserved);
}
