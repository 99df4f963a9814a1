//! The last refusals of a command, and what it comes to where none holds (our own).
ghost use Rattle.scr_judgements.specs.Asked.{IsAskedAfter};
ghost use Rattle.scr_judgements.specs.Changing.{ChangesFreely, ChangesUnlessFull};
ghost use Rattle.scr_judgements.specs.Judgements.{JudgesStep};
ghost use Rattle.scr_state.specs.Keeps.{Keeps};
ghost use Rattle.std.specs.Prelude.{◌≡◌};

use crate::tables_after::asked_with;
use crate::{Asked, Judgement, TablesAfter, are_too_many, command_draft, has_room_for_command};
use journal_core::Journal;
use scr_state::State;
use scr_world::{CoreFault, Reply, Step};
use std::alloc::Global;

/// Judges a command that changes something and that nothing refuses but too many component configurations or want of room,
/// where these are its reply and its tables.
///
/// # Errors
/// `ComponentsFull` where it makes component configurations come and more than 512 would count then, then `JournalFull` where
/// its entry has no room, and want of memory.
pub fn change_asking(
    alloc: Global,
    journal: &Journal<Step>,
    state: &State,
    step: &Step,
    reply: Reply,
    tables: TablesAfter,
) -> Result<Judgement, CoreFault>
    requires keeps { Keeps journal.now state.now }
    requires changes { ChangesUnlessFull state.now step.now reply tables }
    ensures { JudgesStep journal.now.limit state.now step.now result }
{
    let asked = asked_with(alloc, state, step, &tables)?;
    if are_too_many(&state.world, step, &asked) {
        return Err(CoreFault::ComponentsFull);
    }
    change(journal, state, step, reply, asked, tables)
}

/// Judges a command that changes something and that nothing refuses but want of room, where these are its reply and its tables.
///
/// # Errors
/// `JournalFull` where its entry has no room, and else just want of memory.
pub fn change_freely(
    alloc: Global,
    journal: &Journal<Step>,
    state: &State,
    step: &Step,
    reply: Reply,
    tables: TablesAfter,
) -> Result<Judgement, CoreFault>
    requires keeps { Keeps journal.now state.now }
    requires changes { ChangesFreely state.now step.now reply tables }
    ensures { JudgesStep journal.now.limit state.now step.now result }
{
    if !has_room_for_command(journal, state) {
        return Err(CoreFault::JournalFull);
    }
    let asked = asked_with(alloc, state, step, &tables)?;
    change(journal, state, step, reply, asked, tables)
}

/// The same where it is known what the command asks for. It takes no memory.
///
/// # Errors
/// `JournalFull` where its entry has no room.
pub fn change(
    journal: &Journal<Step>,
    state: &State,
    step: &Step,
    reply: Reply,
    asked: Asked,
    tables: TablesAfter,
) -> Result<Judgement, CoreFault>
    requires keeps { Keeps journal.now state.now }
    requires asked { IsAskedAfter step.now state.now.world asked }
    requires changes { ChangesFreely state.now step.now reply tables }
    ensures { JudgesStep journal.now.limit state.now step.now result }
{
    if !has_room_for_command(journal, state) {
        return Err(CoreFault::JournalFull);
    }
    let draft = command_draft(&state.world, asked, tables);
    Ok(Judgement::Changes { reply, draft })
}
