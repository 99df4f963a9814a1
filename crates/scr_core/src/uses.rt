//! Gets by token (OSGi Core 8, chapter 5, "Getting Services"; tokens are our own).
ghost use Rattle.scr_state.specs.Keeps.{Keeps};
ghost use Rattle.scr_world.specs.Calls.{EndsUse, Gets};
ghost use Rattle.scr_world.specs.declared.reply.CoreFault.TheVariants.{OutOfMemory as NoMemory};
ghost use Rattle.std.specs.Option.{unwrap_or};
ghost use Rattle.std.specs.Prelude.{◌≡◌, ◌≢◌, Err, IfOk, OnErr, Some};

use crate::generic::let_go;
use crate::room::has_room;
use crate::steps::boxed;
use crate::use_note::UseNote;
use journal_core::Journal;
use prop_map::OutOfMemory;
use scr_serving::refusal_of_get;
use scr_state::State;
use scr_still::grow_still;
use scr_turns::turn_draft;
use scr_world::{CoreFault, Step, Token, has_token};
use std::alloc::Global;

/// Why a get by token is refused, last for want of room for it and its release. It takes no memory.
pub(crate) fn refusal_of_use(
    journal: &Journal<Step>,
    state: &State,
    bundle: u64,
    service: u64,
) -> Option<CoreFault>
    requires keeps { Keeps journal.now state.now }
    ensures answer { Gets journal.now.limit journal.now.entries bundle service (Err (unwrap_or result NoMemory)) journal.now.entries }
    ensures told { result ≢ Some NoMemory }
{
    if let Some(fault) = refusal_of_get(state, bundle, service) {
        return Some(fault);
    }
    if !has_room(journal, 2) {
        return Some(CoreFault::JournalFull);
    }
    None
}

/// Gets a service for a bundle by a token.
pub(crate) fn get(
    alloc: Global,
    journal: &mut Journal<Step>,
    state: &mut State,
    bundle: u64,
    service: u64,
) -> Result<UseNote, CoreFault>
    requires keeps { Keeps journal.old state.old }
    ensures keeps { Keeps journal.new state.new }
    ensures limit { journal.new.limit ≡ journal.old.limit }
    ensures answer { Gets journal.old.limit journal.old.entries bundle service result journal.new.entries }
{
    if let Some(fault) = refusal_of_use(journal, state, bundle, service) {
        return Err(fault);
    }
    let place = journal.length();
    let step = boxed(alloc, Step::Got { bundle, service })?;
    let draft = match turn_draft(alloc, state, &step) {
        Ok(draft) => draft,
        Err(_) => {
            let_go(step);
            return Err(CoreFault::OutOfMemory);
        }
    };
    grow_still(alloc, journal, state, step, draft)?;
    Ok(UseNote::new(Token {
        place,
        bundle,
        service,
    }))
}

/// Releases a get by token, and answers whether it stood.
pub(crate) fn release(
    alloc: Global,
    journal: &mut Journal<Step>,
    state: &mut State,
    note: &Token,
) -> Result<bool, OutOfMemory>
    requires keeps { Keeps journal.old state.old }
    ensures keeps { Keeps journal.new state.new }
    ensures limit { journal.new.limit ≡ journal.old.limit }
    ensures ok { IfOk result (λ stood. EndsUse journal.old.limit journal.old.entries note.now stood journal.new.entries) }
    ensures err { OnErr result (journal.new ≡ journal.old) }
{
    if !has_token(&state.world, note) {
        return Ok(false);
    }
    // This lets the proof know that what is reserved has room.
    let _room = journal.room();
    let step = boxed(alloc, Step::Released { place: note.place })?;
    let draft = match turn_draft(alloc, state, &step) {
        Ok(draft) => draft,
        Err(error) => {
            let_go(step);
            return Err(error);
        }
    };
    grow_still(alloc, journal, state, step, draft)?;
    Ok(true)
}
