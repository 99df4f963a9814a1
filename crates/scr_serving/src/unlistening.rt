//! A listener of the events of services is removed (OSGi Core 8, chapter 5, "Service Listeners").
ghost use Rattle.scr_judgements.specs.Judgements.{Judges};
ghost use Rattle.scr_state.specs.Keeps.{Keeps};
ghost use Rattle.scr_world.specs.Refusals.{refusal};
ghost use Rattle.scr_world.specs.declared.command.Command.TheVariants.{Unlisten};
ghost use Rattle.scr_world.specs.declared.step.Step.TheVariants.{Command as Commanded};
ghost use Rattle.std.specs.Prelude.{◌≡◌};

use journal_core::Journal;
use scr_judgements::{Judgement, TablesAfter, draft_with, has_room_for_command};
use scr_state::State;
use scr_world::{CoreFault, Reply, Step, World};
use std::alloc::Global;

/// What is said of a command that removes a listener.
///
/// # Errors
/// `NoListener`, then `JournalFull`, and want of memory.
pub fn judge_unlisten(
    alloc: Global,
    journal: &Journal<Step>,
    state: &State,
    step: &Step,
    listener: u64,
) -> Result<Judgement, CoreFault>
    requires keeps { Keeps journal.now state.now }
    requires command { step.now ≡ Commanded (Unlisten listener) }
    ensures judged { Judges journal.now.limit state.now (Unlisten listener) result }
{
    if let Some(fault) = refusal_of_unlisten(&state.world, listener) {
        return Err(fault);
    }
    if !has_room_for_command(journal, state) {
        return Err(CoreFault::JournalFull);
    }
    let draft = draft_with(alloc, state, step, TablesAfter::none())?;
    Ok(Judgement::Changes {
        reply: Reply::Done,
        draft,
    })
}

fn refusal_of_unlisten(world: &World, listener: u64) -> Option<CoreFault>
    ensures { result ≡ refusal world.now (Unlisten listener) }
{
    if world.listeners.listener(listener).is_some() {
        return None;
    }
    Some(CoreFault::NoListener { listener })
}
