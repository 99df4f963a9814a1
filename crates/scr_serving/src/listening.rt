//! A listener of the events of services is added (OSGi Core 8, chapter 5, "Service Listeners").
ghost use Rattle.ldap_filter.specs.Trees.{Tree};
ghost use Rattle.scr_judgements.specs.Judgements.{Judges};
ghost use Rattle.scr_state.specs.Keeps.{Keeps};
ghost use Rattle.scr_world.specs.Refusals.{refusal, refuse_if};
ghost use Rattle.scr_world.specs.declared.command.Command.TheVariants.{Listen};
ghost use Rattle.scr_world.specs.declared.reply.CoreFault.TheVariants.{ListenersFull};
ghost use Rattle.scr_world.specs.declared.step.Step.{Step};
ghost use Rattle.scr_world.specs.declared.step.Step.TheVariants.{Command as Commanded};
ghost use Rattle.std.specs.Prelude.{◌≡◌, ◌+◌, length, nat_le};

use crate::active::refusal_of_inactive;
use journal_core::Journal;
use ldap_filter::Filter;
use scr_judgements::{Judgement, TablesAfter, draft_with, has_room_for_command};
use scr_state::{State, next_length};
use scr_world::{CoreFault, Reply, Step, World};
use service_listeners::Listeners;
use std::alloc::Global;

/// What is said of a command that adds a listener: its number.
///
/// # Errors
/// `NoBundle`, then `WrongState` where the bundle isn't ACTIVE, `ListenersFull` where there are 64, `JournalFull`, and want of memory.
pub fn judge_listen(
    alloc: Global,
    journal: &Journal<Step>,
    state: &State,
    step: &Step,
    bundle: u64,
    filter: &Filter,
) -> Result<Judgement, CoreFault>
    requires keeps { Keeps journal.now state.now }
    requires command { step.now ≡ Commanded (Listen bundle filter.now) }
    ensures judged { Judges journal.now.limit state.now (Listen bundle filter.now) result }
{
    if let Some(fault) = refusal_of_listen(&state.world, bundle) {
        return Err(fault);
    }
    if !has_room_for_command(journal, state) {
        return Err(CoreFault::JournalFull);
    }
    let number = next_listener(journal, state);
    let reply = Reply::Listener(number);
    let draft = draft_with(alloc, state, step, TablesAfter::none())?;
    Ok(Judgement::Changes { reply, draft })
}

fn refusal_of_listen(world: &World, bundle: u64) -> Option<CoreFault>
    ensures { (filter : Tree) → result ≡ refusal world.now (Listen bundle filter) }
{
    refusal_of_inactive(world, bundle).or(refusal_of_full(&world.listeners))
}

fn refusal_of_full(listeners: &Listeners) -> Option<CoreFault>
    ensures { result ≡ refuse_if (nat_le 64 (length listeners.now.rows)) ListenersFull }
{
    if listeners.rows().len() < 64 {
        return None;
    }
    Some(CoreFault::ListenersFull)
}

// The number of the next listener. There is one, since no more were given than there are entries.
fn next_listener(journal: &Journal<Step>, state: &State) -> u64
    requires { Keeps journal.now state.now }
    ensures { result ≡ state.now.world.listeners.numbered + 1 }
{
    // This lets the proof know that one more than the entries is a number of 64 bits.
    let _length = next_length(journal);
    state.world.listeners.numbered() + 1
}
