//! A service is got for a bundle (OSGi Core 8, chapter 5, "Getting Services").
ghost use Rattle.scr_judgements.specs.Judgements.{Judges};
ghost use Rattle.scr_state.specs.Keeps.{Keeps};
ghost use Rattle.scr_world.specs.Refusals.{activation_failed, failure_fault, refusal};
ghost use Rattle.scr_world.specs.declared.command.Command.TheVariants.{Get};
ghost use Rattle.scr_world.specs.declared.marks.Failure.{Failure};
ghost use Rattle.scr_world.specs.declared.step.Step.TheVariants.{Command as Commanded};
ghost use Rattle.std.specs.Option.{option_copied};
ghost use Rattle.std.specs.Prelude.{◌≡◌, ◌+◌, ◌==◌, IfOk, find};
ghost use Rattle.use_counts.specs.Uses.{after_get, use_count};
ghost use Rattle.use_counts.specs.declared.uses.Holder.TheVariants.{Shell};

use crate::active::refusal_of_inactive;
use crate::counted::Counted;
use crate::drafts::uses_after;
use crate::registered::refusal_of_unregistered;
use callback_orders::Outcome;
use journal_core::Journal;
use prop_map::{Copies, OutOfMemory};
use scr_judgements::{Judgement, draft_with, has_room_for_command};
use scr_state::State;
use scr_world::{CoreFault, Failure, Reply, Step, World};
use std::alloc::{AllocError, Global};
use use_counts::{Holder, UseCounts};

/// What is said of a command that gets a service for a bundle: how often the bundle uses it then.
///
/// # Errors
/// `NoBundle`, then `WrongState` where the bundle isn't ACTIVE, `ActivationFailed` or `ActivationNoMemory` where the service left
/// when a creation or an activation failed, `NoService` where it isn't registered or is the platform's own, `JournalFull`, and want
/// of memory. That the bundle uses it 2^32 - 1 times counts as such.
pub fn judge_get(
    alloc: Global,
    journal: &Journal<Step>,
    state: &State,
    step: &Step,
    bundle: u64,
    service: u64,
) -> Result<Judgement, CoreFault>
    requires keeps { Keeps journal.now state.now }
    requires command { step.now ≡ Commanded (Get bundle service) }
    ensures judged { Judges journal.now.limit state.now (Get bundle service) result }
{
    if let Some(fault) = refusal_of_get(state, bundle, service) {
        return Err(fault);
    }
    if !has_room_for_command(journal, state) {
        return Err(CoreFault::JournalFull);
    }
    let after = with_get(alloc, &state.world.uses, bundle, service)?;
    let reply = Reply::Uses(after.count);
    let draft = draft_with(alloc, state, step, uses_after(after.uses))?;
    Ok(Judgement::Changes { reply, draft })
}

/// Why a get of a service for a bundle is refused, also one by a token, but for want of room. It takes no memory.
pub fn refusal_of_get(state: &State, bundle: u64, service: u64) -> Option<CoreFault>
    ensures { result ≡ refusal state.now.world (Get bundle service) }
{
    let world = &state.world;
    if let Some(fault) = refusal_of_inactive(world, bundle) {
        return Some(fault);
    }
    if let Some(fault) = refusal_of_failed(world, service) {
        return Some(fault);
    }
    refusal_of_unregistered(world, service)
}

// Whether the service left when a creation or an activation failed.
fn refusal_of_failed(world: &World, service: u64) -> Option<CoreFault>
    ensures { result ≡ activation_failed world.now service }
{
    if service == 0 {
        return None;
    }
    let failure = failure_of(world.failures.as_slice(), service)?;
    failure_fault(failure)
}

fn failure_of(failures: &[Failure], service: u64) -> Option<&Failure>
    ensures { option_copied result ≡ find (λ (f : Failure). f.service == service) failures.now }
{
    failures.iter().find(|failure| failure.service == service)
}

fn failure_fault(failure: &Failure) -> Option<CoreFault>
    ensures { result ≡ failure_fault failure.now failure.now.outcome }
{
    let instance = failure.instance;
    match failure.outcome {
        Outcome::Done => None,
        Outcome::Refused => Some(CoreFault::ActivationFailed { instance }),
        Outcome::NoMemory => Some(CoreFault::ActivationNoMemory { instance }),
    }
}

// The gets with one more of the shell.
fn with_get(
    alloc: Global,
    uses: &UseCounts,
    bundle: u64,
    service: u64,
) -> Result<Counted, OutOfMemory>
    ensures uses { IfOk result (λ after. after.uses ≡ after_get bundle service Shell uses.now) }
    ensures count { IfOk result (λ after. after.count ≡ use_count bundle service uses.now + 1) }
{
    if uses.count(bundle, service) == u32::MAX {
        return Err(AllocError);
    }
    let mut uses = uses.copy(alloc)?;
    let count = uses.get(bundle, service, Holder::Shell)?;
    Ok(Counted { uses, count })
}
