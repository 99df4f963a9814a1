//! A service is unregistered (OSGi Core 8, chapter 5, "Unregistering Services").
ghost use Rattle.scr_judgements.specs.Judgements.{Judges};
ghost use Rattle.scr_state.specs.Keeps.{Keeps};
ghost use Rattle.scr_world.specs.declared.command.Command.TheVariants.{Unregister};
ghost use Rattle.scr_world.specs.declared.step.Step.TheVariants.{Command as Commanded};
ghost use Rattle.service_registry.specs.Registries.{refusal, unregistered};
ghost use Rattle.std.specs.Prelude.{◌≡◌, IfOk, None};

use crate::drafts::services_after;
use crate::ownership::refusal_of_foreign;
use journal_core::Journal;
use prop_map::{Copies, OutOfMemory};
use scr_judgements::{Judgement, draft_with, has_room_for_command};
use scr_state::State;
use scr_world::{CoreFault, Reply, Step};
use service_registry::Registry;
use std::alloc::Global;

/// What is said of a command that unregisters a service.
///
/// # Errors
/// `NoService` where no command registered it or it left, then `NotOwner` where it is another bundle's, `JournalFull`, and want of
/// memory.
pub fn judge_unregister(
    alloc: Global,
    journal: &Journal<Step>,
    state: &State,
    step: &Step,
    bundle: u64,
    service: u64,
) -> Result<Judgement, CoreFault>
    requires keeps { Keeps journal.now state.now }
    requires command { step.now ≡ Commanded (Unregister bundle service) }
    ensures judged { Judges journal.now.limit state.now (Unregister bundle service) result }
{
    if let Some(fault) = refusal_of_foreign(&state.world, bundle, service) {
        return Err(fault);
    }
    if !has_room_for_command(journal, state) {
        return Err(CoreFault::JournalFull);
    }
    let registry = without_service(alloc, &state.world.registry, bundle, service)?;
    let draft = draft_with(alloc, state, step, services_after(registry))?;
    Ok(Judgement::Changes {
        reply: Reply::Done,
        draft,
    })
}

// The services without one that is the bundle's.
fn without_service(
    alloc: Global,
    registry: &Registry,
    bundle: u64,
    service: u64,
) -> Result<Registry, OutOfMemory>
    requires { refusal bundle service registry.now ≡ None }
    ensures { IfOk result (λ after. after ≡ unregistered service registry.now) }
{
    let mut after = registry.copy(alloc)?;
    match after.unregister(bundle, service) {
        Ok(_) => Ok(after),
        Err(_) => unreachable!(),
    }
}
