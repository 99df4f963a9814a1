//! The properties of a service are set (OSGi Core 8, chapter 5, "Service Registration").
ghost use Rattle.scr_judgements.specs.Judgements.{Judges};
ghost use Rattle.scr_state.specs.Keeps.{Keeps};
ghost use Rattle.scr_world.specs.declared.command.Command.TheVariants.{SetProperties};
ghost use Rattle.scr_world.specs.declared.step.Step.TheVariants.{Command as Commanded};
ghost use Rattle.service_registry.specs.Registries.{refusal, with_properties};
ghost use Rattle.std.specs.Prelude.{◌≡◌, IfOk, None};

use crate::drafts::services_after;
use crate::ownership::refusal_of_foreign;
use journal_core::Journal;
use prop_map::{Copies, OutOfMemory, Properties};
use scr_judgements::{Judgement, draft_with, has_room_for_command};
use scr_state::State;
use scr_world::{CoreFault, Reply, Step};
use service_registry::{Registry, RegistryFault};
use std::alloc::{AllocError, Global};

/// What is said of a command that sets the properties of a service.
///
/// # Errors
/// `NoService` where no command registered it or it left, then `NotOwner` where it is another bundle's, `JournalFull`, and want of
/// memory.
pub fn judge_set_properties(
    alloc: Global,
    journal: &Journal<Step>,
    state: &State,
    step: &Step,
    bundle: u64,
    service: u64,
    properties: &Properties,
) -> Result<Judgement, CoreFault>
    requires keeps { Keeps journal.now state.now }
    requires command { step.now ≡ Commanded (SetProperties bundle service properties.now) }
    ensures judged { Judges journal.now.limit state.now (SetProperties bundle service properties.now) result }
{
    if let Some(fault) = refusal_of_foreign(&state.world, bundle, service) {
        return Err(fault);
    }
    if !has_room_for_command(journal, state) {
        return Err(CoreFault::JournalFull);
    }
    let registry = with_properties(alloc, &state.world.registry, bundle, service, properties)?;
    let draft = draft_with(alloc, state, step, services_after(registry))?;
    Ok(Judgement::Changes {
        reply: Reply::Done,
        draft,
    })
}

// The services, one that is the bundle's with other properties.
fn with_properties(
    alloc: Global,
    registry: &Registry,
    bundle: u64,
    service: u64,
    properties: &Properties,
) -> Result<Registry, OutOfMemory>
    requires { refusal bundle service registry.now ≡ None }
    ensures { IfOk result (λ after. after ≡ with_properties service properties.now registry.now) }
{
    let mut after = registry.copy(alloc)?;
    let given = properties.copy(alloc)?;
    match after.set_properties(alloc, bundle, service, given) {
        Ok(()) => Ok(after),
        Err(RegistryFault::OutOfMemory) => Err(AllocError),
        Err(_) => unreachable!(),
    }
}
