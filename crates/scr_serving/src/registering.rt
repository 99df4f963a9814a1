//! A service is registered (OSGi Core 8, chapter 5, "Registering Services").
ghost use Rattle.prop_map.specs.declared.properties.Property.{Property};
ghost use Rattle.scr_judgements.specs.Judgements.{Judges};
ghost use Rattle.scr_state.specs.Keeps.{Keeps};
ghost use Rattle.scr_world.specs.Refusals.{refusal, refuse_if};
ghost use Rattle.scr_world.specs.Tables.{direct_scope};
ghost use Rattle.scr_world.specs.declared.command.Command.TheVariants.{Register};
ghost use Rattle.scr_world.specs.declared.reply.CoreFault.TheVariants.{ServicesFull};
ghost use Rattle.scr_world.specs.declared.step.Step.TheVariants.{Command as Commanded};
ghost use Rattle.service_registry.specs.Registries.{registered};
ghost use Rattle.std.specs.Prelude.{◌≡◌, ℕ, IfOk, List as Items, length, nat_le, true};

use crate::active::refusal_of_inactive;
use crate::drafts::services_after;
use journal_core::Journal;
use prop_map::{Copies, List, OutOfMemory, Properties, Str};
use scr_judgements::{Judgement, draft_with, has_room_for_command};
use scr_state::State;
use scr_world::{CoreFault, Reply, Step, World};
use service_registry::Registry;
use std::alloc::{AllocError, Global};

/// What is said of a command that registers a service: the service that comes, with its number.
///
/// # Errors
/// `NoBundle`, then `WrongState` where the bundle isn't ACTIVE, `ServicesFull` where commands registered 1,024, `JournalFull`, and
/// want of memory.
pub fn judge_register(
    alloc: Global,
    journal: &Journal<Step>,
    state: &State,
    step: &Step,
    bundle: u64,
    interfaces: &List<Str>,
    properties: &Properties,
) -> Result<Judgement, CoreFault>
    requires keeps { Keeps journal.now state.now }
    requires command { step.now ≡ Commanded (Register bundle interfaces.now properties.now) }
    ensures judged { Judges journal.now.limit state.now (Register bundle interfaces.now properties.now) result }
{
    if let Some(fault) = refusal_of_register(&state.world, bundle) {
        return Err(fault);
    }
    if !has_room_for_command(journal, state) {
        return Err(CoreFault::JournalFull);
    }
    let registry = with_service(
        alloc,
        &state.world.registry,
        bundle,
        interfaces.as_slice(),
        properties,
    )?;
    let reply = Reply::Service(registry.numbered());
    let draft = draft_with(alloc, state, step, services_after(registry))?;
    Ok(Judgement::Changes { reply, draft })
}

fn refusal_of_register(world: &World, bundle: u64) -> Option<CoreFault>
    ensures { (interfaces : Items (Items ℕ)) (properties : Items Property) → result ≡ refusal world.now (Register bundle interfaces properties) }
{
    refusal_of_inactive(world, bundle).or(refusal_of_full(&world.registry))
}

// There are as many services as commands may register.
fn refusal_of_full(registry: &Registry) -> Option<CoreFault>
    ensures { result ≡ refuse_if (nat_le 1024 (length registry.now.rows)) ServicesFull }
{
    if registry.rows().len() < 1024 {
        return None;
    }
    Some(CoreFault::ServicesFull)
}

// The services with one more.
fn with_service(
    alloc: Global,
    registry: &Registry,
    bundle: u64,
    interfaces: &[Str],
    properties: &Properties,
) -> Result<Registry, OutOfMemory>
    ensures { IfOk result (λ after. after ≡ registered bundle interfaces.now direct_scope properties.now true registry.now) }
{
    let mut after = registry.copy(alloc)?;
    let given = properties.copy(alloc)?;
    match after.register(alloc, bundle, interfaces, "singleton", given, true) {
        Ok(_) => Ok(after),
        Err(_) => Err(AllocError),
    }
}
