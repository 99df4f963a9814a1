//! The configurations of a factory (OSGi Compendium 8, chapter 104, "Factory Configurations").
ghost use Rattle.config_admin.specs.Configurations.{factory_configuration, with_configuration};
ghost use Rattle.config_admin.specs.Refusals.{IsRefusedBy, set_factory_refusal};
ghost use Rattle.scr_judgements.specs.Judgements.{Judges};
ghost use Rattle.scr_state.specs.Keeps.{Keeps};
ghost use Rattle.scr_world.specs.declared.command.Command.TheVariants.{ConfigureFactory};
ghost use Rattle.scr_world.specs.declared.step.Step.TheVariants.{Command as Commanded};
ghost use Rattle.std.specs.Prelude.{◌≡◌, IfOk};

use crate::config_refusals::{change_configurations, core_fault};
use config_admin::{ConfigFault, Configurations};
use journal_core::Journal;
use prop_map::{Copies, Properties, Str};
use scr_judgements::Judgement;
use scr_state::State;
use scr_world::{CoreFault, Step};
use std::alloc::Global;

/// Judges that a configuration of a factory is set, whose PID is that of the factory, `~` and its name.
///
/// # Errors
/// `BadPid` where the factory's PID or the name isn't one or more of letters, digits, `.`, `_` and `-`, `FactoryClash` where the
/// factory's PID has a configuration of its own, `ConfigurationsFull` where it would be the 1,025th configuration,
/// `ComponentsFull` where component configurations come and more than 512 would count then, last `JournalFull`; and want of
/// memory.
pub fn judge_configure_factory(
    alloc: Global,
    journal: &Journal<Step>,
    state: &State,
    step: &Step,
    factory: &Str,
    name: &Str,
    properties: &Properties,
) -> Result<Judgement, CoreFault>
    requires keeps { Keeps journal.now state.now }
    requires command { step.now ≡ Commanded (ConfigureFactory factory.now name.now properties.now) }
    ensures judged { Judges journal.now.limit state.now (ConfigureFactory factory.now name.now properties.now) result }
{
    match configured(
        alloc,
        &state.world.configurations,
        factory,
        name,
        properties,
    ) {
        Ok(configurations) => change_configurations(alloc, journal, state, step, configurations),
        Err(fault) => Err(core_fault(fault)),
    }
}

// A copy of the configurations, with this one set.
fn configured(
    alloc: Global,
    configurations: &Configurations,
    factory: &Str,
    name: &Str,
    properties: &Properties,
) -> Result<Configurations, ConfigFault>
    ensures after { IfOk result (λ after. after ≡ with_configuration (factory_configuration factory.now name.now properties.now) configurations.now) }
    ensures refused { IsRefusedBy (set_factory_refusal factory.now name.now configurations.now) result }
{
    if let Some(fault) = configurations.refusal_of_set_factory(factory.as_str(), name.as_str()) {
        return Err(fault);
    }
    let mut after = configurations.copy(alloc)?;
    let properties = properties.copy(alloc)?;
    after.set_factory(alloc, factory.as_str(), name.as_str(), properties)?;
    Ok(after)
}
