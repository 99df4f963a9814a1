//! The configuration of a PID (OSGi Compendium 8, chapter 104, "The Persistent Identity", "Configuration Properties").
ghost use Rattle.config_admin.specs.Configurations.{own_configuration, with_configuration};
ghost use Rattle.config_admin.specs.Refusals.{IsRefusedBy, set_refusal};
ghost use Rattle.scr_judgements.specs.Judgements.{Judges};
ghost use Rattle.scr_state.specs.Keeps.{Keeps};
ghost use Rattle.scr_world.specs.declared.command.Command.TheVariants.{Configure};
ghost use Rattle.scr_world.specs.declared.step.Step.TheVariants.{Command as Commanded};
ghost use Rattle.std.specs.Prelude.{◌≡◌, IfOk};

use crate::config_refusals::{change_configurations, core_fault};
use config_admin::{ConfigFault, Configurations};
use journal_core::Journal;
use prop_map::{Copies, Properties, Str};
use scr_judgements::Judgement;
use scr_state::State;
use scr_world::{CoreFault, Step};
use std::alloc::Global;

/// Judges that the configuration of a PID is set.
///
/// # Errors
/// `BadPid` where the PID isn't one or more of letters, digits, `.`, `_` and `-`, `FactoryClash` where it is the PID of a factory
/// that has configurations, `ConfigurationsFull` where it would be the 1,025th configuration, `ComponentsFull` where component
/// configurations come and more than 512 would count then, last `JournalFull`; and want of memory.
pub fn judge_configure(
    alloc: Global,
    journal: &Journal<Step>,
    state: &State,
    step: &Step,
    pid: &Str,
    properties: &Properties,
) -> Result<Judgement, CoreFault>
    requires keeps { Keeps journal.now state.now }
    requires command { step.now ≡ Commanded (Configure pid.now properties.now) }
    ensures judged { Judges journal.now.limit state.now (Configure pid.now properties.now) result }
{
    match configured(alloc, &state.world.configurations, pid, properties) {
        Ok(configurations) => change_configurations(alloc, journal, state, step, configurations),
        Err(fault) => Err(core_fault(fault)),
    }
}

// A copy of the configurations, with this one set.
fn configured(
    alloc: Global,
    configurations: &Configurations,
    pid: &Str,
    properties: &Properties,
) -> Result<Configurations, ConfigFault>
    ensures after { IfOk result (λ after. after ≡ with_configuration (own_configuration pid.now properties.now) configurations.now) }
    ensures refused { IsRefusedBy (set_refusal pid.now configurations.now) result }
{
    if let Some(fault) = configurations.refusal_of_set(pid.as_str()) {
        return Err(fault);
    }
    let mut after = configurations.copy(alloc)?;
    let properties = properties.copy(alloc)?;
    after.set(alloc, pid.as_str(), properties)?;
    Ok(after)
}
