//! A configuration that is deleted (OSGi Compendium 8, chapter 104, "Configuration Objects").
ghost use Rattle.config_admin.specs.Configurations.{without_pid};
ghost use Rattle.config_admin.specs.Refusals.{IsRefusedBy, delete_refusal};
ghost use Rattle.scr_judgements.specs.Judgements.{Judges};
ghost use Rattle.scr_state.specs.Keeps.{Keeps};
ghost use Rattle.scr_world.specs.declared.command.Command.TheVariants.{Unconfigure};
ghost use Rattle.scr_world.specs.declared.step.Step.TheVariants.{Command as Commanded};
ghost use Rattle.std.specs.Prelude.{◌≡◌, IfOk};

use crate::config_refusals::{change_configurations, core_fault};
use config_admin::{ConfigFault, Configurations};
use journal_core::Journal;
use prop_map::{Copies, Str};
use scr_judgements::Judgement;
use scr_state::State;
use scr_world::{CoreFault, Step};
use std::alloc::Global;

/// Judges that the configuration of a PID is deleted, also one of a factory.
///
/// # Errors
/// `NoConfiguration` where the PID has none, `ComponentsFull` where component configurations come and more than 512 would count
/// then, last `JournalFull`; and want of memory.
pub fn judge_unconfigure(
    alloc: Global,
    journal: &Journal<Step>,
    state: &State,
    step: &Step,
    pid: &Str,
) -> Result<Judgement, CoreFault>
    requires keeps { Keeps journal.now state.now }
    requires command { step.now ≡ Commanded (Unconfigure pid.now) }
    ensures judged { Judges journal.now.limit state.now (Unconfigure pid.now) result }
{
    match unconfigured(alloc, &state.world.configurations, pid) {
        Ok(configurations) => change_configurations(alloc, journal, state, step, configurations),
        Err(fault) => Err(core_fault(fault)),
    }
}

// A copy of the configurations, with that of a PID deleted. Where it has none, nothing is copied.
fn unconfigured(
    alloc: Global,
    configurations: &Configurations,
    pid: &Str,
) -> Result<Configurations, ConfigFault>
    ensures after { IfOk result (λ after. after ≡ without_pid pid.now configurations.now) }
    ensures refused { IsRefusedBy (delete_refusal pid.now configurations.now) result }
{
    if configurations.of_pid(pid.as_str()).is_none() {
        return Err(ConfigFault::NoConfiguration);
    }
    let mut after = configurations.copy(alloc)?;
    after.delete(pid.as_str())?;
    Ok(after)
}
