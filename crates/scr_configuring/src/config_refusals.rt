//! The refusals of the table of configurations as those of commands, and what a command comes to that it takes (OSGi Compendium
//! 8, chapter 104, "Configuration Objects").
ghost use Rattle.scr_judgements.specs.Changing.{ChangesUnlessFull};
ghost use Rattle.scr_configuring.specs.ConfigRefusals.{core_fault};
ghost use Rattle.scr_judgements.specs.Drafting.{no_tables};
ghost use Rattle.scr_judgements.specs.Judgements.{JudgesStep};
ghost use Rattle.scr_state.specs.Keeps.{Keeps};
ghost use Rattle.scr_world.specs.declared.reply.Reply.TheVariants.{Done};
ghost use Rattle.std.specs.Prelude.{◌≡◌, Some};

use config_admin::{ConfigFault, Configurations};
use journal_core::Journal;
use scr_judgements::{Judgement, TablesAfter, change_asking};
use scr_state::State;
use scr_world::{CoreFault, Reply, Step};
use std::alloc::Global;

/// The refusal of a command for what refuses the change of its configuration.
pub(crate) fn core_fault(fault: ConfigFault) -> CoreFault
    ensures { result ≡ core_fault fault }
{
    match fault {
        ConfigFault::BadPid => CoreFault::BadPid,
        ConfigFault::FactoryClash => CoreFault::FactoryClash,
        ConfigFault::NoConfiguration => CoreFault::NoConfiguration,
        ConfigFault::ConfigurationsFull => CoreFault::ConfigurationsFull,
        ConfigFault::OutOfMemory => CoreFault::OutOfMemory,
    }
}

/// Judges a command that nothing refuses but too many component configurations or want of room, where these are the
/// configurations after it.
///
/// # Errors
/// `ComponentsFull` where it makes component configurations come and more than 512 would count then, then `JournalFull`, and want
/// of memory.
pub(crate) fn change_configurations(
    alloc: Global,
    journal: &Journal<Step>,
    state: &State,
    step: &Step,
    configurations: Configurations,
) -> Result<Judgement, CoreFault>
    requires keeps { Keeps journal.now state.now }
    requires changes { ChangesUnlessFull state.now step.now Done (record no_tables { configurations = Some configurations }) }
    ensures { JudgesStep journal.now.limit state.now step.now result }
{
    let mut tables = TablesAfter::none();
    tables.configurations = Some(configurations);
    change_asking(alloc, journal, state, step, Reply::Done, tables)
}
