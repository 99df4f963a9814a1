//! The judge of a command, by its kind.
ghost use Rattle.scr_commands.specs.Inside.Subjects.{Bundles, Configurations, Services, subject};
ghost use Rattle.scr_judgements.specs.Judgements.{Judges, JudgesStep};
ghost use Rattle.scr_state.specs.Keeps.{Keeps};
ghost use Rattle.scr_world.specs.declared.step.Step.TheVariants.{Command as Commanded};
ghost use Rattle.std.specs.Prelude.{◌≡◌};

use journal_core::Journal;
use scr_configuring::{judge_configure, judge_configure_factory, judge_unconfigure};
use scr_installing::{judge_install, judge_uninstall, judge_update};
use scr_judgements::Judgement;
use scr_serving::{
    judge_get, judge_listen, judge_register, judge_set_properties, judge_unget, judge_unlisten,
    judge_unregister,
};
use scr_starting::{judge_disable, judge_enable, judge_start, judge_stop};
use scr_state::State;
use scr_world::{Command, CoreFault, Step};
use std::alloc::Global;

/// What a command comes to: why it is refused, or what it answers and, where it changes something, its draft. A step that is no
/// command has no judge, so its answer is `OutOfMemory`.
///
/// # Errors
/// The first refusal of the command whose condition holds, last `JournalFull`, where the journal has no room for the entry of a
/// command that changes something. Of a command `OutOfMemory` comes only for want of memory, and hides none of these but
/// `NoComponent`, `Cycle`, `ComponentsFull` and what stands behind one of them.
pub fn judge(
    alloc: Global,
    journal: &Journal<Step>,
    state: &State,
    step: &Step,
) -> Result<Judgement, CoreFault>
    requires keeps { Keeps journal.now state.now }
    ensures judged { JudgesStep journal.now.limit state.now step.now result }
{
    match step {
        Step::Command(command) => judge_command(alloc, journal, state, step, command),
        _ => Err(CoreFault::OutOfMemory),
    }
}

fn judge_command(
    alloc: Global,
    journal: &Journal<Step>,
    state: &State,
    step: &Step,
    command: &Command,
) -> Result<Judgement, CoreFault>
    requires keeps { Keeps journal.now state.now }
    requires command { step.now ≡ Commanded command.now }
    ensures judged { Judges journal.now.limit state.now command.now result }
{
    match command {
        Command::Install { .. }
        | Command::Update { .. }
        | Command::Start { .. }
        | Command::Stop { .. }
        | Command::Uninstall { .. }
        | Command::Enable { .. }
        | Command::Disable { .. } => judge_for_bundles(alloc, journal, state, step, command),
        Command::Register { .. }
        | Command::Unregister { .. }
        | Command::SetProperties { .. }
        | Command::Get { .. }
        | Command::Unget { .. }
        | Command::Listen { .. }
        | Command::Unlisten { .. } => judge_for_services(alloc, journal, state, step, command),
        Command::Configure { .. }
        | Command::ConfigureFactory { .. }
        | Command::Unconfigure { .. } => judge_for_configurations(
            alloc, journal, state, step, command,
        ),
    }
}

// A command about bundles.
fn judge_for_bundles(
    alloc: Global,
    journal: &Journal<Step>,
    state: &State,
    step: &Step,
    command: &Command,
) -> Result<Judgement, CoreFault>
    requires keeps { Keeps journal.now state.now }
    requires command { step.now ≡ Commanded command.now }
    requires subject { subject command.now ≡ Bundles }
    ensures judged { Judges journal.now.limit state.now command.now result }
{
    match command {
        Command::Install { doc } => judge_install(alloc, journal, state, step, doc),
        Command::Update { bundle, doc } => judge_update(alloc, journal, state, step, *bundle, doc),
        Command::Start { bundle } => judge_start(alloc, journal, state, step, *bundle),
        Command::Stop { bundle } => judge_stop(alloc, journal, state, step, *bundle),
        Command::Uninstall { bundle } => judge_uninstall(alloc, journal, state, step, *bundle),
        Command::Enable { bundle, name } => judge_enable(
            alloc, journal, state, step, *bundle, name,
        ),
        Command::Disable { bundle, name } => {
            judge_disable(alloc, journal, state, step, *bundle, name)
        }
        _ => unreachable!(),
    }
}

// A command about services.
fn judge_for_services(
    alloc: Global,
    journal: &Journal<Step>,
    state: &State,
    step: &Step,
    command: &Command,
) -> Result<Judgement, CoreFault>
    requires keeps { Keeps journal.now state.now }
    requires command { step.now ≡ Commanded command.now }
    requires subject { subject command.now ≡ Services }
    ensures judged { Judges journal.now.limit state.now command.now result }
{
    match command {
        Command::Register {
            bundle,
            interfaces,
            properties,
        } => judge_register(alloc, journal, state, step, *bundle, interfaces, properties),
        Command::Unregister { bundle, service } => {
            judge_unregister(alloc, journal, state, step, *bundle, *service)
        }
        Command::SetProperties {
            bundle,
            service,
            properties,
        } => judge_set_properties(alloc, journal, state, step, *bundle, *service, properties),
        Command::Get { bundle, service } => {
            judge_get(alloc, journal, state, step, *bundle, *service)
        }
        Command::Unget { bundle, service } => {
            judge_unget(alloc, journal, state, step, *bundle, *service)
        }
        Command::Listen { bundle, filter } => {
            judge_listen(alloc, journal, state, step, *bundle, filter)
        }
        Command::Unlisten { listener } => judge_unlisten(alloc, journal, state, step, *listener),
        _ => unreachable!(),
    }
}

// A command about configurations.
fn judge_for_configurations(
    alloc: Global,
    journal: &Journal<Step>,
    state: &State,
    step: &Step,
    command: &Command,
) -> Result<Judgement, CoreFault>
    requires keeps { Keeps journal.now state.now }
    requires command { step.now ≡ Commanded command.now }
    requires subject { subject command.now ≡ Configurations }
    ensures judged { Judges journal.now.limit state.now command.now result }
{
    match command {
        Command::Configure { pid, properties } => {
            judge_configure(alloc, journal, state, step, pid, properties)
        }
        Command::ConfigureFactory {
            factory,
            name,
            properties,
        } => judge_configure_factory(alloc, journal, state, step, factory, name, properties),
        Command::Unconfigure { pid } => judge_unconfigure(alloc, journal, state, step, pid),
        _ => unreachable!(),
    }
}
