//! Commands.
ghost use Rattle.kept_wirings.specs.KeptRows.{AreKept};
ghost use Rattle.scr_judgements.specs.Judgements.{JudgesStep};
ghost use Rattle.scr_judgements.specs.declared.judgement.Judgement.TheVariants.{Changes};
ghost use Rattle.scr_state.specs.Keeps.{Keeps};
ghost use Rattle.scr_world.specs.Calls.{Commands};
ghost use Rattle.scr_world.specs.declared.command.Command.{Command};
ghost use Rattle.scr_world.specs.declared.step.Step.TheVariants.{Command as Commanded};
ghost use Rattle.std.specs.Prelude.{◌≡◌, Ok};

use crate::generic::let_go;
use crate::steps::boxed;
use crate::wirings::grow_wired;
use journal_core::Journal;
use kept_wirings::KeptWirings;
use prop_map::List;
use scr_commands::judge;
use scr_judgements::Judgement;
use scr_state::{Draft, State};
use scr_world::{Accepted, Command, CoreFault, Reply, Step};
use std::alloc::Global;

/// Takes a command.
pub(crate) fn take_command(
    alloc: Global,
    journal: &mut Journal<Step>,
    state: &mut State,
    wirings: &mut KeptWirings,
    command: Command,
) -> Result<Accepted, CoreFault>
    requires keeps { Keeps journal.old state.old }
    requires wirings { AreKept state.old.world.documents wirings.old }
    ensures keeps { Keeps journal.new state.new }
    ensures wirings { AreKept state.new.world.documents wirings.new }
    ensures limit { journal.new.limit ≡ journal.old.limit }
    ensures answer { Commands journal.old.limit journal.old.entries command result journal.new.entries }
{
    let step = Step::Command(command);
    match judge(alloc, journal, state, &step) {
        Err(fault) => {
            let_go(step);
            Err(fault)
        }
        Ok(Judgement::Unchanged(reply)) => {
            let_go(step);
            Ok(Accepted {
                reply,
                shut: List::of(Vec::new(alloc)),
            })
        }
        Ok(Judgement::Changes { reply, draft }) => {
            append(alloc, journal, state, wirings, step, reply, draft)
        }
    }
}

// Appends the entry of a command that was judged to change something.
fn append(
    alloc: Global,
    journal: &mut Journal<Step>,
    state: &mut State,
    wirings: &mut KeptWirings,
    step: Step,
    reply: Reply,
    draft: Draft,
) -> Result<Accepted, CoreFault>
    requires keeps { Keeps journal.old state.old }
    requires wirings { AreKept state.old.world.documents wirings.old }
    requires command { (c : Command) × (step ≡ Commanded c) }
    requires judged { JudgesStep journal.old.limit state.old step (Ok (Changes reply draft)) }
    ensures keeps { Keeps journal.new state.new }
    ensures wirings { AreKept state.new.world.documents wirings.new }
    ensures limit { journal.new.limit ≡ journal.old.limit }
    ensures answer { (c : Command) → step ≡ Commanded c → Commands journal.old.limit journal.old.entries c result journal.new.entries }
{
    let step = match boxed(alloc, step) {
        Ok(step) => step,
        Err(_) => {
            let_go(draft);
            return Err(CoreFault::OutOfMemory);
        }
    };
    match grow_wired(alloc, journal, state, wirings, step, draft) {
        Ok(shut) => Ok(Accepted { reply, shut }),
        Err(_) => Err(CoreFault::OutOfMemory),
    }
}
