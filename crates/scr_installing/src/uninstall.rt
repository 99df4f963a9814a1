//! The uninstall of a bundle (OSGi Core 8, chapter 4, "Uninstalling Bundles").
ghost use Rattle.scr_installing.specs.Described.{AreDescribed};
ghost use Rattle.scr_installing.specs.Idle.{idle_refusal};
ghost use Rattle.scr_judgements.specs.Judgements.{Judges};
ghost use Rattle.scr_state.specs.Keeps.{IsDraft, IsKept, Keeps};
ghost use Rattle.scr_world.specs.Levels.{has_levels};
ghost use Rattle.scr_world.specs.declared.command.Command.TheVariants.{Uninstall};
ghost use Rattle.scr_world.specs.declared.step.Step.TheVariants.{Command as Commanded};
ghost use Rattle.std.specs.Prelude.{◌≡◌, IfOk, None, true};

use crate::described::{Described, descriptions_in, with_levels};
use crate::documents::documents_without;
use crate::drafting::documents_draft;
use crate::idle::check_idle;
use component_dto::Description;
use journal_core::Journal;
use prop_map::{List, OutOfMemory};
use scr_judgements::{Judgement, has_room_for_command};
use scr_state::{Draft, State};
use scr_world::{CoreFault, Reply, Step};
use std::alloc::{AllocError, Global};

/// What is said of the uninstall of a bundle. No cycle comes where descriptions go.
///
/// # Errors
/// `NoBundle` where the bundle isn't there, then `WrongState` where it is ACTIVE, then `Stopping` where it is STOPPING, then
/// `JournalFull` where there is no room for the entry.
pub fn judge_uninstall(
    alloc: Global,
    journal: &Journal<Step>,
    state: &State,
    step: &Step,
    bundle: u64,
) -> Result<Judgement, CoreFault>
    requires keeps { Keeps journal.now state.now }
    requires command { step.now ≡ Commanded (Uninstall bundle) }
    ensures judged { Judges journal.now.limit state.now (Uninstall bundle) result }
{
    check_idle(&state.world, bundle)?;
    if !has_room_for_command(journal, state) {
        return Err(CoreFault::JournalFull);
    }
    let draft = uninstall_draft(alloc, state, step, bundle)?;
    Ok(Judgement::Changes {
        reply: Reply::Done,
        draft,
    })
}

fn uninstall_draft(
    alloc: Global,
    state: &State,
    step: &Step,
    bundle: u64,
) -> Result<Draft, OutOfMemory>
    requires kept { IsKept state.now }
    requires command { step.now ≡ Commanded (Uninstall bundle) }
    requires idle { idle_refusal state.now.world bundle ≡ None }
    ensures { IfOk result (λ draft. IsDraft state.now (Commanded (Uninstall bundle)) draft) }
{
    let documents = documents_without(alloc, state.world.documents.as_slice(), bundle)?;
    let descriptions = descriptions_in(alloc, documents.as_slice())?;
    let described = described_still(alloc, descriptions)?;
    documents_draft(alloc, state, step, documents, described)
}

// Descriptions that have levels, with these.
fn described_still(alloc: Global, descriptions: List<Description>) -> Result<Described, OutOfMemory>
    requires { has_levels descriptions ≡ true }
    ensures { IfOk result (λ described. AreDescribed descriptions described) }
{
    match with_levels(alloc, descriptions) {
        Ok(described) => Ok(described),
        Err(CoreFault::OutOfMemory) => Err(AllocError),
        Err(_) => unreachable!(),
    }
}
