//! The update of a bundle (OSGi Core 8, chapter 4, "Updating Bundles").
ghost use Rattle.scr_installing.specs.Allowed.{IsAllowed};
ghost use Rattle.scr_installing.specs.Idle.{IsRefusedBy, idle_refusal};
ghost use Rattle.scr_installing.specs.Updates.{update_refusal};
ghost use Rattle.scr_judgements.specs.Judgements.{Judges};
ghost use Rattle.scr_state.specs.Keeps.{Keeps};
ghost use Rattle.scr_world.specs.Tables.{replaced};
ghost use Rattle.scr_world.specs.declared.command.Command.TheVariants.{Update};
ghost use Rattle.scr_world.specs.declared.step.Step.TheVariants.{Command as Commanded};
ghost use Rattle.std.specs.Prelude.{◌≡◌, IfOk, map};

use crate::described::{Described, descriptions_in, with_levels};
use crate::documents::documents_replaced;
use crate::drafting::documents_draft;
use crate::idle::check_idle;
use crate::names::namesake;
use bundle_doc::BundleDoc;
use journal_core::Journal;
use scr_judgements::{Judgement, has_room_for_command};
use scr_state::State;
use scr_world::{Contents, CoreFault, Reply, Step, World};
use std::alloc::Global;

/// What is said of the update of a bundle with a document. The bundle keeps its number and its location.
///
/// # Errors
/// `NoBundle` where the bundle isn't there, then `WrongState` where it is ACTIVE, then `Stopping` where it is STOPPING, then
/// `SameName` where another bundle has the document's symbolic name and version, then `Cycle` where some description would
/// have no level, then `JournalFull` where there is no room for the entry.
pub fn judge_update(
    alloc: Global,
    journal: &Journal<Step>,
    state: &State,
    step: &Step,
    bundle: u64,
    doc: &BundleDoc,
) -> Result<Judgement, CoreFault>
    requires keeps { Keeps journal.now state.now }
    requires command { step.now ≡ Commanded (Update bundle doc.now) }
    ensures judged { Judges journal.now.limit state.now (Update bundle doc.now) result }
{
    check_update(&state.world, bundle, doc)?;
    let documents = documents_replaced(alloc, state.world.documents.as_slice(), bundle, doc)?;
    let described = described_after(alloc, &state.world, bundle, doc, documents.as_slice())?;
    if !has_room_for_command(journal, state) {
        return Err(CoreFault::JournalFull);
    }
    let draft = documents_draft(alloc, state, step, documents, described)?;
    Ok(Judgement::Changes {
        reply: Reply::Done,
        draft,
    })
}

// Whether an update is refused for the state of its bundle or for a name.
fn check_update(world: &World, bundle: u64, doc: &BundleDoc) -> Result<(), CoreFault>
    ensures { IsRefusedBy (update_refusal world.now bundle doc.now) result }
{
    check_idle(world, bundle)?;
    match namesake(&world.bundles, doc, bundle) {
        Some(other) => Err(CoreFault::SameName { bundle: other }),
        None => Ok(()),
    }
}

// The descriptions after an update, or the cycle for which it is refused.
fn described_after(
    alloc: Global,
    world: &World,
    bundle: u64,
    doc: &BundleDoc,
    documents: &[Contents],
) -> Result<Described, CoreFault>
    requires free { update_refusal world.now bundle doc.now ≡ None }
    requires documents { documents.now ≡ map (replaced bundle doc.now) world.now.documents }
    ensures { IsAllowed world.now (Update bundle doc.now) result }
{
    let descriptions = descriptions_in(alloc, documents)?;
    with_levels(alloc, descriptions)
}
