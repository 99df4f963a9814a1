//! The install of a bundle (OSGi Core 8, chapter 4, "Installing Bundles").
ghost use Rattle.bundle_life.specs.Lives.{bundle_at};
ghost use Rattle.bundle_life.specs.declared.bundle.BundleLife.{BundleLife};
ghost use Rattle.scr_installing.specs.Allowed.{IsAllowed, descriptions_after};
ghost use Rattle.scr_installing.specs.Described.{AreDescribed};
ghost use Rattle.scr_judgements.specs.Judgements.{Judges};
ghost use Rattle.scr_state.specs.Keeps.{IsDraft, IsKept, Keeps};
ghost use Rattle.scr_world.specs.Tables.{descriptions_of};
ghost use Rattle.scr_world.specs.declared.command.Command.TheVariants.{Install};
ghost use Rattle.scr_world.specs.declared.step.Step.TheVariants.{Command as Commanded};
ghost use Rattle.std.specs.Prelude.{◌≡◌, ◌+◌, IfOk, length, nat_le, option_map};

use crate::described::{Described, joined_copies, with_levels};
use crate::documents::documents_with;
use crate::drafting::documents_draft;
use crate::names::namesake;
use bundle_doc::BundleDoc;
use bundle_life::Bundles;
use journal_core::Journal;
use prop_map::OutOfMemory;
use scr_judgements::{Judgement, has_room_for_command, next_bundle};
use scr_state::{Draft, State};
use scr_world::{CoreFault, Reply, Step};
use std::alloc::Global;

/// What is said of the install of a bundle from a document. A location that is known is answered with its bundle, and changes
/// nothing.
///
/// # Errors
/// `SameName` where a bundle has the document's symbolic name and version, then `Cycle` where some description would have no
/// level, then `BundlesFull` where 128 bundles are installed, then `JournalFull` where there is no room for the entry.
pub fn judge_install(
    alloc: Global,
    journal: &Journal<Step>,
    state: &State,
    step: &Step,
    doc: &BundleDoc,
) -> Result<Judgement, CoreFault>
    requires keeps { Keeps journal.now state.now }
    requires command { step.now ≡ Commanded (Install doc.now) }
    ensures judged { Judges journal.now.limit state.now (Install doc.now) result }
{
    match number_at(&state.world.bundles, doc) {
        Some(number) => Ok(Judgement::Unchanged(Reply::Bundle(number))),
        None => judge_new(alloc, journal, state, step, doc),
    }
}

// The bundle of a document's location.
fn number_at(bundles: &Bundles, doc: &BundleDoc) -> Option<u64>
    ensures { result ≡ option_map (λ (b : BundleLife). b.number) (bundle_at bundles.now.rows doc.now.location) }
{
    bundles
        .at_location(doc.location.as_str())
        .map(|bundle| bundle.number)
}

// What is said of an install from a location that isn't known.
fn judge_new(
    alloc: Global,
    journal: &Journal<Step>,
    state: &State,
    step: &Step,
    doc: &BundleDoc,
) -> Result<Judgement, CoreFault>
    requires keeps { Keeps journal.now state.now }
    requires command { step.now ≡ Commanded (Install doc.now) }
    requires unknown { bundle_at state.now.world.bundles.rows doc.now.location ≡ None }
    ensures judged { Judges journal.now.limit state.now (Install doc.now) result }
{
    let described = described_after(alloc, state, doc)?;
    if !has_room_for_command(journal, state) {
        return Err(CoreFault::JournalFull);
    }
    let number = next_bundle(journal, state);
    let draft = install_draft(alloc, state, step, doc, number, described)?;
    Ok(Judgement::Changes {
        reply: Reply::Bundle(number),
        draft,
    })
}

// The descriptions after an install from a location that isn't known, or why it is refused.
fn described_after(alloc: Global, state: &State, doc: &BundleDoc) -> Result<Described, CoreFault>
    requires descriptions { state.now.descriptions ≡ descriptions_of state.now.world.documents }
    requires unknown { bundle_at state.now.world.bundles.rows doc.now.location ≡ None }
    ensures { IsAllowed state.now.world (Install doc.now) result }
{
    if let Some(bundle) = namesake(&state.world.bundles, doc, 0) {
        return Err(CoreFault::SameName { bundle });
    }
    let all = joined_copies(
        alloc,
        state.descriptions.as_slice(),
        doc.descriptions.as_slice(),
    )?;
    let described = with_levels(alloc, all)?;
    if is_full(&state.world.bundles) {
        return Err(CoreFault::BundlesFull);
    }
    Ok(described)
}

fn is_full(bundles: &Bundles) -> bool
    ensures { result ≡ nat_le 128 (length bundles.now.rows) }
{
    bundles.rows().len() >= 128
}

// The draft of an install, of the descriptions after it.
fn install_draft(
    alloc: Global,
    state: &State,
    step: &Step,
    doc: &BundleDoc,
    number: u64,
    described: Described,
) -> Result<Draft, OutOfMemory>
    requires kept { IsKept state.now }
    requires command { step.now ≡ Commanded (Install doc.now) }
    requires number { number ≡ state.now.world.bundles.numbered + 1 }
    requires described { AreDescribed (descriptions_after state.now.world (Install doc.now)) described }
    ensures { IfOk result (λ draft. IsDraft state.now (Commanded (Install doc.now)) draft) }
{
    let documents = documents_with(alloc, state.world.documents.as_slice(), number, doc)?;
    documents_draft(alloc, state, step, documents, described)
}
