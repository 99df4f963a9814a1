//! The draft of a command that changes what the bundles hold.
ghost use Rattle.scr_installing.specs.Described.{AreDescribed};
ghost use Rattle.scr_installing.specs.Drafting.{changes_documents, tables_with};
ghost use Rattle.scr_judgements.specs.Lasting.{AsksAsBefore};
ghost use Rattle.scr_state.specs.Keeps.{IsDraft, IsKept};
ghost use Rattle.scr_world.specs.Tables.{descriptions_of, documents_by};
ghost use Rattle.std.specs.Prelude.{◌≡◌, ◌+◌, IfOk, true};

use crate::described::Described;
use prop_map::{List, OutOfMemory};
use scr_judgements::{TablesAfter, draft_as_before};
use scr_state::{Draft, State};
use scr_world::{Contents, Step};
use std::alloc::Global;

/// The draft of an install, update or uninstall, of what the bundles hold after it and of the descriptions in that. Its
/// bundle isn't ACTIVE, so nothing is asked for anew.
///
/// # Errors
/// Only want of memory.
pub(crate) fn documents_draft(
    alloc: Global,
    state: &State,
    step: &Step,
    documents: List<Contents>,
    described: Described,
) -> Result<Draft, OutOfMemory>
    requires kept { IsKept state.now }
    requires command { changes_documents step.now ≡ true }
    requires documents { documents ≡ documents_by step.now (state.now.world.bundles.numbered + 1) state.now.world.documents }
    requires described { AreDescribed (descriptions_of documents) described }
    requires asks { AsksAsBefore step.now state.now.world }
    ensures { IfOk result (λ draft. IsDraft state.now step.now draft) }
{
    let tables = tables_with(documents, described);
    draft_as_before(alloc, state, step, tables)
}

fn tables_with(documents: List<Contents>, described: Described) -> TablesAfter
    ensures { result ≡ tables_with documents described }
{
    let mut tables = TablesAfter::none();
    tables.documents = Some(documents);
    tables.descriptions = Some(described.descriptions);
    tables.levels = Some(described.levels);
    tables
}
