//! The details of a component configuration of a core.
ghost use Rattle.scr_report.specs.DetailData.{details_in};
ghost use Rattle.scr_report.specs.Details.{RefusesDetails};
ghost use Rattle.scr_world.specs.Calls.{world_at};
ghost use Rattle.serde_json.specs.Written.{compact_text};
ghost use Rattle.std.specs.Prelude.{◌≡◌, IfErr, IfOk, Some, option_map, string_bytes};

use crate::ReportFault;
use crate::details::details_text_of;
use scr_core::Core;
use std::alloc::Global;

/// The text of the details of the component configuration of a number, without blanks: its report, and beside it what its
/// description says and what is in effect for its references.
///
/// # Errors
/// `NoComponent` with the number exactly where there is no such component configuration, or it has ceased. Otherwise only want of
/// memory.
pub fn details_text(alloc: Global, core: &Core, id: u64) -> Result<String, ReportFault>
    ensures told { IfOk result (λ text. option_map compact_text (details_in (world_at core.now.journal) id) ≡ Some (string_bytes text)) }
    ensures refused { IfErr result (λ fault. RefusesDetails (world_at core.now.journal) id fault) }
{
    match core.details(alloc, id)? {
        Some(details) => Ok(details_text_of(alloc, id, &details)?),
        None => Err(ReportFault::NoComponent { id }),
    }
}
