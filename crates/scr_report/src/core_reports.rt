//! The report of a component configuration of a core.
ghost use Rattle.scr_report.specs.KeyOrder.{HasKeysInOrder};
ghost use Rattle.scr_report.specs.Reports.{RefusesReport, report_in};
ghost use Rattle.scr_world.specs.Calls.{world_at};
ghost use Rattle.serde_json.specs.View.{view};
ghost use Rattle.serde_json.specs.Written.{compact_text};
ghost use Rattle.std.specs.Prelude.{◌≡◌, IfErr, IfOk, Some, option_map, string_bytes};

use crate::ReportFault;
use crate::reports::{report_of, report_text_of};
use scr_core::Core;
use serde_json::Value;
use std::alloc::Global;

/// The report of the component configuration of a number. The keys of its objects stand in byte order of their spelling, those of
/// its properties too.
///
/// # Errors
/// `NoComponent` with the number exactly where there is no such component configuration, or it has ceased. Otherwise only want of
/// memory.
pub fn report(alloc: Global, core: &Core, id: u64) -> Result<Value, ReportFault>
    ensures told { IfOk result (λ value. report_in (world_at core.now.journal) id ≡ Some (view value)) }
    ensures order { IfOk result (λ value. HasKeysInOrder (view value)) }
    ensures refused { IfErr result (λ fault. RefusesReport (world_at core.now.journal) id fault) }
{
    match core.component(alloc, id)? {
        Some(component) => Ok(report_of(alloc, id, &component)?),
        None => Err(ReportFault::NoComponent { id }),
    }
}

/// The text of that report, without blanks.
///
/// # Errors
/// `NoComponent` with the number exactly where there is no such component configuration, or it has ceased. Otherwise only want of
/// memory.
pub fn report_text(alloc: Global, core: &Core, id: u64) -> Result<String, ReportFault>
    ensures told { IfOk result (λ text. option_map compact_text (report_in (world_at core.now.journal) id) ≡ Some (string_bytes text)) }
    ensures refused { IfErr result (λ fault. RefusesReport (world_at core.now.journal) id fault) }
{
    match core.component(alloc, id)? {
        Some(component) => Ok(report_text_of(alloc, id, &component)?),
        None => Err(ReportFault::NoComponent { id }),
    }
}
