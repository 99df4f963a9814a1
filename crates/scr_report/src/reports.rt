//! What is told of a component configuration, as JSON (OSGi Compendium 8, chapter 112, "ComponentConfigurationDTO").
ghost use Rattle.scr_report.specs.KeyOrder.{HasKeysInOrder};
ghost use Rattle.scr_report.specs.ReportData.{report_data};
ghost use Rattle.serde_json.specs.View.{view};
ghost use Rattle.serde_json.specs.Written.{compact_text};
ghost use Rattle.std.specs.Prelude.{◌≡◌, IfOk, string_bytes};

use crate::lists::number_or_null;
use crate::property_values::properties_value;
use crate::reference_values::{satisfied_ones, unsatisfied_ones};
use prop_map::OutOfMemory;
use scr_readers::ComponentView;
use serde_json::{Value, json};
use std::alloc::Global;

/// The report of the component configuration of a number, by what is told of it. The keys of its objects stand in byte order
/// of their spelling, those of its properties too.
///
/// # Errors
/// Only want of memory.
pub fn report_of(alloc: Global, id: u64, component: &ComponentView) -> Result<Value, OutOfMemory>
    ensures told { IfOk result (λ value. view value ≡ report_data id component.now) }
    ensures order { IfOk result (λ value. HasKeysInOrder (view value)) }
{
    let value = members_of(alloc, id, component)?;
    Ok(value)
}

/// The text of that report, without blanks.
///
/// # Errors
/// Only want of memory.
pub fn report_text_of(
    alloc: Global,
    id: u64,
    component: &ComponentView,
) -> Result<String, OutOfMemory>
    ensures { IfOk result (λ text. string_bytes text ≡ compact_text (report_data id component.now)) }
{
    let value = members_of(alloc, id, component)?;
    let text = value.to_string(alloc)?;
    Ok(text)
}

fn members_of(alloc: Global, id: u64, component: &ComponentView) -> Result<Value, OutOfMemory>
    ensures { IfOk result (λ value. view value ≡ report_data id component.now) }
{
    let properties = properties_value(alloc, &component.properties)?;
    let satisfied = satisfied_ones(alloc, component.references.as_slice())?;
    let unsatisfied = unsatisfied_ones(alloc, component.references.as_slice())?;
    json!(in alloc; {
        "bundle": component.bundle,
        "failure": number_or_null(component.failure),
        "id": id,
        "name": component.name.as_str(),
        "properties": properties,
        "satisfiedReferences": satisfied,
        "state": component.state,
        "unsatisfiedReferences": unsatisfied
    })
}
