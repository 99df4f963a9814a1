//! The text of properties as a report has them (OSGi Core 8, section 5.2.5 "Service Properties").
ghost use Rattle.scr_report.specs.ReportData.{property_members};
ghost use Rattle.serde_json.specs.Data.{object};
ghost use Rattle.serde_json.specs.Written.{compact_text};
ghost use Rattle.std.specs.Prelude.{◌≡◌, IfOk, string_bytes};

use crate::property_values::properties_value;
use prop_map::{OutOfMemory, Properties};
use std::alloc::Global;

/// The text of properties as JSON without blanks, each under its spelling, in byte order of these.
///
/// # Errors
/// Only want of memory.
pub fn properties_text(alloc: Global, properties: &Properties) -> Result<String, OutOfMemory>
    ensures { IfOk result (λ text. string_bytes text ≡ compact_text (object (property_members properties.now))) }
{
    let value = properties_value(alloc, properties)?;
    let text = value.to_string(alloc)?;
    Ok(text)
}
