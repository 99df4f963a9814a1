//! References as JSON (OSGi Compendium 8, chapter 112, "SatisfiedReferenceDTO", "UnsatisfiedReferenceDTO").
ghost use Rattle.scr_report.specs.ReportData.{satisfied_ones, satisfied_reference, unsatisfied_ones, unsatisfied_reference};
ghost use Rattle.serde_json.specs.View.{view};
ghost use Rattle.std.specs.Prelude.{◌≡◌, IfOk};

use crate::lists::{list_of, numbers, text_or_null};
use prop_map::OutOfMemory;
use scr_readers::ReferenceState;
use serde_json::{Value, json};
use std::alloc::Global;

/// Those with their minimum of targets, in order, each with what is bound to it.
pub(crate) fn satisfied_ones(
    alloc: Global,
    references: &[ReferenceState],
) -> Result<Value, OutOfMemory>
    ensures { IfOk result (λ value. view value ≡ satisfied_ones references.now) }
{
    let mut items = Vec::new(alloc);
    for reference in references {
        if reference.satisfied {
            items.push(satisfied_reference(alloc, reference)?)?;
        }
    }
    Ok(list_of(items))
}

/// The others, in order, each with its targets.
pub(crate) fn unsatisfied_ones(
    alloc: Global,
    references: &[ReferenceState],
) -> Result<Value, OutOfMemory>
    ensures { IfOk result (λ value. view value ≡ unsatisfied_ones references.now) }
{
    let mut items = Vec::new(alloc);
    for reference in references {
        if !reference.satisfied {
            items.push(unsatisfied_reference(alloc, reference)?)?;
        }
    }
    Ok(list_of(items))
}

fn satisfied_reference(alloc: Global, reference: &ReferenceState) -> Result<Value, OutOfMemory>
    ensures { IfOk result (λ value. view value ≡ satisfied_reference reference.now) }
{
    let bound = numbers(alloc, reference.bound.as_slice())?;
    let target = text_or_null(alloc, reference.target.as_ref())?;
    json!(in alloc; {
        "boundServices": bound,
        "name": reference.name.as_str(),
        "target": target
    })
}

fn unsatisfied_reference(alloc: Global, reference: &ReferenceState) -> Result<Value, OutOfMemory>
    ensures { IfOk result (λ value. view value ≡ unsatisfied_reference reference.now) }
{
    let target = text_or_null(alloc, reference.target.as_ref())?;
    let targets = numbers(alloc, reference.targets.as_slice())?;
    json!(in alloc; {
        "name": reference.name.as_str(),
        "target": target,
        "targetServices": targets
    })
}
