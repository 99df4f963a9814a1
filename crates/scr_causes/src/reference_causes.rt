//! References below their minimum (OSGi Compendium 8, chapter 112, "Minimum Cardinality Property").
ghost use Rattle.reference_match.specs.Needs.{condition_name, implicit_need};
ghost use Rattle.reference_match.specs.Targets.{meets};
ghost use Rattle.scr_causes.specs.DirectCauses.{causes_by, causes_of, reference_cause, reference_causes};
ghost use Rattle.std.specs.Prelude.{◌≡◌, ◌++◌, [], IfOk, OnOk, filter, flat_map, length, if◌then◌else◌};

use crate::CauseTables;
use crate::targets_in_effect::target_in_effect;
use component_causes::{Cause, ReferenceCause};
use component_dto::Reference;
use component_state::Component;
use prop_map::{Copies, OutOfMemory, Properties, Str};
use reference_match::{Need, implicit_need, need_of};
use std::alloc::Global;

/// Adds the references of a component configuration that have fewer targets than their minimum, in the order of its
/// description, the implicit one last where it is there.
///
/// # Errors
/// Only want of memory.
pub(crate) fn add_reference_causes(
    alloc: Global,
    tables: &CauseTables<'_>,
    component: &Component,
    causes: &mut Vec<Cause>,
) -> Result<(), OutOfMemory>
    ensures { OnOk result (causes.new.items ≡ causes.old.items ++ reference_causes tables.now.registered tables.now.possible component.now) }
{
    let description = component.description.get();
    let references = description.references.as_slice();
    add_described(alloc, tables, &component.properties, references, causes)?;
    add_implicit(
        alloc,
        tables,
        &component.properties,
        description.implicit,
        causes,
    )
}

fn add_described(
    alloc: Global,
    tables: &CauseTables<'_>,
    properties: &Properties,
    references: &[Reference],
    causes: &mut Vec<Cause>,
) -> Result<(), OutOfMemory>
    ensures { OnOk result (causes.new.items ≡ causes.old.items
        ++ flat_map (causes_of tables.now.registered tables.now.possible properties.now) references.now) }
{
    for reference in references {
        add_one(alloc, tables, properties, reference, causes)?;
    }
    Ok(())
}

fn add_one(
    alloc: Global,
    tables: &CauseTables<'_>,
    properties: &Properties,
    reference: &Reference,
    causes: &mut Vec<Cause>,
) -> Result<(), OutOfMemory>
    ensures { OnOk result (causes.new.items ≡ causes.old.items ++ causes_of tables.now.registered tables.now.possible properties.now reference.now) }
{
    let need = need_of(alloc, properties, reference)?;
    add_by(
        alloc,
        tables,
        properties,
        reference.name.as_str(),
        &need,
        causes,
    )
}

// The implicit one on the satisfying condition, where it is there.
fn add_implicit(
    alloc: Global,
    tables: &CauseTables<'_>,
    properties: &Properties,
    implicit: bool,
    causes: &mut Vec<Cause>,
) -> Result<(), OutOfMemory>
    ensures { OnOk result (causes.new.items ≡ causes.old.items
        ++ (if implicit then causes_by tables.now.registered tables.now.possible properties.now condition_name (implicit_need properties.now) else [])) }
{
    if implicit {
        add_condition(alloc, tables, properties, causes)
    } else {
        Ok(())
    }
}

fn add_condition(
    alloc: Global,
    tables: &CauseTables<'_>,
    properties: &Properties,
    causes: &mut Vec<Cause>,
) -> Result<(), OutOfMemory>
    ensures { OnOk result (causes.new.items ≡ causes.old.items
        ++ causes_by tables.now.registered tables.now.possible properties.now condition_name (implicit_need properties.now)) }
{
    let need = implicit_need(alloc, properties)?;
    let name = "osgi.ds.satisfying.condition";
    add_by(alloc, tables, properties, name, &need, causes)
}

fn add_by(
    alloc: Global,
    tables: &CauseTables<'_>,
    properties: &Properties,
    name: &str,
    need: &Need,
    causes: &mut Vec<Cause>,
) -> Result<(), OutOfMemory>
    ensures { OnOk result (causes.new.items ≡ causes.old.items ++ causes_by tables.now.registered tables.now.possible properties.now name.now need.now) }
{
    let targets = tables.registered.count_meeting(need);
    if need.minimum <= targets {
        return Ok(());
    }
    let cause = reference_cause(alloc, tables, properties, name, need, targets)?;
    causes.push(Cause::Reference(cause))?;
    Ok(())
}

fn reference_cause(
    alloc: Global,
    tables: &CauseTables<'_>,
    properties: &Properties,
    name: &str,
    need: &Need,
    targets: u64,
) -> Result<ReferenceCause, OutOfMemory>
    requires { targets ≡ length (filter (meets need.now) tables.now.registered) }
    ensures { IfOk result (λ cause. cause ≡ reference_cause tables.now.registered tables.now.possible properties.now name.now need.now) }
{
    let target = target_in_effect(alloc, properties, name)?;
    Ok(ReferenceCause {
        name: Str::of(String::from_str(alloc, name)?),
        interface_name: need.interface.copy(alloc)?,
        cardinality: need.cardinality,
        targets,
        registered: tables.registered.count_with(need.interface.as_str()),
        minimum: need.minimum,
        could: tables.possible.count_meeting(need),
        target,
    })
}
