//! What references need, by the properties of their component configuration (OSGi Compendium 8, chapter 112).
ghost use Rattle.reference_match.specs.Needs.{condition_interface, condition_name, implicit_need, need_of, needs_with};
ghost use Rattle.std.specs.Prelude.{◌≡◌, ◌++◌, IfOk, OnOk, map};

use crate::Need;
use crate::minimum_property::minimum_of;
use crate::target::target_of;
use component_dto::Reference;
use prop_map::{Cardinality, Copies, List, OutOfMemory, Policy, PolicyOption, Properties, Str};
use std::alloc::Global;

/// What a reference needs: its target and its minimum come from the properties of its component configuration.
///
/// # Errors
/// Only want of memory.
pub fn need_of(
    alloc: Global,
    properties: &Properties,
    reference: &Reference,
) -> Result<Need, OutOfMemory>
    ensures { IfOk result (λ need. need ≡ need_of properties.now reference.now) }
{
    let name = reference.name.as_str();
    let minimum = minimum_of(alloc, properties, name, reference.cardinality)?;
    let interface = reference.interface_name.copy(alloc)?;
    let target = target_of(alloc, properties, name)?;
    Ok(Need {
        interface,
        filter: target.filter,
        none: target.none,
        cardinality: reference.cardinality,
        policy: reference.policy,
        option: reference.policy_option,
        minimum,
        direct_only: false,
    })
}

/// What the implicit reference on the satisfying condition needs (OSGi Compendium 8, chapter 112, satisfying condition).
/// That just a service without a component behind it meets it is this platform's own.
///
/// # Errors
/// Only want of memory.
pub fn implicit_need(alloc: Global, properties: &Properties) -> Result<Need, OutOfMemory>
    ensures { IfOk result (λ need. need ≡ implicit_need properties.now) }
{
    let name = "osgi.ds.satisfying.condition";
    let minimum = minimum_of(alloc, properties, name, Cardinality::One)?;
    let interface = String::from_str(alloc, "org.osgi.service.condition.Condition")?;
    let target = target_of(alloc, properties, name)?;
    Ok(Need {
        interface: Str::of(interface),
        filter: target.filter,
        none: target.none,
        cardinality: Cardinality::One,
        policy: Policy::Dynamic,
        option: PolicyOption::Reluctant,
        minimum,
        direct_only: true,
    })
}

/// What these references need, in their order, and the implicit one last where it is there.
///
/// # Errors
/// Only want of memory.
pub fn needs_with(
    alloc: Global,
    implicit: bool,
    references: &[Reference],
    properties: &Properties,
) -> Result<List<Need>, OutOfMemory>
    ensures { IfOk result (λ needs. needs ≡ needs_with implicit references.now properties.now) }
{
    let mut needs = needs_of_references(alloc, references, properties)?;
    if implicit {
        needs.push(implicit_need(alloc, properties)?)?;
    }
    Ok(List::of(needs))
}

fn needs_of_references(
    alloc: Global,
    references: &[Reference],
    properties: &Properties,
) -> Result<Vec<Need>, OutOfMemory>
    ensures { IfOk result (λ needs. needs.items ≡ map (need_of properties.now) references.now) }
{
    let mut needs = Vec::new(alloc);
    for reference in references {
        needs.push(need_of(alloc, properties, reference)?)?;
    }
    Ok(needs)
}
