//! Lists of living instances.
ghost use Rattle.component_state.specs.ComponentStates.{as_active, has_active};
ghost use Rattle.component_state.specs.declared.living_instance.LivingInstance.{LivingInstance};
ghost use Rattle.component_state.specs.declared.origin.Origin.{Origin};
ghost use Rattle.std.specs.List.{list_any};
ghost use Rattle.std.specs.Prelude.{◌≡◌, ◌==◌, IfOk, filter, map, not};

use crate::{LivingInstance, Origin};
use prop_map::{Copies, OutOfMemory};
use std::alloc::Global;

// Whether a component configuration has an active instance.
pub(crate) fn has_active(instances: &[LivingInstance], configuration: u64) -> bool
    ensures { result ≡ has_active instances.now configuration }
{
    instances.iter().any(|instance| instance.origin.configuration == configuration
        && instance.active)
}

// The instance of a number becomes active, or ceases to be so.
pub(crate) fn set_active(instances: &mut Vec<LivingInstance>, number: u64, active: bool)
    ensures { instances.new.items ≡ map (as_active number active) instances.old.items }
{
    set_each(instances.as_mut_slice(), number, active);
}

#[tactic(auto, using(crate::proofs::ChangeLemmas::changed_next))]
fn set_each(instances: &mut [LivingInstance], number: u64, active: bool)
    ensures { instances.new ≡ map (as_active number active) instances.old }
{
    for at in 0..instances.len() {
        set_one(&mut instances[at], number, active);
    }
}

fn set_one(instance: &mut LivingInstance, number: u64, active: bool)
    ensures { instance.new ≡ as_active number active instance.old }
{
    if instance.number == number {
        instance.active = active;
    }
}

// The instance of a number goes.
pub(crate) fn without(instances: &mut Vec<LivingInstance>, number: u64)
    ensures { instances.new.items ≡ filter (λ (i : LivingInstance). not (i.number == number)) instances.old.items }
{
    instances.retain(|instance| instance.number != number);
}

// Where they come from.
pub(crate) fn origins_of(
    alloc: Global,
    instances: &[LivingInstance],
) -> Result<Vec<&Origin>, OutOfMemory>
    ensures { IfOk result (λ v. map (λ o. o.now) v.items ≡ map (λ (i : LivingInstance). i.origin) instances.now) }
{
    let mut found = Vec::new(alloc);
    for instance in instances {
        found.push(&instance.origin)?;
    }
    Ok(found)
}

// Whether a component configuration has a living instance.
pub(crate) fn has_instance(instances: &[LivingInstance], configuration: u64) -> bool
    ensures { result ≡ list_any (λ (o : Origin). o.configuration == configuration) (map (λ (i : LivingInstance). i.origin) instances.now) }
{
    is_any_of(instances, configuration)
}

fn is_any_of(instances: &[LivingInstance], configuration: u64) -> bool
    ensures { result ≡ list_any (λ (i : LivingInstance). i.origin.configuration == configuration) instances.now }
{
    instances
        .iter()
        .any(|instance| instance.origin.configuration == configuration)
}

pub(crate) fn copied(
    alloc: Global,
    instances: &[LivingInstance],
) -> Result<Vec<LivingInstance>, OutOfMemory>
    ensures { IfOk result (λ v. v.items ≡ instances.now) }
{
    let mut copies = Vec::new(alloc);
    for instance in instances {
        copies.push(instance.copy(alloc)?)?;
    }
    Ok(copies)
}
