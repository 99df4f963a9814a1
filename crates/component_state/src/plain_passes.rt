//! The plain pass: the pass over the rows of a platform, with its component configurations asked for anew (OSGi
//! Compendium 8, chapter 112, "Satisfied").
ghost use Rattle.component_state.specs.ComponentStates.{IsPlainPass, MayPass, components_in, failed_in, numbered_in, origins_of, remains, stage_in};
ghost use Rattle.component_state.specs.Marks.{failed_after};
ghost use Rattle.component_state.specs.Passes.{HasPassed};
ghost use Rattle.component_state.specs.Periods.{is_open};
ghost use Rattle.component_state.specs.declared.origin.Origin.{Origin};
ghost use Rattle.component_state.specs.declared.rows.BundleRow.{BundleRow};
ghost use Rattle.service_registry.specs.declared.row.ServiceRow.{ServiceRow};
ghost use Rattle.std.specs.List.{list_any};
ghost use Rattle.std.specs.Prelude.{◌≡◌, ◌≤◌, ◌+◌, ◌-◌, ◌==◌, ◌||◌, IfOk, OnErr, filter, flat_map, length, map};

use crate::component_configurations::{bundle_views, components_for_bundles};
use crate::component_rows::components_after;
use crate::instance_lives::{has_instance, origins_of};
use crate::marks::failed_after;
use crate::open_marks::{marked, no_marks};
use crate::pass::pass_over;
use crate::periods::is_open;
use crate::present_properties::with_present_properties;
use crate::{BundleRow, Component, ComponentStates, Passed, Stage, WorldRows};
use component_dto::Description;
use journal_core::Opened;
use prop_map::{Copies, List, OutOfMemory};
use service_registry::ServiceRow;
use std::alloc::{AllocError, Global};

/// What a plain pass closed and opened.
#[derive(Debug, PartialEq, Eq, Drop)]
pub struct PassEnd {
    /// The component configurations that closed, by level, then by number.
    pub closed: List<u64>,
    /// Those that opened, by level, then by number, each with its service.
    pub opened: List<Opened>,
}

/// The pass over the rows of a platform. The component configurations are asked for anew, then the pass goes up the
/// levels, closes what was open and has a reason to close, and opens what is satisfied, isn't held back and wasn't
/// open.
///
/// # Errors
/// Only want of memory, and nothing has changed. That no number is left counts as such.
pub fn plain_pass(
    alloc: Global,
    state: &mut ComponentStates,
    world: &WorldRows,
) -> Result<PassEnd, OutOfMemory>
    requires { MayPass state.old world.now }
    ensures ok { IfOk result (λ end. IsPlainPass state.old world.now end state.new) }
    ensures err { OnErr result (state.new ≡ state.old) }
{
    let asked = asked_in(alloc, state, world)?;
    let marks = marks_in(alloc, state, asked.components.as_slice())?;
    let passed = pass_in(alloc, state, world, asked.components.as_slice(), &marks)?;
    let passes = next_pass(state.passes)?;
    let none = no_marks(alloc, passed.open_now.as_slice().len())?;
    let Passed {
        closed,
        opened,
        open_now,
        satisfied,
        next_service: _,
    } = passed;
    state.passes = passes;
    state.numbered = asked.numbered;
    state.components = asked.components;
    state.open_periods = open_now;
    state.marks = none;
    state.satisfied = satisfied;
    state.failed = marks.failed;
    Ok(PassEnd { closed, opened })
}

// The component configurations of a pass, and how many were numbered then.
#[derive(Drop)]
struct Asked {
    components: List<Component>,
    numbered: u64,
}

// Those that are failed after an entry, and those whose creation or activation ended in it without success.
#[derive(Drop)]
struct Marks {
    failed: Vec<u64>,
    failing: Vec<u64>,
}

#[tactic(auto, using(crate::proofs::ReadyStates::numbered_long))]
fn asked_in(alloc: Global, state: &ComponentStates, world: &WorldRows) -> Result<Asked, OutOfMemory>
    ensures components { IfOk result (λ asked. asked.components ≡ components_in state.now world.now) }
    ensures numbered { IfOk result (λ asked. asked.numbered ≡ numbered_in state.now world.now) }
{
    let bundles = bundle_views(alloc, world.bundles.as_slice())?;
    let these = components_for_bundles(alloc, bundles.as_slice(), world.configurations.as_slice())?;
    let before = remaining(alloc, state, state.components.as_slice())?;
    let components = components_after(
        alloc,
        state.passes,
        state.numbered,
        these.as_slice(),
        before.as_slice(),
    )?;
    let numbered = numbered_after(state.numbered, components.as_slice(), before.as_slice())?;
    Ok(Asked {
        components,
        numbered,
    })
}

// The number of the next pass. Where none is left, that counts as want of memory.
fn next_pass(passes: u64) -> Result<u64, OutOfMemory>
    ensures { IfOk result (λ next. next ≡ passes + 1) }
{
    passes.checked_add(1).ok_or(AllocError)
}

// How many were numbered after these came behind those that there were.
fn numbered_after(
    numbered: u64,
    components: &[Component],
    before: &[&Component],
) -> Result<u64, OutOfMemory>
    requires { length before.now ≤ length components.now }
    ensures { IfOk result (λ n. n ≡ numbered + (length components.now - length before.now)) }
{
    let came = components.len() - before.len();
    numbered.checked_add(came as u64).ok_or(AllocError)
}

// Those of these that haven't ceased, are open or have a living instance.
fn remaining<'c>(
    alloc: Global,
    state: &ComponentStates,
    components: &'c [Component],
) -> Result<Vec<&'c Component>, OutOfMemory>
    ensures { IfOk result (λ v. map (λ c. c.now) v.items ≡ filter (remains state.now) components.entry.now) }
{
    components
        .iter()
        .filter(|component| remains(state, component))
        .collect(alloc)
}

fn remains(state: &ComponentStates, component: &Component) -> bool
    ensures { result ≡ remains state.now component.now }
{
    component.exists || is_used(state, component.number)
}

// Whether a component configuration is open or has a living instance.
fn is_used(state: &ComponentStates, number: u64) -> bool
    ensures { result ≡ (is_open state.now.open_periods number || list_any (λ (o : Origin). o.configuration == number) (origins_of state.now)) }
{
    is_open(state.open_periods.as_slice(), number)
        || has_instance(state.instances.as_slice(), number)
}

fn marks_in(
    alloc: Global,
    state: &ComponentStates,
    components: &[Component],
) -> Result<Marks, OutOfMemory>
    ensures failing { IfOk result (λ marks. marks.failing.items ≡ state.now.failing) }
    ensures failed { IfOk result (λ marks. marks.failed.items ≡ failed_after state.now.passes state.now.satisfied components.now state.now.failing state.now.failed) }
{
    let failing = marked(alloc, state.open_periods.as_slice(), state.marks.as_slice())?;
    let failed = failed_after(
        alloc,
        state.passes,
        state.satisfied.as_slice(),
        components,
        failing.as_slice(),
        state.failed.as_slice(),
    )?;
    Ok(Marks { failed, failing })
}

fn pass_in(
    alloc: Global,
    state: &ComponentStates,
    world: &WorldRows,
    components: &[Component],
    marks: &Marks,
) -> Result<Passed, OutOfMemory>
    requires may { MayPass state.now world.now }
    requires components { components.now ≡ components_in state.now world.now }
    requires failing { marks.now.failing.items ≡ state.now.failing }
    requires failed { marks.now.failed.items ≡ failed_in state.now world.now }
    ensures { IfOk result (λ p. HasPassed (stage_in state.now world.now) p) }
{
    let descriptions = descriptions_in(alloc, world.bundles.as_slice())?;
    let direct = direct_ones(alloc, world.services.as_slice())?;
    let open_before = with_present_properties(alloc, components, state.open_periods.as_slice())?;
    let origins = origins_of(alloc, state.instances.as_slice())?;
    let stage = Stage {
        place: state.passes,
        next: world.next_service,
        descriptions: descriptions.as_slice(),
        levels: world.levels.as_slice(),
        direct: direct.as_slice(),
        components,
        open_before: open_before.as_slice(),
        origins: origins.as_slice(),
        failed: marks.failed.as_slice(),
        failing: marks.failing.as_slice(),
    };
    pass_over(alloc, &stage)
}

// The descriptions of all bundles.
fn descriptions_in(alloc: Global, bundles: &[BundleRow]) -> Result<Vec<Description>, OutOfMemory>
    ensures { IfOk result (λ v. v.items ≡ flat_map (λ (b : BundleRow). b.descriptions) bundles.now) }
{
    let mut found = Vec::new(alloc);
    for bundle in bundles {
        let mut more = bundle.descriptions.copy(alloc)?.items();
        found.append(&mut more)?;
    }
    Ok(found)
}

// The direct ones of these services.
fn direct_ones(alloc: Global, services: &[ServiceRow]) -> Result<Vec<ServiceRow>, OutOfMemory>
    ensures { IfOk result (λ v. v.items ≡ filter (λ (r : ServiceRow). r.direct) services.now) }
{
    let mut found = Vec::new(alloc);
    for service in services {
        if service.direct {
            found.push(service.copy(alloc)?)?;
        }
    }
    Ok(found)
}
