//! Component configurations, their open periods, and a pass.
ghost use Rattle.component_state.specs.ComponentStates.{descriptions_in};
ghost use Rattle.level_order.specs.Levels.{AreLevels};
ghost use Rattle.std.specs.Prelude.{◌≡◌, ◌∷◌, [], IfOk};

use crate::samples::{described, needs, one};
use component_dto::Description;
use component_state::{
    BundleRow, Choice, Component, ComponentStates, OpenPeriod, Origin, WorldRows, choice_at,
    component_of, exists, failed_after, is_current, is_open, needs_of, plain_pass,
};
use level_order::levels;
use prop_map::{Copies, List, OutOfMemory, Properties, Shared, Str};
use service_registry::{Interfaces, ServiceRow};
use std::alloc::{AllocError, Global};

// Service 7, which is an L.
fn service(alloc: Global) -> Result<ServiceRow, OutOfMemory> {
    let names = one(alloc, Str::spell(alloc, "L")?)?;
    Ok(ServiceRow {
        id: 7,
        bundle: 1,
        interfaces: Interfaces::of(alloc, names)?,
        properties: Properties::new(alloc),
        revision: 0,
        direct: false,
    })
}

// The open period of component configuration 2, which has that service.
fn period(alloc: Global) -> Result<OpenPeriod, OutOfMemory> {
    Ok(OpenPeriod {
        configuration: 2,
        opened: 4,
        row: service(alloc)?,
    })
}

// An instance of configuration 2, for which service 7 was chosen.
fn origin(alloc: Global) -> Result<Origin, OutOfMemory> {
    let choice = Choice {
        reference: 0,
        services: one(alloc, 7)?,
    };
    Ok(Origin {
        configuration: 2,
        created: 6,
        chosen: one(alloc, choice)?,
    })
}

fn is_of(open: &[OpenPeriod], origin: &Origin) -> bool {
    is_open(open, 2)
        && is_current(open, origin)
        && choice_at(origin.chosen.as_slice(), 0) == [7u64].as_slice()
}

fn instance_is_of(alloc: Global, open: &[OpenPeriod]) -> bool {
    match origin(alloc) {
        Ok(origin) => is_of(open, &origin),
        Err(_) => false,
    }
}

fn copy_has_instance(alloc: Global, period: &OpenPeriod) -> bool {
    match period.copy(alloc) {
        Ok(copy) => instance_is_of(alloc, &[copy]),
        Err(_) => false,
    }
}

fn period_has_instance(alloc: Global) -> bool {
    match period(alloc) {
        Ok(period) => copy_has_instance(alloc, &period),
        Err(_) => false,
    }
}

#[test]
fn an_instance_is_of_its_open_period(rt: HostRuntime) {
    assert!(rt; period_has_instance(rt.alloc()));
}

// A component that provides L and needs M.
fn needy(alloc: Global) -> Result<Description, OutOfMemory> {
    let references = one(alloc, needs(alloc, "M")?)?;
    described(alloc, "c", "L", references)
}

// The component configuration 1 of a description.
fn configured(alloc: Global, description: Description) -> Result<Component, OutOfMemory> {
    Ok(Component {
        number: 1,
        bundle: 1,
        index: 0,
        pid: None,
        exists: true,
        description: Shared::of(alloc, description)?,
        configured: false,
        properties: Properties::new(alloc),
        changed: None,
    })
}

fn has_one_need(alloc: Global, component: &Component) -> bool {
    match needs_of(alloc, component) {
        Ok(needs) => needs.as_slice().len() == 1,
        Err(_) => false,
    }
}

fn has_failed(alloc: Global, components: &[Component]) -> bool {
    match failed_after(alloc, 4, &[], components, &[1], &[]) {
        Ok(failed) => failed.as_slice() == [1u64].as_slice(),
        Err(_) => false,
    }
}

fn may_fail(alloc: Global, components: &[Component]) -> bool {
    let has_need = match component_of(components, 1) {
        Some(component) => has_one_need(alloc, component),
        None => false,
    };
    has_need && exists(components, 1) && has_failed(alloc, components)
}

fn configured_may_fail(alloc: Global, description: Description) -> bool {
    match configured(alloc, description) {
        Ok(component) => may_fail(alloc, &[component]),
        Err(_) => false,
    }
}

fn needy_may_fail(alloc: Global) -> bool {
    match needy(alloc) {
        Ok(description) => configured_may_fail(alloc, description),
        Err(_) => false,
    }
}

#[test]
fn what_exists_may_be_failed(rt: HostRuntime) {
    assert!(rt; needy_may_fail(rt.alloc()));
}

// What a platform has whose one bundle is ACTIVE and has this description, which has this level.
fn with_bundle(
    alloc: Global,
    description: Description,
    levels: List<u32>,
) -> Result<WorldRows, AllocError>
    requires { AreLevels (description ∷ []) levels }
    ensures next { IfOk result (λ world. world.next_service ≡ 1) }
    ensures levels { IfOk result (λ world. AreLevels (descriptions_in world) world.levels) }
{
    let mut descriptions = Vec::new(alloc);
    descriptions.push(description)?;
    let mut enabled = Vec::new(alloc);
    enabled.push(true)?;
    let mut bundles = Vec::new(alloc);
    bundles.push(BundleRow {
        id: 1,
        state: 32,
        descriptions: List::of(descriptions),
        enabled: List::of(enabled),
    })?;
    Ok(WorldRows {
        bundles: List::of(bundles),
        services: List::of(Vec::new(alloc)),
        configurations: List::of(Vec::new(alloc)),
        levels,
        next_service: 1,
    })
}

// Whether a platform with this description alone opens its component configuration 1, with service 1.
fn opens(alloc: Global, description: Description) -> bool {
    let copy = match description.copy(alloc) {
        Ok(copy) => copy,
        Err(_) => return false,
    };
    let levels = match levels(alloc, &[copy]) {
        Ok(levels) => levels,
        Err(_) => return false,
    };
    match with_bundle(alloc, description, levels) {
        Ok(world) => {
            let mut states = ComponentStates::new(alloc);
            match plain_pass(alloc, &mut states, &world) {
                Ok(end) => {
                    states.state_of(1) == Some(4)
                        && end
                            .opened
                            .as_slice()
                            .iter()
                            .any(|one| one.configuration == 1 && one.service == 1)
                }
                Err(_) => false,
            }
        }
        Err(_) => false,
    }
}

fn provider_opens(alloc: Global) -> bool {
    match described(alloc, "c", "L", List::of(Vec::new(alloc))) {
        Ok(description) => opens(alloc, description),
        Err(_) => false,
    }
}

#[test]
fn a_provider_opens(rt: HostRuntime) {
    assert!(rt; provider_opens(rt.alloc()));
}
