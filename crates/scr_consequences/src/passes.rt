//! The pass of a world.
ghost use Rattle.component_state.specs.Inside.Ready.{IsReady};
ghost use Rattle.component_state.specs.Passes.{HasPassed};
ghost use Rattle.scr_world.specs.Consequences.{stage_in};
ghost use Rattle.scr_world.specs.Levels.{levels_of};
ghost use Rattle.scr_world.specs.Tables.{descriptions_of};
ghost use Rattle.scr_world.specs.Worlds.{origins_of};
ghost use Rattle.std.specs.Prelude.{◌≡◌, ◌+◌, ◌^◌, ◌<◌, IfOk, map};

use crate::platform_services::direct_services;
use component_dto::Description;
use component_state::{Origin, Passed, Stage, pass_over};
use prop_map::OutOfMemory;
use scr_world::{Instance, World};
use std::alloc::Global;

// Where living instances come from.
fn origins_of(alloc: Global, instances: &[Instance]) -> Result<Vec<&Origin>, OutOfMemory>
    ensures { IfOk result (λ v. map (λ o. o.now) v.items ≡ origins_of instances.now) }
{
    let mut found = Vec::new(alloc);
    for instance in instances {
        found.push(instance.origin.get())?;
    }
    Ok(found)
}

/// The pass in a world that a step has led to: what closes and what opens, where these component configurations fail in the step.
/// The descriptions of the world's documents and their levels are the caller's.
///
/// # Errors
/// Only want of memory. That no number is left for a service that opens counts as such.
#[tactic(auto, unfolding(scr_world::specs::Consequences::stage_in))]
pub fn pass_in(
    alloc: Global,
    world: &World,
    descriptions: &[Description],
    levels: &[u32],
    failing: &[u64],
) -> Result<Passed, OutOfMemory>
    requires descriptions { descriptions.now ≡ descriptions_of world.now.documents }
    requires levels { levels.now ≡ levels_of descriptions.now }
    requires ready { IsReady (stage_in world.now failing.now) }
    requires next { world.now.registry.numbered + 1 < 2 ^ 64 }
    ensures { IfOk result (λ p. HasPassed (stage_in world.now failing.now) p) }
{
    let next = world.registry.numbered() + 1;
    let direct = direct_services(alloc, world)?;
    let origins = origins_of(alloc, world.instances.as_slice())?;
    let stage = Stage {
        place: world.entries,
        next,
        descriptions,
        levels,
        direct: direct.as_slice(),
        components: world.components.as_slice(),
        open_before: world.open_periods.as_slice(),
        origins: origins.as_slice(),
        failed: world.failed.as_slice(),
        failing,
    };
    pass_over(alloc, &stage)
}
