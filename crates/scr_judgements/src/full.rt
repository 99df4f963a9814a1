//! Whether there is room for the component configurations that a command makes come. Our own.
ghost use Rattle.scr_judgements.specs.Asked.{IsAskedAfter, are_too_many};
ghost use Rattle.scr_world.specs.Stepping.{is_counted};
ghost use Rattle.std.specs.Prelude.{◌≡◌, filter, length};

use crate::Asked;
use crate::counted::is_counted;
use component_state::Component;
use scr_world::{Instance, Step, World};

/// Whether a command makes component configurations come, and more than 512 would then exist, or have ceased and an instance
/// that lives.
#[tactic(auto, using(crate::proofs::Filling::full_after))]
pub fn are_too_many(world: &World, step: &Step, asked: &Asked) -> bool
    requires { IsAskedAfter step.now world.now asked.now }
    ensures { result ≡ are_too_many step.now world.now }
{
    asked.components_numbered != world.components_numbered
        && how_many(world.instances.as_slice(), asked.components.as_slice()) > 512
}

fn how_many(instances: &[Instance], components: &[Component]) -> usize
    ensures { result ≡ length (filter (is_counted instances.now) components.now) }
{
    components
        .iter()
        .filter(|component| is_counted(instances, component))
        .count()
}
