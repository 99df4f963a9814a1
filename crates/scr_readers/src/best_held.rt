//! The best of what an instance holds, found without memory (OSGi Compendium 8, chapter 112, "Bound Services").
ghost use Rattle.scr_readers.specs.Inside.{better_by, better_one, first_one};
ghost use Rattle.scr_world.specs.Worlds.{sorted};
ghost use Rattle.std.specs.Prelude.{◌≡◌};

use scr_dues::{OwnRows, ranking_of};
use scr_world::World;

/// The best of the services that are held. It takes no memory.
pub(crate) fn best_held(own: &OwnRows, world: &World, held: &[u64]) -> Option<u64>
    ensures { result ≡ first_one (sorted world.now held.now) }
{
    let mut best = None;
    for service in held {
        best = Some(better_one(own, world, *service, best));
    }
    best
}

// The better of a service and another one, if there is one.
fn better_one(own: &OwnRows, world: &World, service: u64, best: Option<u64>) -> u64
    ensures { result ≡ better_one (better_by world.now) service best }
{
    match best {
        Some(other) if !is_better(own, world, service, other) => other,
        _ => service,
    }
}

fn is_better(own: &OwnRows, world: &World, a: u64, b: u64) -> bool
    ensures { result ≡ better_by world.now a b }
{
    let (x, y) = (ranking_of(own, world, a), ranking_of(own, world, b));
    y < x || (x == y && a < b)
}
