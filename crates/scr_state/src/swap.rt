//! A draft put into the world, and taken out of it again by the same call.
ghost use Rattle.scr_state.specs.Drafts.{HasRoom, IsUndoing, with_draft};
ghost use Rattle.std.specs.Option.{unwrap_or};
ghost use Rattle.std.specs.Prelude.{◌≡◌, option_map};

use crate::Draft;
use crate::swap_rows::swap_rows;
use scr_world::World;
use std::alloc::Global;
use std::mem;

/// The world and a draft change places: the world is as the draft says, and the draft says what it was. So the same call
/// undoes it, as often as one likes. It takes no memory: where a row comes or goes, all rows move into the room that the draft
/// has, and the room that they leave is the draft's then.
pub fn swap_in(alloc: Global, world: &mut World, draft: &mut Draft)
    requires room { HasRoom draft.old world.old }
    ensures world { world.new ≡ with_draft draft.old world.old }
    ensures draft { IsUndoing draft.old world.old draft.new }
    ensures back { with_draft draft.new world.new ≡ world.old }
    ensures room { HasRoom draft.new world.new }
    ensures descriptions { draft.new.descriptions ≡ draft.old.descriptions }
    ensures levels { draft.new.levels ≡ draft.old.levels }
{
    swap_all(alloc, world, draft);
}

fn swap_all(alloc: Global, world: &mut World, draft: &mut Draft)
    requires room { HasRoom draft.old world.old }
    ensures world { world.new ≡ with_draft draft.old world.old }
    ensures draft { IsUndoing draft.old world.old draft.new }
    ensures room { HasRoom draft.new world.new }
{
    swap(&mut world.documents, &mut draft.documents);
    swap(&mut world.registry, &mut draft.registry);
    swap(&mut world.configurations, &mut draft.configurations);
    swap(&mut world.components, &mut draft.components);
    mem::swap(
        &mut world.components_numbered,
        &mut draft.components_numbered,
    );
    swap(&mut world.open_periods, &mut draft.open_periods);
    mem::swap(&mut world.failed, &mut draft.failed);
    swap_rows(alloc, &mut world.failures, &mut draft.failures);
    swap_rows(alloc, &mut world.instances, &mut draft.instances);
    swap(&mut world.whiteboard, &mut draft.whiteboard);
    mem::swap(&mut world.instances_numbered, &mut draft.instances_numbered);
    mem::swap(&mut world.turns_begun, &mut draft.turns_begun);
    swap_rows(alloc, &mut world.generations, &mut draft.generations);
    swap(&mut world.uses, &mut draft.uses);
    swap_rows(alloc, &mut world.tokens, &mut draft.tokens);
}

// A table and what it is to be change places, where it is to be another.
fn swap<T: Drop>(now: &mut T, then: &mut Option<T>)
    ensures now { now.new ≡ unwrap_or then.old now.old }
    ensures then { then.new ≡ option_map (λ _. now.old) then.old }
{
    if let Some(other) = then {
        mem::swap(now, other);
    }
}
