//! Drains of gates that are shut (our own).
ghost use Rattle.scr_state.specs.Keeps.{Keeps};
ghost use Rattle.scr_world.specs.Calls.{Drains, awaits_drain_at, world_at};
ghost use Rattle.std.specs.List.{list_any};
ghost use Rattle.std.specs.Option.{option_copied};
ghost use Rattle.std.specs.Prelude.{◌≡◌, OnErr, OnOk, find, option_map, true};

use crate::generic::let_go;
use crate::steps::boxed;
use journal_core::{GateKey, Journal};
use prop_map::OutOfMemory;
use scr_dues::awaits_drain;
use scr_state::State;
use scr_still::grow_still;
use scr_turns::turn_draft;
use scr_world::{Instance, Step, World};
use std::alloc::Global;

// The instance has this gate and awaits its drain.
fn awaits_drain_at(world: &World, key: GateKey, instance: &Instance) -> bool
    ensures { result ≡ awaits_drain_at world.now key instance.now }
{
    instance.slot == key.slot
        && instance.generation == key.generation
        && awaits_drain(world, instance)
}

fn awaiting<'a>(world: &World, instances: &'a [Instance], key: GateKey) -> Option<&'a Instance>
    ensures { option_copied result ≡ find (awaits_drain_at world.now key) instances.now }
{
    instances
        .iter()
        .find(|instance| awaits_drain_at(world, key, instance))
}

// The number of the first instance that has this gate and awaits its drain.
fn drained_number(world: &World, key: GateKey) -> Option<u64>
    ensures { result ≡ option_map (λ i. i.number) (find (awaits_drain_at world.now key) world.now.instances) }
{
    awaiting(world, world.instances.as_slice(), key).map(|instance| instance.number)
}

/// Posts the drain of a gate that awaits it.
pub(crate) fn drain(
    alloc: Global,
    journal: &mut Journal<Step>,
    state: &mut State,
    key: GateKey,
) -> Result<(), OutOfMemory>
    requires keeps { Keeps journal.old state.old }
    requires awaits { list_any (awaits_drain_at (world_at journal.old.entries) key) (world_at journal.old.entries).instances ≡ true }
    ensures keeps { Keeps journal.new state.new }
    ensures limit { journal.new.limit ≡ journal.old.limit }
    ensures ok { OnOk result (Drains journal.old.limit journal.old.entries key journal.new.entries) }
    ensures err { OnErr result (journal.new ≡ journal.old) }
{
    let Some(instance) = drained_number(&state.world, key) else {
        unreachable!();
    };
    // This lets the proof know that what is reserved has room.
    let _room = journal.room();
    let step = boxed(alloc, Step::Drained { instance })?;
    let draft = match turn_draft(alloc, state, &step) {
        Ok(draft) => draft,
        Err(error) => {
            let_go(step);
            return Err(error);
        }
    };
    grow_still(alloc, journal, state, step, draft)?;
    Ok(())
}
