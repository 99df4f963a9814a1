//! Slots, and how often the gate of each was opened (our own).
ghost use Rattle.prop_map.specs.Words.{has};
ghost use Rattle.scr_consequences.specs.Ends.{HaveNextGenerations};
ghost use Rattle.scr_state.specs.Rows.{HasRoomAmong, with_change};
ghost use Rattle.scr_world.specs.Instances.{first_free_slot};
ghost use Rattle.scr_world.specs.Stepping.{reopened_for, with_room_for};
ghost use Rattle.scr_world.specs.declared.instance.Instance.{Instance};
ghost use Rattle.std.specs.List.{list_any};
ghost use Rattle.std.specs.Option.{option_copied, option_to_list};
ghost use Rattle.std.specs.Prelude.{◌≡◌, ◌==◌, ◌≤◌, IfOk, length, map};

use prop_map::OutOfMemory;
use scr_consequences::next_generation;
use scr_state::RowChange;
use scr_world::Instance;
use std::alloc::Global;

/// The lowest slot that no living instance has.
pub(crate) fn first_free_slot(instances: &[Instance]) -> u64
    ensures { result ≡ first_free_slot instances.now }
{
    for slot in 0..instances.len() as u64 {
        if !is_taken(instances, slot) {
            return slot;
        }
    }
    instances.len() as u64
}

/// The lowest slot that no living instance has, where there are as few as a platform has at most.
pub(crate) fn next_slot(instances: &[Instance]) -> u32
    requires { length instances.now ≤ 66048 }
    ensures { result ≡ first_free_slot instances.now }
{
    let slot = first_free_slot(instances);
    slot as u32
}

fn is_taken(instances: &[Instance], slot: u64) -> bool
    ensures { result ≡ has (map (λ (i : Instance). i.slot) instances.now) slot }
{
    has_slot(instances, slot)
}

fn has_slot(instances: &[Instance], slot: u64) -> bool
    ensures { result ≡ list_any (λ (i : Instance). i.slot == slot) instances.now }
{
    instances
        .iter()
        .any(|instance| u64::from(instance.slot) == slot)
}

/// What gives a slot room for its count among the generations.
///
/// # Errors
/// Only want of memory.
pub(crate) fn with_room_for(
    alloc: Global,
    generations: &[u64],
    slot: u64,
) -> Result<RowChange<u64>, OutOfMemory>
    ensures rows { IfOk result (λ r. with_change r generations.now ≡ with_room_for slot generations.now) }
    ensures room { IfOk result (λ r. HasRoomAmong r generations.now) }
{
    if slot < generations.len() as u64 {
        return Ok(RowChange::Same);
    }
    let change = RowChange::behind(alloc, generations, 0)?;
    Ok(change)
}

/// What opens the gate of an instance once more, where one is given. It takes no memory.
pub(crate) fn reopened_for(generations: &[u64], instance: Option<&Instance>) -> RowChange<u64>
    requires { HaveNextGenerations generations.now }
    ensures rows { with_change result generations.now ≡ reopened_for (option_to_list (option_copied instance.entry)) generations.now }
    ensures room { HasRoomAmong result generations.now }
{
    match instance {
        None => RowChange::Same,
        Some(instance) => RowChange::One {
            place: instance.slot as usize,
            row: next_generation(generations, instance),
        },
    }
}
