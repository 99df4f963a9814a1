//! The gate that the end of a turn reopens. Our own.
ghost use Rattle.scr_consequences.specs.Ends.{HaveNextGenerations, opens_gate};
ghost use Rattle.scr_world.specs.Consequences.{reopened_by};
ghost use Rattle.scr_world.specs.Instances.{next_generation};
ghost use Rattle.std.specs.Option.{option_copied};
ghost use Rattle.std.specs.Prelude.{◌≡◌, find, slice_index};

use callback_orders::Outcome;
use journal_core::GateKey;
use scr_world::{Instance, World};

/// Whether the end of a turn makes an instance active, so that its gate opens. It takes no memory.
pub fn opens_gate(turn: u64, outcome: Outcome, instance: &Instance) -> bool
    ensures { result ≡ opens_gate turn outcome instance.now }
{
    instance.has_turn(turn) && instance.becomes_active(outcome)
}

fn opening_in(instances: &[Instance], turn: u64, outcome: Outcome) -> Option<&Instance>
    ensures { option_copied result ≡ find (opens_gate turn outcome) instances.now }
{
    instances
        .iter()
        .find(|instance| opens_gate(turn, outcome, instance))
}

// How often the gate of a slot was opened so far.
fn generation_at(generations: &[u64], slot: u32) -> u64
    ensures { result ≡ slice_index generations.now slot }
{
    match generations.get(slot as usize) {
        Some(opened) => *opened,
        None => 0,
    }
}

/// How often the gate of an instance's slot will have been opened once it opens again. It takes no memory.
pub fn next_generation(generations: &[u64], instance: &Instance) -> u64
    requires { HaveNextGenerations generations.now }
    ensures { result ≡ next_generation generations.now instance.now }
{
    generation_at(generations, instance.slot) + 1
}

/// The gate that the end of a turn reopens, if it does: that of the instance whose Activate is done. It takes no memory.
pub fn reopened_by(world: &World, turn: u64, outcome: Outcome) -> Option<GateKey>
    requires { HaveNextGenerations world.now.generations }
    ensures { result ≡ reopened_by turn outcome world.now }
{
    match opening_in(world.instances.as_slice(), turn, outcome) {
        Some(instance) => Some(GateKey {
            slot: instance.slot,
            generation: next_generation(world.generations.as_slice(), instance),
        }),
        None => None,
    }
}
