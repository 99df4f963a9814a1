//! An instance whose turn ends (our own).
ghost use Rattle.callback_orders.specs.Sequences.{is_outstanding};
ghost use Rattle.scr_consequences.specs.Ends.{HaveNextGenerations};
ghost use Rattle.scr_world.specs.Instances.{with_outcome};
ghost use Rattle.std.specs.Prelude.{◌≡◌, IfOk, IsTrue};

use callback_orders::Outcome;
use prop_map::{Copies, OutOfMemory};
use scr_consequences::next_generation;
use scr_world::Instance;
use std::alloc::Global;

/// An instance as it is once its turn has ended.
pub(crate) fn with_outcome(
    alloc: Global,
    generations: &[u64],
    outcome: Outcome,
    instance: &Instance,
) -> Result<Instance, OutOfMemory>
    requires outstanding { IsTrue (is_outstanding instance.now.callbacks) }
    requires next { HaveNextGenerations generations.now }
    ensures { IfOk result (λ i. i ≡ with_outcome outcome generations.now instance.now) }
{
    let mut told = instance.copy(alloc)?;
    told.callbacks.end(outcome);
    told.generation = generation_after(generations, outcome, instance);
    Ok(told)
}

fn generation_after(generations: &[u64], outcome: Outcome, instance: &Instance) -> u64
    requires { HaveNextGenerations generations.now }
    ensures { result ≡ (with_outcome outcome generations.now instance.now).generation }
{
    if instance.becomes_active(outcome) {
        next_generation(generations, instance)
    } else {
        instance.generation
    }
}
