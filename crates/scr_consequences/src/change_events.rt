//! What listeners are told of one service (OSGi Core 8, chapter 5, "Service Events").
ghost use Rattle.scr_consequences.specs.Changes.{HasTold};
ghost use Rattle.scr_world.specs.Lists.{change_between, change_of_one};
ghost use Rattle.service_listeners.specs.Listening.{after_changes};
ghost use Rattle.std.specs.Option.{option_copied};
ghost use Rattle.std.specs.Prelude.{◌≡◌, ◌∷◌, [], OnOk};

use prop_map::OutOfMemory;
use service_listeners::Listeners;
use service_registry::ServiceRow;
use std::alloc::Global;

// Tells listeners of one change.
#[tactic(auto, using(crate::proofs::TellingLemmas::told_either))]
pub(crate) fn tell(
    alloc: Global,
    listeners: &mut Listeners,
    before: Option<&ServiceRow>,
    after: Option<&ServiceRow>,
) -> Result<(), OutOfMemory>
    ensures ok { OnOk result (listeners.new ≡ after_changes ((option_copied before.entry, option_copied after.entry) ∷ []) listeners.old) }
    ensures told { HasTold listeners.old listeners.new }
{
    listeners.tell(alloc, before, after)
}

// Tells of a service that left and of one that came.
#[tactic(auto, using(crate::proofs::TellingLemmas::told_more, crate::proofs::TellingLemmas::after_two))]
fn tell_both(
    alloc: Global,
    listeners: &mut Listeners,
    old: &ServiceRow,
    new: &ServiceRow,
) -> Result<(), OutOfMemory>
    ensures ok { OnOk result (listeners.new ≡ after_changes ((Some old.now, None) ∷ (None, Some new.now) ∷ []) listeners.old) }
    ensures told { HasTold listeners.old listeners.new }
{
    tell(alloc, listeners, Some(old), None)?;
    tell(alloc, listeners, None, Some(new))
}

// Tells of a service that was registered before and is registered now.
#[tactic(auto, using(crate::proofs::TellingLemmas::after_none_back, crate::proofs::TellingLemmas::told_none))]
fn tell_of_one(
    alloc: Global,
    listeners: &mut Listeners,
    old: &ServiceRow,
    new: &ServiceRow,
) -> Result<(), OutOfMemory>
    ensures ok { OnOk result (listeners.new ≡ after_changes (change_of_one old.now new.now) listeners.old) }
    ensures told { HasTold listeners.old listeners.new }
{
    if old.id != new.id {
        return tell_both(alloc, listeners, old, new);
    }
    if old.revision == new.revision {
        return Ok(());
    }
    tell(alloc, listeners, Some(old), Some(new))
}

// Tells listeners of one service as it was and as it is.
#[tactic(auto, using(crate::proofs::TellingLemmas::after_none_back, crate::proofs::TellingLemmas::told_none))]
pub(crate) fn tell_between(
    alloc: Global,
    listeners: &mut Listeners,
    before: Option<&ServiceRow>,
    after: Option<&ServiceRow>,
) -> Result<(), OutOfMemory>
    ensures ok { OnOk result (listeners.new ≡ after_changes (change_between (option_copied before.entry) (option_copied after.entry)) listeners.old) }
    ensures told { HasTold listeners.old listeners.new }
{
    match (before, after) {
        (None, None) => Ok(()),
        (None, Some(new)) => tell(alloc, listeners, None, Some(new)),
        (Some(old), None) => tell(alloc, listeners, Some(old), None),
        (Some(old), Some(new)) => tell_of_one(alloc, listeners, old, new),
    }
}
