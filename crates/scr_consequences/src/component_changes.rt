//! What listeners are told of the services of component configurations, in the order of a pass (OSGi Core 8, chapter 5, "Service
//! Events"; the order is our own).
ghost use Rattle.component_state.specs.Components.{pass_order};
ghost use Rattle.scr_consequences.specs.Changes.{HasTold, change_at, has_row};
ghost use Rattle.scr_consequences.specs.Moves.{numbered_in};
ghost use Rattle.scr_world.specs.Lists.{row_at};
ghost use Rattle.service_listeners.specs.Listening.{after_changes};
ghost use Rattle.std.specs.List.{flat_map};
ghost use Rattle.std.specs.Option.{option_copied};
ghost use Rattle.std.specs.Prelude.{◌≡◌, IfOk, OnOk, find, length, map};

use crate::change_events::tell_between;
use crate::moved_periods::moved_periods;
use crate::pass_places::in_pass_order;
use crate::sorted_numbers::SortedNumbers;
use component_dto::Description;
use component_state::{Component, OpenPeriod};
use prop_map::OutOfMemory;
use service_listeners::Listeners;
use service_registry::ServiceRow;
use std::alloc::Global;

// The period of a component configuration that has a service, if there is one.
fn period_of(periods: &[OpenPeriod], configuration: u64) -> Option<&OpenPeriod>
    ensures { option_copied result ≡ find (has_row configuration) periods.now }
{
    periods.iter().find(|period| period.configuration == configuration && period.row.id != 0)
}

// The service of an open component configuration, if it has one.
#[tactic(auto, using(crate::proofs::RowAtLemmas::row_at_found))]
fn row_at(periods: &[OpenPeriod], configuration: u64) -> Option<&ServiceRow>
    ensures { option_copied result ≡ row_at periods.now configuration }
{
    match period_of(periods, configuration) {
        Some(period) => Some(&period.row),
        None => None,
    }
}

// Tells of the services of these component configurations.
fn tell_of_each(
    alloc: Global,
    listeners: &mut Listeners,
    components: &[&Component],
    was_periods: &[OpenPeriod],
    now_periods: &[OpenPeriod],
) -> Result<(), OutOfMemory>
    ensures ok { OnOk result (listeners.new ≡ after_changes (flat_map (change_at was_periods.now now_periods.now) (map (λ c. c.now) components.now)) listeners.old) }
    ensures told { HasTold listeners.old listeners.new }
{
    for &component in components {
        let before = row_at(was_periods, component.number);
        let after = row_at(now_periods, component.number);
        tell_between(alloc, listeners, before, after)?;
    }
    Ok(())
}

// The component configurations of these numbers.
fn numbered_in<'a>(
    alloc: Global,
    numbers: &SortedNumbers,
    components: &'a [Component],
) -> Result<Vec<&'a Component>, OutOfMemory>
    ensures { IfOk result (λ v. map (λ c. c.now) v.items ≡ numbered_in numbers.now components.now) }
{
    components
        .iter()
        .filter(|component| numbers.has(component.number))
        .collect(alloc)
}

// Tells of the services of component configurations, in the order of a pass.
#[tactic(auto, using(crate::proofs::TellingLemmas::told_none))]
pub(crate) fn tell_of_components(
    alloc: Global,
    listeners: &mut Listeners,
    components: &[Component],
    was_periods: &[OpenPeriod],
    now_periods: &[OpenPeriod],
    descriptions: &[Description],
    levels: &[u32],
) -> Result<(), OutOfMemory>
    requires { length descriptions.now ≡ length levels.now }
    ensures ok { OnOk result (listeners.new ≡ after_changes (flat_map (change_at was_periods.now now_periods.now) (pass_order descriptions.now levels.now components.now)) listeners.old) }
    ensures told { HasTold listeners.old listeners.new }
{
    let numbers = moved_periods(alloc, was_periods, now_periods)?;
    if numbers.is_empty() {
        return Ok(());
    }
    let moved = SortedNumbers::of(numbers);
    let some = numbered_in(alloc, &moved, components)?;
    let ordered = in_pass_order(alloc, some.as_slice(), descriptions, levels)?;
    tell_of_each(
        alloc,
        listeners,
        ordered.as_slice(),
        was_periods,
        now_periods,
    )
}
