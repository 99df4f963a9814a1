//! The open periods that differ between two worlds. Our own.
ghost use Rattle.component_state.specs.Inside.Ready.{configurations_open};
ghost use Rattle.scr_consequences.specs.Moves.{is_unmoved, moved, period_stays, periods_behind};
ghost use Rattle.std.specs.Prelude.{◌≡◌, ◌++◌, ◌≤◌, IfOk, OnOk, drop, length};

use component_state::OpenPeriod;
use prop_map::OutOfMemory;
use std::alloc::Global;

// Two periods are of one component configuration and have one service, with one revision.
fn is_unmoved(before: &OpenPeriod, after: &OpenPeriod) -> bool
    ensures { result ≡ is_unmoved before.now after.now }
{
    before.configuration == after.configuration
        && (before.row.id == after.row.id && before.row.revision == after.row.revision)
}

/// Whether a period stands first in a list, with the service and the revision that it had.
pub(crate) fn period_stays(period: &OpenPeriod, now: &[OpenPeriod]) -> bool
    ensures { result ≡ period_stays period.now now.now }
{
    match now {
        [first, ..] => is_unmoved(period, first),
        [] => false,
    }
}

/// A list without its first period, where that is of this component configuration.
pub(crate) fn periods_behind(configuration: u64, now: &[OpenPeriod]) -> &[OpenPeriod]
    ensures { result.now ≡ periods_behind configuration now.now }
{
    match now {
        [first, later @ ..] if first.configuration == configuration => later,
        _ => now,
    }
}

fn add_configurations(numbers: &mut Vec<u64>, periods: &[OpenPeriod]) -> Result<(), OutOfMemory>
    ensures { OnOk result (numbers.new.items ≡ numbers.old.items ++ configurations_open periods.now) }
{
    for period in periods {
        numbers.push(period.configuration)?;
    }
    Ok(())
}

/// The component configurations of the periods that don't stand in both lists.
pub(crate) fn moved_periods(
    alloc: Global,
    was: &[OpenPeriod],
    now: &[OpenPeriod],
) -> Result<Vec<u64>, OutOfMemory>
    ensures { IfOk result (λ v. v.items ≡ moved was.now now.now) }
{
    let mut numbers = Vec::new(alloc);
    let mut rest = now;
    for period in was {
        if !period_stays(period, rest) {
            numbers.push(period.configuration)?;
        }
        rest = periods_behind(period.configuration, rest);
    }
    add_configurations(&mut numbers, rest)?;
    Ok(numbers)
}
