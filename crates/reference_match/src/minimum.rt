//! When a reference has its minimum of targets (OSGi Compendium 8, chapter 112, reference cardinality).
ghost use Rattle.reference_match.specs.Standing.{is_registered, standing};
ghost use Rattle.reference_match.specs.Targets.{is_met, meets};
ghost use Rattle.std.specs.Prelude.{◌≡◌, ◌-◌, filter, length, map};

use crate::{Need, meets};
use service_registry::{HasRow, ServiceRow};

/// Whether as many services meet a need as it asks for at least. It stops counting there, and takes no memory.
pub fn is_met(need: &Need, rows: &[ServiceRow]) -> bool
    ensures { result ≡ is_met rows.now need.now }
{
    missing(need, rows, need.minimum) == 0
}

/// The same among direct services and those of open periods, which stand in lists of their own.
pub fn is_met_standing<R: HasRow>(need: &Need, direct: &[ServiceRow], opened: &[R]) -> bool
    ensures { result ≡ is_met (standing direct.now (map R.row_of opened.now)) need.now }
{
    missing_registered(need, opened, missing(need, direct, need.minimum)) == 0
}

// How many of these that are wanted are missing.
fn missing(need: &Need, rows: &[ServiceRow], wanted: u64) -> u64
    ensures { result ≡ wanted - length (filter (meets need.now) rows.now) }
{
    let mut left = wanted;
    for row in rows {
        if left == 0 {
            return 0;
        }
        if meets(need, row) {
            left -= 1;
        }
    }
    left
}

fn missing_registered<R: HasRow>(need: &Need, opened: &[R], wanted: u64) -> u64
    ensures { result ≡ wanted - length (filter (meets need.now) (filter is_registered (map R.row_of opened.now))) }
{
    let mut left = wanted;
    for one in opened {
        if left == 0 {
            return 0;
        }
        let row = one.row();
        if row.id != 0 && meets(need, row) {
            left -= 1;
        }
    }
    left
}
