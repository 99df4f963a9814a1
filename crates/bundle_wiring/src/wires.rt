//! The wires of bundles that resolve together.
ghost use Rattle.bundle_wiring.specs.Best.{IsBest};
ghost use Rattle.bundle_wiring.specs.Placing.{placed_of};
ghost use Rattle.bundle_wiring.specs.Resolution.{Placed, best, wire_of};
ghost use Rattle.bundle_wiring.specs.Standings.{standing_of, wire_at};
ghost use Rattle.std.specs.List.{flat_map};
ghost use Rattle.std.specs.Prelude.{◌≡◌, ◌++◌, List, [], Some, None, map, option_map, IfOk, OnOk};

use crate::Wire;
use crate::offer_table::is_left;
use crate::placed_offers::PlacedOffer;
use crate::standings::Stand;
use prop_map::OutOfMemory;
use std::alloc::Global;

/// For contracts alone: the best of several offers is one of them, and none of them is better. Only of none there is no
/// best.
pub fn note_best()
    ensures some { (offers : List Placed) (offer : Placed) → best offers ≡ Some offer → IsBest offers offer }
    ensures none { (offers : List Placed) → best offers ≡ None → offers ≡ [] }
{}

/// The wires of the needs of bundles that are left, as they stand.
///
/// # Errors
/// Only want of memory.
pub(crate) fn wires_of(
    alloc: Global,
    table: &[PlacedOffer],
    left: &[bool],
    stands: &[Stand],
) -> Result<Vec<Wire>, OutOfMemory>
    ensures { IfOk result (λ wires. wires.items ≡ flat_map (wire_at left.now table.now) (map standing_of stands.now)) }
{
    let mut wires = Vec::new(alloc);
    for stand in stands {
        push_wire(&mut wires, table, left, stand)?;
    }
    Ok(wires)
}

fn push_wire(
    wires: &mut Vec<Wire>,
    table: &[PlacedOffer],
    left: &[bool],
    stand: &Stand,
) -> Result<(), OutOfMemory>
    ensures { OnOk result (wires.new.items ≡ wires.old.items ++ wire_at left.now table.now (standing_of stand.now)) }
{
    if is_left(left, stand.home) {
        push_best(wires, stand, table.get(stand.at))
    } else {
        Ok(())
    }
}

fn push_best(
    wires: &mut Vec<Wire>,
    stand: &Stand,
    best: Option<&PlacedOffer>,
) -> Result<(), OutOfMemory>
    ensures { OnOk result (wires.new.items ≡ wires.old.items ++ wire_of stand.now.from stand.now.place (option_map placed_of (option_map (λ o. o.now) best.entry))) }
{
    if let Some(best) = best {
        wires.push(Wire {
            from: stand.from,
            need: stand.place,
            to: best.to,
            offer: best.place,
        })?;
    }
    Ok(())
}
