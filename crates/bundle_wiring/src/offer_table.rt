//! All offers in one order, by name and of one name the best first, so that those of a need's name are found by
//! halving, and the first that counts is the best.
ghost use Rattle.bundle_wiring.specs.Placing.{HaveSame, IsTable, cmp_to, homed_of, name_cmp, placed_of, table_cmp};
ghost use Rattle.bundle_wiring.specs.Resolution.{placed_cmp, platform_offers};
ghost use Rattle.bundle_wiring.specs.Standings.{IsPassed, counts, first_place, is_left, is_there};
ghost use Rattle.std.specs.List.{AllWithin};
ghost use Rattle.std.specs.List.Sorted.{IsSorted};
ghost use Rattle.std.specs.Ordering.{is_le, is_lt};
ghost use Rattle.std.specs.Prelude.{◌≡◌, ◌≤◌, true, false, length, map, IfOk, OnOk};

use crate::matching::meets;
use crate::placed_offers::{PlacedOffer, all_placed};
use crate::{Offer, WireNeed, Wiring};
use prop_map::OutOfMemory;
use std::alloc::Global;
use std::cmp::Ordering;

/// All offers of bundle 0 and of these bundles, in their order.
///
/// # Errors
/// Only want of memory.
pub(crate) fn offer_table<'b>(
    alloc: Global,
    platform: &'b [Offer],
    bundles: &'b [(u64, Wiring)],
) -> Result<Vec<PlacedOffer<'b>>, OutOfMemory>
    requires { platform.now ≡ platform_offers }
    ensures { IfOk result (λ table. IsTable bundles.now table.items) }
{
    let mut table = all_placed(alloc, platform, bundles)?;
    sort(&mut table)?;
    Ok(table)
}

fn sort(offers: &mut Vec<PlacedOffer>) -> Result<(), OutOfMemory>
    ensures sorted { OnOk result (IsSorted table_cmp offers.new.items) }
    ensures same { HaveSame (map homed_of offers.new.items) (map homed_of offers.old.items) }
{
    offers.sort_by(|a, b| table_order(a, b))
}

fn table_order(a: &PlacedOffer, b: &PlacedOffer) -> Ordering
    ensures { result ≡ table_cmp a.now b.now }
{
    match name_order(a, b) {
        Ordering::Equal => placed_order(a, b),
        other => other,
    }
}

fn name_order(a: &PlacedOffer, b: &PlacedOffer) -> Ordering
    ensures { result ≡ name_cmp a.now b.now }
{
    a.offer.name.as_str().cmp(b.offer.name.as_str())
}

// The higher version comes first, then the lower bundle number, then the lower place.
fn placed_order(a: &PlacedOffer, b: &PlacedOffer) -> Ordering
    ensures { result ≡ placed_cmp (placed_of a.now) (placed_of b.now) }
{
    b.offer
        .version
        .get()
        .cmp(a.offer.version.get())
        .then(a.to.cmp(&b.to).then(a.place.cmp(&b.place)))
}

/// The place of the best offer that counts for a need: of those that are there the first that meets it, or the number
/// of all where none does. It looks at the offers of the need's name alone.
pub(crate) fn first_place(table: &[PlacedOffer], left: &[bool], need: &WireNeed) -> usize
    requires { IsSorted table_cmp table.now }
    ensures { result ≡ first_place left.now need.now table.now }
{
    let start = start_of_name(table, need.name.as_str());
    first_from(table, left, need, start)
}

/// The same, where no offer before a place counts. It looks at none of those.
pub(crate) fn first_from(
    table: &[PlacedOffer],
    left: &[bool],
    need: &WireNeed,
    start: usize,
) -> usize
    requires sorted { IsSorted table_cmp table.now }
    requires passed { IsPassed left.now need.now table.now start }
    ensures { result ≡ first_place left.now need.now table.now }
{
    let end = end_of_name(table, need.name.as_str());
    for at in start..end {
        if counts(left, need, &table[at]) {
            return at;
        }
    }
    table.len()
}

fn counts(left: &[bool], need: &WireNeed, offer: &PlacedOffer) -> bool
    ensures { result ≡ counts left.now need.now offer.now }
{
    is_there(left, offer.home) && meets(need, offer.offer)
}

/// Whether the bundle at a place is there, as bundle 0 always is.
pub(crate) fn is_there(left: &[bool], home: Option<usize>) -> bool
    ensures { result ≡ is_there left.now home }
{
    match home {
        Some(home) => is_left(left, home),
        None => true,
    }
}

/// Whether the bundle at a place is left.
pub(crate) fn is_left(left: &[bool], home: usize) -> bool
    ensures { result ≡ is_left left.now home }
{
    home < left.len() && left[home]
}

// Where the offers of a name begin: those before are of earlier names.
fn start_of_name(table: &[PlacedOffer], name: &str) -> usize
    requires { IsSorted table_cmp table.now }
    ensures { AllWithin (λ o. is_lt (cmp_to name.now o) ≡ true) table.now 0 result }
{
    table.partition_point(|offer| stands_before(offer, name))
}

// Where the offers of a name end: those from there on are of later names.
fn end_of_name(table: &[PlacedOffer], name: &str) -> usize
    requires { IsSorted table_cmp table.now }
    ensures within { result ≤ length table.now }
    ensures later { AllWithin (λ o. is_le (cmp_to name.now o) ≡ false) table.now result (length table.now) }
{
    table.partition_point(|offer| stands_up_to(offer, name))
}

fn stands_before(offer: &PlacedOffer, name: &str) -> bool
    ensures { result ≡ is_lt (cmp_to name.now offer.now) }
{
    offer.offer.name.as_str().cmp(name).is_lt()
}

fn stands_up_to(offer: &PlacedOffer, name: &str) -> bool
    ensures { result ≡ is_le (cmp_to name.now offer.now) }
{
    offer.offer.name.as_str().cmp(name).is_le()
}
