//! Where each need stands among the offers, which it goes through once from the best on.
ghost use Rattle.bundle_wiring.specs.Placing.{table_cmp};
ghost use Rattle.bundle_wiring.specs.Standings.{Rests, all_standing, is_gone, is_lost, needs_standing, settled, standing_of, struck};
ghost use Rattle.std.specs.List.{All, list_any};
ghost use Rattle.std.specs.List.Sorted.{IsSorted};
ghost use Rattle.std.specs.Prelude.{◌≡◌, ◌++◌, fold, map, option_map, slice_get, IfOk, OnOk};

use crate::offer_table::{first_from, first_place, is_left, is_there};
use crate::placed_offers::PlacedOffer;
use crate::{WireNeed, Wiring};
use prop_map::OutOfMemory;
use std::alloc::Global;

/// A need and where it stands.
#[derive(Clone, Copy)]
pub(crate) struct Stand<'b> {
    /// The place of its bundle among those that are asked about.
    pub(crate) home: usize,
    /// The number of its bundle.
    pub(crate) from: u64,
    /// Its place among the needs of its bundle.
    pub(crate) place: usize,
    pub(crate) need: &'b WireNeed,
    /// The place of its candidate among all offers, or their number where it has none.
    pub(crate) at: usize,
}

/// Each need of these bundles, by bundle and by place.
///
/// # Errors
/// Only want of memory.
pub(crate) fn stands_of<'b>(
    alloc: Global,
    table: &[PlacedOffer],
    left: &[bool],
    bundles: &'b [(u64, Wiring)],
) -> Result<Vec<Stand<'b>>, OutOfMemory>
    requires { IsSorted table_cmp table.now }
    ensures { IfOk result (λ stands. map standing_of stands.items ≡ all_standing left.now table.now 0 bundles.now) }
{
    let mut stands = Vec::new(alloc);
    for (home, bundle) in bundles.iter().enumerate() {
        push_stands(
            &mut stands,
            table,
            left,
            home,
            bundle.0,
            bundle.1.needs.as_slice(),
        )?;
    }
    Ok(stands)
}

fn push_stands<'b>(
    stands: &mut Vec<Stand<'b>>,
    table: &[PlacedOffer],
    left: &[bool],
    home: usize,
    from: u64,
    needs: &'b [WireNeed],
) -> Result<(), OutOfMemory>
    requires { IsSorted table_cmp table.now }
    ensures { OnOk result (map standing_of stands.new.items ≡ map standing_of stands.old.items ++ needs_standing left.now table.now home from 0 needs.now) }
{
    for (place, need) in needs.iter().enumerate() {
        let at = first_place(table, left, need);
        stands.push(Stand {
            home,
            from,
            place,
            need,
            at,
        })?;
    }
    Ok(())
}

/// Has each need whose candidate is gone look on from there.
pub(crate) fn look_on(table: &[PlacedOffer], left: &[bool], stands: &mut [Stand])
    requires sorted { IsSorted table_cmp table.now }
    requires rest { All (Rests left.now table.now) stands.old }
    ensures { stands.new ≡ map (settled left.now table.now) stands.old }
{
    for stand in stands.iter_mut() {
        look_on_one(table, left, stand);
    }
}

fn look_on_one(table: &[PlacedOffer], left: &[bool], stand: &mut Stand)
    requires sorted { IsSorted table_cmp table.now }
    requires rest { Rests left.now table.now stand.old }
    ensures { stand.new ≡ settled left.now table.now stand.old }
{
    if is_gone_at(table, left, stand.at) {
        stand.at = first_from(table, left, stand.need, stand.at);
    }
}

// Whether there is an offer at a place, and its bundle isn't there.
fn is_gone_at(table: &[PlacedOffer], left: &[bool], at: usize) -> bool
    ensures { result ≡ is_gone left.now (slice_get table.now at) }
{
    is_gone(left, table.get(at))
}

fn is_gone(left: &[bool], offer: Option<&PlacedOffer>) -> bool
    ensures { result ≡ is_gone left.now (option_map (λ o. o.now) offer.entry) }
{
    match offer {
        Some(offer) => !is_there(left, offer.home),
        None => false,
    }
}

/// Whether a bundle that is left has a need that is lost.
pub(crate) fn some_lost(table: &[PlacedOffer], left: &[bool], stands: &[Stand]) -> bool
    ensures { result ≡ list_any (λ s. is_lost left.now table.now (standing_of s)) stands.now }
{
    stands.iter().any(|stand| is_lost(table, left, stand))
}

// Its bundle is left and can't be without it, and it has no candidate.
fn is_lost(table: &[PlacedOffer], left: &[bool], stand: &Stand) -> bool
    ensures { result ≡ is_lost left.now table.now (standing_of stand.now) }
{
    is_left(left, stand.home) && !stand.need.optional && table.get(stand.at).is_none()
}

/// Strikes out the bundles that have a need that is lost.
pub(crate) fn strike_lost(table: &[PlacedOffer], left: &mut [bool], stands: &[Stand])
    ensures { left.new ≡ fold (struck table.now) left.old (map standing_of stands.now) }
{
    for stand in stands {
        strike_one(table, left, stand);
    }
}

fn strike_one(table: &[PlacedOffer], left: &mut [bool], stand: &Stand)
    ensures { left.new ≡ struck table.now left.old (standing_of stand.now) }
{
    if is_lost(table, left, stand) && stand.home < left.len() {
        left[stand.home] = false;
    }
}
