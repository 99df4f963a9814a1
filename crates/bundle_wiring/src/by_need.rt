//! To whom each need is wired, be its bundle among those that resolve or not (OSGi Core 8, chapter 3 "Module Layer",
//! "Resolving Process").
ghost use Rattle.bundle_wiring.specs.ByNeed.{AreWired, wired_of};
ghost use Rattle.bundle_wiring.specs.Standings.{all_standing, standing_of, stood_in, target_at, wired_at};
ghost use Rattle.bundle_wiring.specs.declared.placed_offers.PlacedOffer.{PlacedOffer};
ghost use Rattle.std.specs.Prelude.{◌≡◌, map, option_map, IfOk};

use crate::offer_table::offer_table;
use crate::placed_offers::PlacedOffer;
use crate::resolving::{Settled, platform_offers, settle};
use crate::standings::Stand;
use crate::{WireNeed, Wiring};
use prop_map::{List, OutOfMemory};
use std::alloc::Global;

/// A need, and to whom it is wired.
#[derive(Clone, Copy)]
pub struct WiredNeed<'b> {
    /// The need.
    pub need: &'b WireNeed,
    /// The number of the bundle that makes the best offer, 0 for the platform, and none where no offer meets the need.
    pub to: Option<u64>,
}

/// The needs of each of these bundles, in their order, each with the bundle to which it is wired where the greatest set
/// of them resolves that can. Of a bundle of that set these are its wires, as `resolve` tells them; of any other the
/// wires that its needs would have.
///
/// # Errors
/// Only want of memory.
pub fn wire_needs<'b>(
    alloc: Global,
    bundles: &'b [(u64, Wiring)],
) -> Result<Vec<List<WiredNeed<'b>>>, OutOfMemory>
    ensures { IfOk result (λ wired. AreWired bundles.now (map (map wired_of) wired.items)) }
{
    let platform = platform_offers(alloc)?;
    let offers = offer_table(alloc, platform.as_slice(), bundles)?;
    let table = offers.as_slice();
    let settled = settle(alloc, table, bundles)?;
    wired_by_bundle(alloc, table, &settled, bundles)
}

// The needs as they stand, those of each bundle by themselves.
fn wired_by_bundle<'b>(
    alloc: Global,
    table: &[PlacedOffer],
    settled: &Settled<'b>,
    bundles: &[(u64, Wiring)],
) -> Result<Vec<List<WiredNeed<'b>>>, OutOfMemory>
    requires { map standing_of settled.now.stands.items ≡ all_standing settled.now.left.items table.now 0 bundles.now }
    ensures { IfOk result (λ wired. map (map wired_of) wired.items ≡ map (stood_in settled.now.left.items table.now) bundles.now) }
{
    let stands = settled.stands.as_slice();
    let mut wired = Vec::new(alloc);
    let mut at = 0;
    for bundle in bundles {
        let end = at + bundle.1.needs.as_slice().len();
        wired.push(wired_needs(alloc, table, &stands[at..end])?)?;
        at = end;
    }
    Ok(wired)
}

fn wired_needs<'b>(
    alloc: Global,
    table: &[PlacedOffer],
    stands: &[Stand<'b>],
) -> Result<List<WiredNeed<'b>>, OutOfMemory>
    ensures { IfOk result (λ wired. map wired_of wired ≡ map (wired_at table.now) (map standing_of stands.now)) }
{
    let mut wired = Vec::new(alloc);
    for stand in stands {
        wired.push(WiredNeed {
            need: stand.need,
            to: target_at(table, stand.at),
        })?;
    }
    Ok(List::of(wired))
}

// The bundle that makes the offer at a place, if there is one.
fn target_at(table: &[PlacedOffer], at: usize) -> Option<u64>
    ensures { result ≡ target_at table.now at }
{
    target_of(table.get(at))
}

fn target_of(offer: Option<&PlacedOffer>) -> Option<u64>
    ensures { result ≡ option_map (λ (o : PlacedOffer). o.to) (option_map (λ o. o.now) offer.entry) }
{
    match offer {
        Some(offer) => Some(offer.to),
        None => None,
    }
}
