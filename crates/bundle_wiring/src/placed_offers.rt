//! The offers of several bundles.
ghost use Rattle.bundle_wiring.specs.Placing.{all_homed, homed_from, homed_of};
ghost use Rattle.bundle_wiring.specs.Resolution.{platform_offers};
ghost use Rattle.std.specs.Prelude.{◌≡◌, ◌++◌, map, IfOk, OnOk};

use crate::{Offer, Wiring};
use prop_map::OutOfMemory;
use std::alloc::Global;

/// An offer, the bundle that makes it, and its place among those of the bundle.
#[derive(Clone, Copy)]
pub(crate) struct PlacedOffer<'b> {
    /// The place of the bundle among those that are asked about, none of bundle 0.
    pub(crate) home: Option<usize>,
    /// The number of the bundle.
    pub(crate) to: u64,
    pub(crate) place: usize,
    pub(crate) offer: &'b Offer,
}

/// All offers of bundle 0 and of these bundles, as they come.
///
/// # Errors
/// Only want of memory.
pub(crate) fn all_placed<'b>(
    alloc: Global,
    platform: &'b [Offer],
    bundles: &'b [(u64, Wiring)],
) -> Result<Vec<PlacedOffer<'b>>, OutOfMemory>
    requires { platform.now ≡ platform_offers }
    ensures { IfOk result (λ offers. map homed_of offers.items ≡ all_homed bundles.now) }
{
    let mut offers = Vec::new(alloc);
    push_placed(&mut offers, None, 0, platform)?;
    for (home, bundle) in bundles.iter().enumerate() {
        push_placed(
            &mut offers,
            Some(home),
            bundle.0,
            bundle.1.offers.as_slice(),
        )?;
    }
    Ok(offers)
}

fn push_placed<'b>(
    placed: &mut Vec<PlacedOffer<'b>>,
    home: Option<usize>,
    to: u64,
    offers: &'b [Offer],
) -> Result<(), OutOfMemory>
    ensures { OnOk result (map homed_of placed.new.items ≡ map homed_of placed.old.items ++ homed_from home to 0 offers.now) }
{
    for (place, offer) in offers.iter().enumerate() {
        placed.push(PlacedOffer {
            home,
            to,
            place,
            offer,
        })?;
    }
    Ok(())
}
