//! The bundles as their component configurations are made of them, as they are and with one in another state (OSGi Core 8,
//! chapter 4, "Bundle State"; OSGi Compendium 8, chapter 112, "Enabled").
ghost use Rattle.bundle_life.specs.Lives.{bundle_of, in_state, state_number};
ghost use Rattle.bundle_life.specs.declared.bundle.BundleLife.{BundleLife};
ghost use Rattle.scr_world.specs.Tables.{bundle_row, bundle_rows};
ghost use Rattle.std.specs.Option.{option_map_or};
ghost use Rattle.std.specs.Prelude.{◌≡◌, IfOk, map};

use bundle_life::{BundleLife, BundleState, Bundles};
use component_state::BundleView;
use prop_map::OutOfMemory;
use scr_world::Contents;
use std::alloc::Global;

/// The bundles of documents.
///
/// # Errors
/// Only want of memory.
pub fn bundle_views<'w>(
    alloc: Global,
    bundles: &Bundles,
    documents: &'w [Contents],
) -> Result<Vec<BundleView<'w>>, OutOfMemory>
    ensures { IfOk result (λ views. views.items ≡ bundle_rows bundles.now.rows documents.entry.now) }
{
    let mut views = Vec::new(alloc);
    for contents in documents {
        views.push(view_with(contents, state_of(bundles, contents.bundle)))?;
    }
    Ok(views)
}

fn view_with<'w>(contents: &'w Contents, state: u32) -> BundleView<'w>
    ensures { result ≡ record { id = contents.entry.now.bundle; state = state; descriptions = contents.entry.now.document.descriptions; enabled = contents.entry.now.enabled } }
{
    BundleView::of(
        contents.bundle,
        state,
        contents.document.get().descriptions.as_slice(),
        contents.enabled.as_slice(),
    )
}

fn state_of(bundles: &Bundles, number: u64) -> u32
    ensures { result ≡ option_map_or (λ (b : BundleLife). state_number b.state) (bundle_of bundles.now.rows number) 0 }
{
    match bundles.bundle(number) {
        Some(bundle) => bundle.state.number(),
        None => 0,
    }
}

/// The bundles of documents, one of them in another state.
///
/// # Errors
/// Only want of memory.
pub fn bundle_views_with<'w>(
    alloc: Global,
    bundles: &Bundles,
    bundle: u64,
    state: BundleState,
    documents: &'w [Contents],
) -> Result<Vec<BundleView<'w>>, OutOfMemory>
    ensures { IfOk result (λ views. views.items ≡ bundle_rows (map (in_state bundle state) bundles.now.rows) documents.entry.now) }
{
    let mut views = Vec::new(alloc);
    for contents in documents {
        views.push(view_with(
            contents,
            state_then(bundles, bundle, state, contents.bundle),
        ))?;
    }
    Ok(views)
}

#[tactic(auto, using(crate::proofs::States::some_then, crate::proofs::States::none_then))]
fn state_then(bundles: &Bundles, bundle: u64, state: BundleState, number: u64) -> u32
    ensures { result ≡ option_map_or (λ (b : BundleLife). state_number b.state) (bundle_of (map (in_state bundle state) bundles.now.rows) number) 0 }
{
    match bundles.bundle(number) {
        Some(found) => number_then(found, bundle, state),
        None => 0,
    }
}

fn number_then(found: &BundleLife, bundle: u64, state: BundleState) -> u32
    ensures { result ≡ state_number (in_state bundle state found.now).state }
{
    if found.number == bundle {
        state.number()
    } else {
        found.state.number()
    }
}
