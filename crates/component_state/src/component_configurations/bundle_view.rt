//! A bundle as its component configurations are made of it.
ghost use Rattle.component_state.specs.declared.rows.BundleRow.{BundleRow};
ghost use Rattle.std.specs.Prelude.{◌≡◌, ◌==◌, IfOk};

use crate::BundleRow;
use component_dto::Description;
use prop_map::OutOfMemory;
use std::alloc::Global;
use std::marker::Model;

/// A bundle with its descriptions and whether each is enabled, all borrowed. Contracts see a `BundleRow`.
#[derive(Drop)]
pub struct BundleView<'b> {
    id: u64,
    state: u32,
    descriptions: &'b [Description],
    enabled: &'b [bool],
}

impl<'b> Model for BundleView<'b> {
    ghost use Rattle.component_state.specs.declared.rows.BundleRow.{BundleRow};

    ghost Value = { BundleRow };

    ghost view = { λ b. record { id = b.id; state = b.state; descriptions = b.descriptions.now; enabled = b.enabled.now } };
}

impl<'b> BundleView<'b> {
    /// The bundle of a number, with the number of its state, the descriptions of its document in their order, and which
    /// of them are enabled.
    pub fn of(
        id: u64,
        state: u32,
        descriptions: &'b [Description],
        enabled: &'b [bool],
    ) -> BundleView<'b>
        ensures { result ≡ record { id = id; state = state; descriptions = descriptions.entry.now; enabled = enabled.entry.now } }
    {
        BundleView {
            id,
            state,
            descriptions,
            enabled,
        }
    }

    /// Its number.
    pub(crate) fn id(&self) -> u64
        ensures { result ≡ self.now.id }
    {
        self.id
    }

    /// It is ACTIVE.
    pub(crate) fn is_active_bundle(&self) -> bool
        ensures { result ≡ (self.now.state == 32) }
    {
        self.state == 32
    }

    /// The descriptions of its document.
    pub(crate) fn descriptions(&self) -> &'b [Description]
        ensures { result.now ≡ self.now.descriptions }
    {
        self.descriptions
    }

    /// Which of them are enabled.
    pub(crate) fn enabled(&self) -> &'b [bool]
        ensures { result.now ≡ self.now.enabled }
    {
        self.enabled
    }
}

/// The bundles of these rows.
///
/// # Errors
/// Only want of memory.
pub(crate) fn bundle_views<'d>(
    alloc: Global,
    bundles: &'d [BundleRow],
) -> Result<Vec<BundleView<'d>>, OutOfMemory>
    ensures { IfOk result (λ views. views.items ≡ bundles.entry.now) }
{
    let mut views = Vec::new(alloc);
    for bundle in bundles {
        views.push(BundleView::of(
            bundle.id,
            bundle.state,
            bundle.descriptions.as_slice(),
            bundle.enabled.as_slice(),
        ))?;
    }
    Ok(views)
}
