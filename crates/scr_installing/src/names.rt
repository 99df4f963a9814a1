//! Whether a document's symbolic name and version are another bundle's (that one may not have them too is our own).
ghost use Rattle.bundle_life.specs.Lives.{namesake};
ghost use Rattle.bundle_life.specs.declared.bundle.BundleLife.{BundleLife};
ghost use Rattle.std.specs.Prelude.{◌≡◌, option_map};

use bundle_doc::BundleDoc;
use bundle_life::Bundles;

/// The first bundle but one that has a document's symbolic name and version.
pub(crate) fn namesake(bundles: &Bundles, doc: &BundleDoc, but: u64) -> Option<u64>
    ensures { result ≡ option_map (λ (b : BundleLife). b.number) (namesake doc.now.name doc.now.version but bundles.now.rows) }
{
    bundles
        .namesake(doc.name.as_str(), &doc.version, but)
        .map(|bundle| bundle.number)
}
