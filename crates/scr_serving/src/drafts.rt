//! The tables that a command for services changes.
ghost use Rattle.scr_judgements.specs.Drafting.{no_tables};
ghost use Rattle.std.specs.Prelude.{◌≡◌, Some};

use scr_judgements::TablesAfter;
use service_registry::Registry;
use use_counts::UseCounts;

/// The direct services change alone.
pub(crate) fn services_after(registry: Registry) -> TablesAfter
    ensures { result ≡ record no_tables { registry = Some registry } }
{
    TablesAfter {
        documents: None,
        registry: Some(registry),
        configurations: None,
        uses: None,
        descriptions: None,
        levels: None,
    }
}

/// The gets change alone.
pub(crate) fn uses_after(uses: UseCounts) -> TablesAfter
    ensures { result ≡ record no_tables { uses = Some uses } }
{
    TablesAfter {
        documents: None,
        registry: None,
        configurations: None,
        uses: Some(uses),
        descriptions: None,
        levels: None,
    }
}
