//! What a clause says, and the clauses of a header (OSGi Core 8, section 3.2.4 "Common Header Syntax").
ghost use Rattle.bundle_wiring.specs.Faults.{Reads};
ghost use Rattle.bundle_wiring.specs.Wirings.{clauses_in, is_effective, is_optional, is_resolve, is_text, value_of};
ghost use Rattle.std.specs.Prelude.{◌≡◌, option_map};

use crate::WireFault;
use crate::texts::clauses_of;
use bundle_headers::{Clause, Clauses, Manifest};
use prop_map::{List, Str};
use std::alloc::Global;

/// The clauses of a header, none where it isn't there.
pub(crate) fn clauses_in(
    alloc: Global,
    manifest: &Manifest,
    header: &str,
) -> Result<Clauses, WireFault>
    ensures { Reads result (clauses_in manifest.now header.now) }
{
    match manifest.get(header) {
        Some(text) => clauses_of(alloc, text),
        None => Ok(Clauses {
            list: List::of(Vec::new(alloc)),
        }),
    }
}

/// The value of the first pair with this name. It takes no memory.
pub(crate) fn value_of<'p>(pairs: &'p [(Str, Str)], name: &str) -> Option<&'p str>
    ensures { option_map (λ v. v.now) result ≡ value_of pairs.now name.now }
{
    pairs
        .iter()
        .find(|pair| pair.0.as_str() == name)
        .map(|pair| pair.1.as_str())
}

/// Whether the bundle resolves without what the clause asks for.
pub(crate) fn is_optional(clause: &Clause) -> bool
    ensures { result ≡ is_optional clause.now }
{
    is_text(
        "optional",
        value_of(clause.directives.as_slice(), "resolution"),
    )
}

fn is_text(wanted: &str, text: Option<&str>) -> bool
    ensures { result ≡ is_text wanted.now (option_map (λ v. v.now) text.entry) }
{
    match text {
        Some(text) => text == wanted,
        None => false,
    }
}

/// Whether the clause is in effect when bundles resolve.
pub(crate) fn is_effective(clause: &Clause) -> bool
    ensures { result ≡ is_effective clause.now }
{
    is_resolve(value_of(clause.directives.as_slice(), "effective"))
}

fn is_resolve(text: Option<&str>) -> bool
    ensures { result ≡ is_resolve (option_map (λ v. v.now) text.entry) }
{
    match text {
        Some(text) => text == "resolve",
        None => true,
    }
}
