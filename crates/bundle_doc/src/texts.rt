//! Versions and clauses, with what they are as a function of the text.
ghost use Rattle.std.specs.Prelude.{◌≡◌, ◌↔◌, ℕ, List, Some, IfOk};
ghost use Rattle.bundle_headers.specs.Clauses.{SpellsClauses};
ghost use Rattle.bundle_headers.specs.declared.clauses.Clauses.{Clauses};
ghost use Rattle.osgi_version.specs.Readings.{ReadsAs};
ghost use Rattle.osgi_version.specs.Versions.{SpellsVersion};
ghost use Rattle.bundle_doc.specs.Faults.{Reads};
ghost use Rattle.bundle_doc.specs.Headers.{with_version_fault};
ghost use Rattle.bundle_doc.specs.Texts.{clauses_of, version_of};

use crate::DocFault;
use bundle_headers::{Clauses, HeaderFault};
use osgi_version::{Version, VersionFault};
use prop_map::OutOfMemory;
use std::alloc::{AllocError, Global};

/// For contracts alone: the function that stands for versions gives the one version that a text spells, or the length of
/// the text's longest prefix that some version continues.
pub fn note_versions()
    ensures { (text : List ℕ) → ReadsAs SpellsVersion text (version_of text) }
{}

/// For contracts alone: the function that stands for clauses gives the clauses that a text spells, and none where it
/// spells none.
pub fn note_clauses()
    ensures { (text : List ℕ) (clauses : Clauses) → SpellsClauses text clauses ↔ (clauses_of text ≡ Some clauses) }
{}

pub(crate) fn version_of(alloc: Global, text: &str) -> Result<Version, DocFault>
    ensures { Reads result (with_version_fault (version_of text.now)) }
{
    match Version::parse(alloc, text) {
        Ok(version) => Ok(version),
        Err(VersionFault::BadVersion { at }) => Err(DocFault::Header {
            fault: HeaderFault::BadVersion { at },
        }),
        Err(VersionFault::OutOfMemory) => Err(DocFault::OutOfMemory),
    }
}

pub(crate) fn clauses_of(alloc: Global, text: &str) -> Result<Option<Clauses>, OutOfMemory>
    ensures { IfOk result (λ clauses. clauses ≡ clauses_of text.now) }
{
    match Clauses::parse(alloc, text) {
        Ok(clauses) => Ok(Some(clauses)),
        Err(HeaderFault::BadClause { .. }) => Ok(None),
        Err(_) => Err(AllocError),
    }
}
