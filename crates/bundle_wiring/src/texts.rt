//! The texts of a manifest, with what they are as a function of the text.
ghost use Rattle.bundle_headers.specs.Clauses.{SpellsClauses};
ghost use Rattle.bundle_wiring.specs.Faults.{Reads, fault_at};
ghost use Rattle.bundle_wiring.specs.Readings.{IsReading};
ghost use Rattle.bundle_wiring.specs.Texts.{clauses_reading, range_reading, version_reading};
ghost use Rattle.bundle_wiring.specs.declared.fault.WireFault.TheVariants.{BadClause, BadFilter, BadVersion};
ghost use Rattle.ldap_filter.specs.Texts.{reading as filter_reading};
ghost use Rattle.osgi_version.specs.Ranges.{SpellsRange};
ghost use Rattle.osgi_version.specs.Versions.{SpellsVersion};
ghost use Rattle.std.specs.Prelude.{ℕ, List};

use crate::WireFault;
use bundle_headers::{Clauses, HeaderFault};
use ldap_filter::{Filter, FilterFault};
use osgi_version::{Version, VersionFault, VersionRange};
use std::alloc::Global;

/// For contracts alone: the functions that stand for versions, ranges and clauses give the one value that a text spells,
/// or the length of the text's longest beginning that some version, range or list of clauses has too.
pub fn note_texts()
    ensures versions { (text : List ℕ) → IsReading SpellsVersion text (version_reading text) }
    ensures ranges { (text : List ℕ) → IsReading SpellsRange text (range_reading text) }
    ensures clauses { (text : List ℕ) → IsReading SpellsClauses text (clauses_reading text) }
{}

pub(crate) fn clauses_of(alloc: Global, text: &str) -> Result<Clauses, WireFault>
    ensures { Reads result (fault_at BadClause (clauses_reading text.now)) }
{
    match Clauses::parse(alloc, text) {
        Ok(clauses) => Ok(clauses),
        Err(HeaderFault::BadClause { at }) => Err(WireFault::BadClause { at }),
        Err(_) => Err(WireFault::OutOfMemory),
    }
}

pub(crate) fn version_of(alloc: Global, text: &str) -> Result<Version, WireFault>
    ensures { Reads result (fault_at BadVersion (version_reading text.now)) }
{
    match Version::parse(alloc, text) {
        Ok(version) => Ok(version),
        Err(VersionFault::BadVersion { at }) => Err(WireFault::BadVersion { at }),
        Err(VersionFault::OutOfMemory) => Err(WireFault::OutOfMemory),
    }
}

pub(crate) fn range_of(alloc: Global, text: &str) -> Result<VersionRange, WireFault>
    ensures { Reads result (fault_at BadVersion (range_reading text.now)) }
{
    match VersionRange::parse(alloc, text) {
        Ok(range) => Ok(range),
        Err(VersionFault::BadVersion { at }) => Err(WireFault::BadVersion { at }),
        Err(VersionFault::OutOfMemory) => Err(WireFault::OutOfMemory),
    }
}

pub(crate) fn filter_of(alloc: Global, text: &str) -> Result<Filter, WireFault>
    ensures { Reads result (fault_at BadFilter (filter_reading text.now)) }
{
    match Filter::parse(alloc, text) {
        Ok(filter) => Ok(filter),
        Err(FilterFault::BadFilter { at, .. }) => Err(WireFault::BadFilter { at }),
        Err(FilterFault::TooDeep { at }) => Err(WireFault::BadFilter { at }),
        Err(FilterFault::OutOfMemory) => Err(WireFault::OutOfMemory),
    }
}
