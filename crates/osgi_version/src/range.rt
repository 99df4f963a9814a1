//! Ranges of versions.
ghost use Rattle.std.specs.Prelude.{◌≡◌};
ghost use Rattle.osgi_version.specs.Readings.{ReadsAs};
ghost use Rattle.osgi_version.specs.Ranges.{SpellsRange, includes};

use crate::range_reading::RangeReading;
use crate::{Version, VersionFault};
use prop_map::{Copies, OutOfMemory};
use std::alloc::Global;

/// An end of a range.
#[derive(Debug, Drop, PartialEq, Eq)]
pub struct Bound {
    /// The version at the end.
    pub version: Version,
    /// Whether that version itself is in the range.
    pub inclusive: bool,
}

/// The versions from a floor on, up to a ceiling if there is one.
#[derive(Debug, Drop, PartialEq, Eq)]
pub struct VersionRange {
    /// The lower end.
    pub floor: Bound,
    /// The upper end.
    pub ceiling: Option<Bound>,
}

impl VersionRange {
    /// Reads a range: two versions in brackets, or one version, from which on all are included (OSGi Core 8, section
    /// 3.2.6). A round bracket leaves its version out. Blanks may stand round the whole and round the comma. A range
    /// whose floor is above its ceiling is read, and includes nothing.
    ///
    /// # Errors
    /// `BadVersion` exactly where the text spells no range, with the length of its longest prefix that some range
    /// continues.
    pub fn parse(alloc: Global, text: &str) -> Result<VersionRange, VersionFault>
        ensures { ReadsAs SpellsRange text.now result }
    {
        let mut reading = RangeReading::Before;
        for (at, byte) in text.as_bytes().iter().enumerate() {
            match reading.step(alloc, *byte)? {
                Some(next) => reading = next,
                None => return Err(VersionFault::BadVersion { at }),
            }
        }
        match reading.range(alloc) {
            Some(range) => Ok(range),
            None => Err(VersionFault::BadVersion { at: text.len() }),
        }
    }

    /// Whether the version is above the floor and below the ceiling, or at an end that is inclusive. It takes no memory.
    pub fn includes(&self, version: &Version) -> bool
        ensures { result ≡ includes self.now version.now }
    {
        let above = if self.floor.inclusive {
            self.floor.version <= *version
        } else {
            self.floor.version < *version
        };
        let below = match &self.ceiling {
            None => true,
            Some(ceiling) if ceiling.inclusive => *version <= ceiling.version,
            Some(ceiling) => *version < ceiling.version,
        };
        above && below
    }
}

impl Copies for Bound {
    fn copy(&self, alloc: Global) -> Result<Bound, OutOfMemory> {
        Ok(Bound {
            version: self.version.copy(alloc)?,
            inclusive: self.inclusive,
        })
    }
}

impl Copies for VersionRange {
    fn copy(&self, alloc: Global) -> Result<VersionRange, OutOfMemory> {
        Ok(VersionRange {
            floor: self.floor.copy(alloc)?,
            ceiling: self.ceiling.copy(alloc)?,
        })
    }
}
