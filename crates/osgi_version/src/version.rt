//! A version.
ghost use Rattle.std.specs.Prelude.{◌≡◌, ℕ, List, [], IfOk, string_bytes};
ghost use Rattle.osgi_version.specs.Readings.{ReadsAs};
ghost use Rattle.osgi_version.specs.declared.version.Version.{Version};
ghost use Rattle.osgi_version.specs.Versions.{SpellsVersion, empty_version, version_text, IsVersion};

use crate::version_reading::VersionReading;
use crate::{Qualifier, VersionFault};
use prop_map::{Copies, OutOfMemory};
use std::alloc::Global;

/// A version: three numbers, and a qualifier that may be empty. Versions are ordered by their numbers from the first
/// on, and then by the bytes of their qualifiers.
#[derive(Debug, Drop, PartialEq, Eq, PartialOrd, Ord)]
pub struct Version {
    /// At most 2147483647 in a version that was read.
    pub major: u32,
    /// At most 2147483647 in a version that was read.
    pub minor: u32,
    /// At most 2147483647 in a version that was read.
    pub micro: u32,
    /// Letters, digits, `_` and `-` in a version that was read.
    pub qualifier: Qualifier,
}

impl Version {
    /// Reads a version: one to three numbers and perhaps a qualifier, with dots between them and blanks round the
    /// whole (OSGi Core 8, section 3.2.5). What is left out is 0 or empty.
    ///
    /// # Errors
    /// `BadVersion` exactly where the text spells no version, with the length of its longest prefix that some version
    /// continues.
    pub fn parse(alloc: Global, text: &str) -> Result<Version, VersionFault>
        ensures { ReadsAs SpellsVersion text.now result }
    {
        let mut reading = VersionReading::Before;
        for (at, byte) in text.as_bytes().iter().enumerate() {
            match reading.step(alloc, *byte)? {
                Some(next) => reading = next,
                None => return Err(VersionFault::BadVersion { at }),
            }
        }
        match reading.version(alloc) {
            Some(version) => Ok(version),
            None => Err(VersionFault::BadVersion { at: text.len() }),
        }
    }

    /// The version 0.0.0. It takes no memory.
    pub fn empty(alloc: Global) -> Version
        ensures { result ≡ empty_version }
    {
        Version::of_numbers(alloc, 0, 0, 0)
    }

    /// The canonical spelling: three numbers without zeros before them, and the qualifier if there is one.
    ///
    /// # Errors
    /// Only want of memory.
    pub fn text(&self, alloc: Global) -> Result<String, OutOfMemory>
        ensures { IfOk result (λ text. string_bytes text ≡ version_text self.now) }
    {
        let mut text = format!(in alloc; "{}.{}.{}", self.major, self.minor, self.micro)?;
        if !self.qualifier.as_str().is_empty() {
            text.push('.')?;
            text.push_str(self.qualifier.as_str())?;
        }
        Ok(text)
    }

    pub(crate) fn of_numbers(alloc: Global, major: u32, minor: u32, micro: u32) -> Version
        ensures { result ≡ record { major = major; minor = minor; micro = micro; qualifier = [] } }
    {
        Version {
            major,
            minor,
            micro,
            qualifier: Qualifier::empty(alloc),
        }
    }
}

/// Two laws. A version that some text spells has numbers up to 2147483647 and a qualifier of letters, digits, `_` and
/// `-`. The canonical spelling of such a version spells it.
pub fn canonical_text_is_read()
    ensures of_spelled { (text : List ℕ) (v : Version) → SpellsVersion text v → IsVersion v }
    ensures read_again { (v : Version) → IsVersion v → SpellsVersion (version_text v) v }
{}

impl Copies for Version {
    fn copy(&self, alloc: Global) -> Result<Version, OutOfMemory> {
        Ok(Version {
            major: self.major,
            minor: self.minor,
            micro: self.micro,
            qualifier: self.qualifier.copy(alloc)?,
        })
    }
}
