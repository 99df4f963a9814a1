//! A version with blanks round it, read byte by byte.
ghost use Rattle.std.specs.Prelude.{◌≡◌, IfOk};
ghost use Rattle.osgi_version.specs.VersionSteps.{version_step, version_at_end};

use crate::Version;
use crate::reading::Reading;
use prop_map::OutOfMemory;
use std::alloc::Global;

/// How far a version has been read.
#[derive(Drop)]
pub(crate) enum VersionReading {
    /// Blanks at most.
    Before,
    /// In the version.
    Inside(Reading),
    /// In the blanks behind it.
    Behind(Version),
}

impl VersionReading {
    /// With one more byte, or none where no version goes on with it.
    pub(crate) fn step(self, alloc: Global, byte: u8) -> Result<Option<VersionReading>, OutOfMemory>
        ensures { IfOk result (λ next. next ≡ version_step self byte) }
    {
        let is_blank = byte == b' ';
        match self {
            VersionReading::Before if is_blank => Ok(Some(VersionReading::Before)),
            VersionReading::Before => {
                Ok(
                    Reading::start()
                        .step(alloc, byte)?
                        .map(VersionReading::Inside),
                )
            }
            VersionReading::Inside(reading) if is_blank => {
                Ok(reading.version(alloc).map(VersionReading::Behind))
            }
            VersionReading::Inside(reading) => {
                Ok(reading.step(alloc, byte)?.map(VersionReading::Inside))
            }
            VersionReading::Behind(version) if is_blank => Ok(Some(VersionReading::Behind(
                version,
            ))),
            VersionReading::Behind(_) => Ok(None),
        }
    }

    /// The version, where it may end here.
    pub(crate) fn version(self, alloc: Global) -> Option<Version>
        ensures { result ≡ version_at_end self }
    {
        match self {
            VersionReading::Before => None,
            VersionReading::Inside(reading) => reading.version(alloc),
            VersionReading::Behind(version) => Some(version),
        }
    }
}
