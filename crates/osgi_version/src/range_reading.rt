//! A range of versions, read byte by byte.
ghost use Rattle.std.specs.Prelude.{◌≡◌, IfOk};
ghost use Rattle.osgi_version.specs.RangeSteps.{at_least, between, bound, ceiling_step, first_step, floor_step, range_at_end, range_step};

use crate::reading::Reading;
use crate::{Bound, Version, VersionRange};
use prop_map::OutOfMemory;
use std::alloc::Global;

/// How far a range has been read.
#[derive(Drop)]
pub(crate) enum RangeReading {
    /// Blanks at most.
    Before,
    /// In a version without brackets.
    FloorAlone(Reading),
    /// In the version behind the opening bracket, which may stand for an inclusive floor.
    Floor(bool, Reading),
    /// In the blanks before the comma.
    CommaDue(Bound),
    /// Behind the comma, or in the blanks there.
    CeilingDue(Bound),
    /// In the version before the closing bracket.
    Ceiling(Bound, Reading),
    /// In the blanks behind the range.
    Behind(VersionRange),
}

impl RangeReading {
    /// With one more byte, or none where no range goes on with it.
    pub(crate) fn step(self, alloc: Global, byte: u8) -> Result<Option<RangeReading>, OutOfMemory>
        ensures { IfOk result (λ next. next ≡ range_step self byte) }
    {
        let is_blank = byte == b' ';
        match self {
            RangeReading::Before if is_blank => Ok(Some(RangeReading::Before)),
            RangeReading::Before => first_step(alloc, byte),
            RangeReading::FloorAlone(reading) if is_blank => {
                Ok(
                    reading
                        .version(alloc)
                        .map(|v| RangeReading::Behind(at_least(v))),
                )
            }
            RangeReading::FloorAlone(reading) => {
                Ok(reading.step(alloc, byte)?.map(RangeReading::FloorAlone))
            }
            RangeReading::Floor(inclusive, reading) => floor_step(alloc, inclusive, reading, byte),
            RangeReading::CommaDue(floor) if is_blank => Ok(Some(RangeReading::CommaDue(floor))),
            RangeReading::CommaDue(floor) if byte == b',' => {
                Ok(Some(RangeReading::CeilingDue(floor)))
            }
            RangeReading::CommaDue(_) => Ok(None),
            RangeReading::CeilingDue(floor) if is_blank => {
                Ok(Some(RangeReading::CeilingDue(floor)))
            }
            RangeReading::CeilingDue(floor) => {
                Ok(
                    Reading::start()
                        .step(alloc, byte)?
                        .map(|r| RangeReading::Ceiling(floor, r)),
                )
            }
            RangeReading::Ceiling(floor, reading) => ceiling_step(alloc, floor, reading, byte),
            RangeReading::Behind(range) if is_blank => Ok(Some(RangeReading::Behind(range))),
            RangeReading::Behind(_) => Ok(None),
        }
    }

    /// The range, where it may end here.
    pub(crate) fn range(self, alloc: Global) -> Option<VersionRange>
        ensures { result ≡ range_at_end self }
    {
        match self {
            RangeReading::FloorAlone(reading) => reading.version(alloc).map(at_least),
            RangeReading::Behind(range) => Some(range),
            _ => None,
        }
    }
}

fn at_least(version: Version) -> VersionRange
    ensures { result ≡ at_least version }
{
    VersionRange {
        floor: Bound {
            version,
            inclusive: true,
        },
        ceiling: None,
    }
}

fn between(floor: Bound, inclusive: bool, version: Version) -> VersionRange
    ensures { result ≡ between floor inclusive version }
{
    VersionRange {
        floor,
        ceiling: Some(Bound { version, inclusive }),
    }
}

fn first_step(alloc: Global, byte: u8) -> Result<Option<RangeReading>, OutOfMemory>
    ensures { IfOk result (λ next. next ≡ first_step byte) }
{
    let reading = Reading::start();
    match byte {
        b'[' => Ok(Some(RangeReading::Floor(true, reading))),
        b'(' => Ok(Some(RangeReading::Floor(false, reading))),
        _ => Ok(reading.step(alloc, byte)?.map(RangeReading::FloorAlone)),
    }
}

fn floor_step(
    alloc: Global,
    inclusive: bool,
    reading: Reading,
    byte: u8,
) -> Result<Option<RangeReading>, OutOfMemory>
    ensures { IfOk result (λ next. next ≡ floor_step inclusive reading byte) }
{
    match byte {
        b' ' => Ok(
            reading.version(alloc).map(|version| RangeReading::CommaDue(Bound {
                version,
                inclusive,
            })),
        ),
        b',' => Ok(
            reading.version(alloc).map(|version| RangeReading::CeilingDue(Bound {
                version,
                inclusive,
            })),
        ),
        _ => Ok(
            reading
                .step(alloc, byte)?
                .map(|r| RangeReading::Floor(inclusive, r)),
        ),
    }
}

fn ceiling_step(
    alloc: Global,
    floor: Bound,
    reading: Reading,
    byte: u8,
) -> Result<Option<RangeReading>, OutOfMemory>
    ensures { IfOk result (λ next. next ≡ ceiling_step floor reading byte) }
{
    match byte {
        b']' => Ok(
            reading
                .version(alloc)
                .map(|v| RangeReading::Behind(between(floor, true, v))),
        ),
        b')' => Ok(
            reading
                .version(alloc)
                .map(|v| RangeReading::Behind(between(floor, false, v))),
        ),
        _ => Ok(
            reading
                .step(alloc, byte)?
                .map(|r| RangeReading::Ceiling(floor, r)),
        ),
    }
}
