//! A version, read byte by byte.
ghost use Rattle.std.specs.Prelude.{◌≡◌, ◌<◌, ◌≤◌, IfOk, OnOk, IfSome};
ghost use Rattle.osgi_version.specs.Numbers.{with_digit};
ghost use Rattle.osgi_version.specs.Steps.{after_dot, plain_step, version_of, with_last, with_qualifier_byte};
ghost use Rattle.osgi_version.specs.VersionSteps.{plain_start};

use crate::Version;
use prop_map::OutOfMemory;
use std::alloc::Global;

const GREATEST_NUMBER: u32 = 2147483647;

/// The numbers that stand before the one that is read.
#[derive(Clone, Copy)]
pub(crate) enum Earlier {
    Nothing,
    Major(u32),
    MajorMinor(u32, u32),
}

impl Earlier {
    fn with_last(self, alloc: Global, last: u32) -> Version
        ensures { result ≡ with_last self last }
    {
        match self {
            Earlier::Nothing => Version::of_numbers(alloc, last, 0, 0),
            Earlier::Major(major) => Version::of_numbers(alloc, major, last, 0),
            Earlier::MajorMinor(major, minor) => Version::of_numbers(alloc, major, minor, last),
        }
    }
}

/// How far a version without blanks round it has been read.
#[derive(Drop)]
pub(crate) enum Reading {
    /// A number has to begin.
    NumberDue(Earlier),
    /// A number that may be whole.
    Number(Earlier, u32),
    /// A qualifier has to begin.
    QualifierDue(Version),
    /// A qualifier that may be whole.
    Qualifier(Version),
}

impl Reading {
    pub(crate) fn start() -> Reading
        ensures { result ≡ plain_start }
    {
        Reading::NumberDue(Earlier::Nothing)
    }

    /// With one more byte, or none where no version goes on with it.
    pub(crate) fn step(self, alloc: Global, byte: u8) -> Result<Option<Reading>, OutOfMemory>
        ensures { IfOk result (λ next. next ≡ plain_step self byte) }
    {
        match self {
            Reading::NumberDue(earlier) => {
                Ok(with_digit(0, byte).map(|number| Reading::Number(earlier, number)))
            }
            Reading::Number(earlier, number) if byte == b'.' => {
                Ok(Some(after_dot(alloc, earlier, number)))
            }
            Reading::Number(earlier, number) => {
                Ok(with_digit(number, byte).map(|number| Reading::Number(earlier, number)))
            }
            Reading::QualifierDue(version) | Reading::Qualifier(version) => {
                with_qualifier_byte(version, byte)
            }
        }
    }

    /// The version, where it may end here.
    pub(crate) fn version(self, alloc: Global) -> Option<Version>
        ensures { result ≡ version_of self }
    {
        match self {
            Reading::NumberDue(_) | Reading::QualifierDue(_) => None,
            Reading::Number(earlier, last) => Some(earlier.with_last(alloc, last)),
            Reading::Qualifier(version) => Some(version),
        }
    }
}

fn with_digit(number: u32, byte: u8) -> Option<u32>
    ensures { result ≡ with_digit number byte }
{
    let digit = char::from(byte).to_digit(10)?;
    let longer = number.checked_mul(10)?.checked_add(digit)?;
    (longer <= GREATEST_NUMBER).then_some(longer)
}

fn after_dot(alloc: Global, earlier: Earlier, number: u32) -> Reading
    ensures { result ≡ after_dot earlier number }
{
    match earlier {
        Earlier::Nothing => Reading::NumberDue(Earlier::Major(number)),
        Earlier::Major(major) => Reading::NumberDue(Earlier::MajorMinor(major, number)),
        Earlier::MajorMinor(major, minor) => {
            Reading::QualifierDue(Version::of_numbers(alloc, major, minor, number))
        }
    }
}

fn with_qualifier_byte(mut version: Version, byte: u8) -> Result<Option<Reading>, OutOfMemory>
    ensures { IfOk result (λ next. next ≡ with_qualifier_byte version byte) }
{
    if byte.is_ascii_alphanumeric() || byte == b'_' || byte == b'-' {
        version.qualifier.push(byte)?;
        Ok(Some(Reading::Qualifier(version)))
    } else {
        Ok(None)
    }
}
