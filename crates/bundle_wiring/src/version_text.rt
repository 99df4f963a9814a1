//! A text compared with a version. It takes no memory for the version that the text spells.
ghost use Rattle.bundle_wiring.specs.Inside.{LiesWithin, after_dot, digit_step, qualifier_step, seen_step, seen_version, version_with, with_last};
ghost use Rattle.bundle_wiring.specs.Texts.{version_of};
ghost use Rattle.osgi_version.specs.Numbers.{with_digit};
ghost use Rattle.osgi_version.specs.Versions.{version_cmp};
ghost use Rattle.std.specs.Prelude.{◌≡◌, length, option_map};

use osgi_version::Version;
use std::cmp::Ordering;

const GREATEST_NUMBER: u32 = 2147483647;

/// The numbers of a version.
#[derive(Clone, Copy)]
pub(crate) struct Numbers {
    pub(crate) major: u32,
    pub(crate) minor: u32,
    pub(crate) micro: u32,
}

/// Which number of a version is read, and those before it.
#[derive(Clone, Copy)]
pub(crate) enum Before {
    Major,
    Minor(u32),
    Micro(u32, u32),
}

/// How far a version has been read, with the places of its qualifier in the text.
#[derive(Clone, Copy)]
pub(crate) enum Seen {
    /// Blanks at most.
    Blanks,
    /// A number has to begin.
    NumberDue(Before),
    /// A number that may be whole.
    Number(Before, u32),
    /// A qualifier has to begin.
    QualifierDue(Numbers),
    /// A qualifier from this place on, which may be whole.
    Qualifier(Numbers, usize),
    /// In the blanks behind a version, with the places where its qualifier begins and ends.
    Behind(Numbers, usize, usize),
}

/// How a version compares with the one that a text spells, if it spells one. It takes no memory.
pub(crate) fn version_order(version: &Version, text: &str) -> Option<Ordering>
    ensures { result ≡ option_map (version_cmp version.now) (version_of text.now) }
{
    let bytes = text.as_bytes();
    let mut seen = Seen::Blanks;
    for at in 0..bytes.len() {
        match seen_step(at, seen, bytes[at]) {
            Some(next) => seen = next,
            None => return None,
        }
    }
    order_at_end(version, bytes, seen)
}

fn seen_step(at: usize, seen: Seen, byte: u8) -> Option<Seen>
    ensures { result ≡ seen_step at seen byte }
{
    let is_blank = byte == b' ';
    match seen {
        Seen::Blanks if is_blank => Some(seen),
        Seen::Blanks => digit_step(Before::Major, 0, byte),
        Seen::NumberDue(_) if is_blank => None,
        Seen::NumberDue(before) => digit_step(before, 0, byte),
        Seen::Number(before, number) if is_blank => {
            Some(Seen::Behind(with_last(before, number), 0, 0))
        }
        Seen::Number(before, number) if byte == b'.' => Some(after_dot(before, number)),
        Seen::Number(before, number) => digit_step(before, number, byte),
        Seen::QualifierDue(_) if is_blank => None,
        Seen::QualifierDue(numbers) => qualifier_step(numbers, at, byte),
        Seen::Qualifier(numbers, start) if is_blank => Some(Seen::Behind(numbers, start, at)),
        Seen::Qualifier(numbers, start) => qualifier_step(numbers, start, byte),
        Seen::Behind(..) if is_blank => Some(seen),
        Seen::Behind(..) => None,
    }
}

fn with_last(before: Before, last: u32) -> Numbers
    ensures { result ≡ with_last before last }
{
    let (major, minor, micro) = match before {
        Before::Major => (last, 0, 0),
        Before::Minor(major) => (major, last, 0),
        Before::Micro(major, minor) => (major, minor, last),
    };
    Numbers {
        major,
        minor,
        micro,
    }
}

fn after_dot(before: Before, number: u32) -> Seen
    ensures { result ≡ after_dot before number }
{
    match before {
        Before::Major => Seen::NumberDue(Before::Minor(number)),
        Before::Minor(major) => Seen::NumberDue(Before::Micro(major, number)),
        Before::Micro(major, minor) => Seen::QualifierDue(Numbers {
            major,
            minor,
            micro: number,
        }),
    }
}

fn digit_step(before: Before, number: u32, byte: u8) -> Option<Seen>
    ensures { result ≡ digit_step before number byte }
{
    with_digit(number, byte).map(|longer| Seen::Number(before, longer))
}

fn with_digit(number: u32, byte: u8) -> Option<u32>
    ensures { result ≡ with_digit number byte }
{
    let digit = char::from(byte).to_digit(10)?;
    let longer = number.checked_mul(10)?.checked_add(digit)?;
    (longer <= GREATEST_NUMBER).then_some(longer)
}

fn qualifier_step(numbers: Numbers, start: usize, byte: u8) -> Option<Seen>
    ensures { result ≡ qualifier_step numbers start byte }
{
    if byte.is_ascii_alphanumeric() || byte == b'_' || byte == b'-' {
        Some(Seen::Qualifier(numbers, start))
    } else {
        None
    }
}

fn order_at_end(version: &Version, text: &[u8], seen: Seen) -> Option<Ordering>
    requires { LiesWithin (length text.now) seen }
    ensures { result ≡ option_map (version_cmp version.now) (seen_version text.now (length text.now) seen) }
{
    match seen {
        Seen::Blanks | Seen::NumberDue(_) | Seen::QualifierDue(_) => None,
        Seen::Number(before, last) => Some(order(version, with_last(before, last), b"")),
        Seen::Qualifier(numbers, start) => Some(order(version, numbers, &text[start..text.len()])),
        Seen::Behind(numbers, start, end) => Some(order(version, numbers, &text[start..end])),
    }
}

fn order(version: &Version, numbers: Numbers, qualifier: &[u8]) -> Ordering
    ensures { result ≡ version_cmp version.now (version_with numbers qualifier.now) }
{
    let by_numbers = version
        .major
        .cmp(&numbers.major)
        .then(version.minor.cmp(&numbers.minor))
        .then(version.micro.cmp(&numbers.micro));
    by_numbers.then(version.qualifier.as_str().as_bytes().cmp(qualifier))
}
