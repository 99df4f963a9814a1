//! Where in a chunked body the bytes so far end, followed byte by byte.
ghost use Rattle.std.specs.Prelude.{◌≡◌, ◌∷◌, ◌++◌, [], ◌≤◌, true, List, ℕ, length, IfSome, IsTrue};
ghost use Rattle.std.specs.Char.{is_ascii_hexdigit, digit_value};
ghost use Rattle.http_wire.specs.ChunkedBody.{IsLessBody};
ghost use Rattle.http_wire.specs.ChunkPlaces.{gained, Steps, EndsAt, IsFollowed, LacksFrom};

use crate::chunk_needs::MOST_FRAMING;
use httparse::{is_header_value_token, is_method_token, is_space_or_tab};

const LARGEST: u64 = 65536;

const MOST_DIGITS: u32 = 16;

/// Where the bytes end.
#[derive(Clone, Copy)]
pub(crate) enum Place {
    /// Behind so many digits of a chunk line, which give this number.
    Digits(u32, u64),
    /// In the blanks behind the digits of a size.
    Blanks(u64),
    /// In the extension of a line with this size.
    Extension(u64),
    /// Between CR and LF of a line with this size.
    LineFeed(u64),
    /// In a chunk of which so many bytes are left, one at least.
    Chunk(u64),
    /// Behind the bytes of a chunk.
    ChunkEnd,
    /// Between CR and LF behind a chunk.
    ChunkFeed,
    /// Where a trailer or the last line begins.
    Trailer,
    /// In the name of a trailer.
    Name,
    /// In the value of a trailer.
    Value,
    /// Between CR and LF of a trailer.
    ValueFeed,
    /// Between CR and LF of the last line.
    LastFeed,
    /// Anywhere: in no body, at the end of one, or in one that is too large.
    Unknown,
}

/// Where the bytes end, and how many bytes of content there are up to there.
#[derive(Clone, Copy)]
pub(crate) struct Reached {
    pub(crate) place: Place,
    pub(crate) size: u64,
}

/// Before the first byte.
pub(crate) fn begin() -> Reached
    ensures { EndsAt [] result }
{
    Reached {
        place: Place::Digits(0, 0),
        size: 0,
    }
}

// Nothing is known.
fn lost() -> Reached
    ensures { (bytes : List ℕ) → EndsAt bytes result }
{
    Reached {
        place: Place::Unknown,
        size: 0,
    }
}

fn hex_digit(byte: u8) -> Option<u64>
    ensures { IfSome result (λ d. (is_ascii_hexdigit byte ≡ true) × (d ≡ digit_value byte)) }
{
    match byte {
        b'0'..=b'9' => Some(u64::from(byte - b'0')),
        b'A'..=b'F' => Some(u64::from(byte - b'A') + 10),
        b'a'..=b'f' => Some(u64::from(byte - b'a') + 10),
        _ => None,
    }
}

fn after_blank(size: u64, byte: u8) -> Place
    ensures { Steps (Place.Blanks size) byte result }
{
    if is_space_or_tab(byte) {
        return Place::Blanks(size);
    }
    match byte {
        b';' => Place::Extension(size),
        b'\r' => Place::LineFeed(size),
        _ => Place::Unknown,
    }
}

#[tactic(auto, using(crate::proofs::ChunkPlacesLemmas::blank_after_digit))]
fn after_digit(count: u32, number: u64, byte: u8) -> Place
    ensures { Steps (Place.Digits count number) byte result }
{
    match hex_digit(byte) {
        Some(digit) => {
            if count >= MOST_DIGITS || number >= 1 << 60 {
                return Place::Unknown;
            }
            Place::Digits(count + 1, number * 16 + digit)
        }
        None => {
            if count == 0 || count > MOST_DIGITS {
                return Place::Unknown;
            }
            after_blank(number, byte)
        }
    }
}

fn after_extension(size: u64, byte: u8) -> Place
    ensures { Steps (Place.Extension size) byte result }
{
    match byte {
        b'\r' => Place::LineFeed(size),
        b'\n' => Place::Unknown,
        _ => Place::Extension(size),
    }
}

fn after_line(size: u64, byte: u8) -> Place
    ensures { Steps (Place.LineFeed size) byte result }
{
    if byte != b'\n' {
        return Place::Unknown;
    }
    if size == 0 {
        Place::Trailer
    } else {
        Place::Chunk(size)
    }
}

fn after_content(left: u64, byte: u8) -> Place
    ensures { Steps (Place.Chunk left) byte result }
{
    match left {
        0 => Place::Unknown,
        1 => Place::ChunkEnd,
        _ => Place::Chunk(left - 1),
    }
}

fn after_chunk(byte: u8) -> Place
    ensures { Steps Place.ChunkEnd byte result }
{
    if byte == b'\r' {
        Place::ChunkFeed
    } else {
        Place::Unknown
    }
}

fn after_chunk_feed(byte: u8) -> Place
    ensures { Steps Place.ChunkFeed byte result }
{
    if byte == b'\n' {
        Place::Digits(0, 0)
    } else {
        Place::Unknown
    }
}

fn after_trailer(byte: u8) -> Place
    ensures { Steps Place.Trailer byte result }
{
    if byte == b'\r' {
        return Place::LastFeed;
    }
    if is_method_token(byte) {
        Place::Name
    } else {
        Place::Unknown
    }
}

fn after_name(byte: u8) -> Place
    ensures { Steps Place.Name byte result }
{
    if byte == b':' {
        return Place::Value;
    }
    if is_method_token(byte) {
        Place::Name
    } else {
        Place::Unknown
    }
}

fn after_value(byte: u8) -> Place
    ensures { Steps Place.Value byte result }
{
    match byte {
        b'\n' => return Place::Trailer,
        b'\r' => return Place::ValueFeed,
        _ => {}
    }
    if is_header_value_token(byte) {
        Place::Value
    } else {
        Place::Unknown
    }
}

fn after_value_feed(byte: u8) -> Place
    ensures { Steps Place.ValueFeed byte result }
{
    if byte == b'\n' {
        Place::Trailer
    } else {
        Place::Unknown
    }
}

fn next_place(place: Place, byte: u8) -> Place
    ensures { Steps place byte result }
{
    match place {
        Place::Digits(count, number) => after_digit(count, number, byte),
        Place::Blanks(size) => after_blank(size, byte),
        Place::Extension(size) => after_extension(size, byte),
        Place::LineFeed(size) => after_line(size, byte),
        Place::Chunk(left) => after_content(left, byte),
        Place::ChunkEnd => after_chunk(byte),
        Place::ChunkFeed => after_chunk_feed(byte),
        Place::Trailer => after_trailer(byte),
        Place::Name => after_name(byte),
        Place::Value => after_value(byte),
        Place::ValueFeed => after_value_feed(byte),
        Place::LastFeed | Place::Unknown => Place::Unknown,
    }
}

// How many bytes of content the next byte is: one in a chunk.
fn gain(place: Place) -> u64
    ensures is { (b : ℕ) → length (gained place b) ≡ result }
    ensures small { result ≤ 1 }
{
    match place {
        Place::Chunk(_) => 1,
        _ => 0,
    }
}

fn after(reached: Reached, byte: u8) -> Reached
    ensures { (bytes : List ℕ) → EndsAt bytes reached → EndsAt (bytes ++ byte ∷ []) result }
{
    if reached.size > LARGEST {
        return lost();
    }
    let place = next_place(reached.place, byte);
    let gained = gain(reached.place);
    Reached {
        place,
        size: reached.size + gained,
    }
}

/// Where the bytes end behind these.
pub(crate) fn walk(from: Reached, bytes: &[u8]) -> Reached
    ensures { (front : List ℕ) → EndsAt front from → EndsAt (front ++ bytes.now) result }
{
    let mut reached = from;
    for byte in bytes {
        let next = after(reached, *byte);
        reached = next;
    }
    reached
}

// How many bytes may follow a chunk line of this size, and complete the body within the limits.
fn behind_line(size: u64) -> Option<u64>
    ensures { IfSome result (λ count. (count ≤ 65542) × IsFollowed size count) }
{
    if size > LARGEST {
        return None;
    }
    if size == 0 { Some(1) } else { Some(size + 6) }
}

fn digits_lack(count: u32, number: u64) -> Option<(u64, u64)>
    ensures { IfSome result (λ r. LacksFrom (Place.Digits count number) r.0 r.1) }
{
    if count > MOST_DIGITS {
        return None;
    }
    if count == 0 {
        if number == 0 {
            return Some((4, 0));
        }
        return None;
    }
    let behind = behind_line(number)?;
    Some((behind + 2, number))
}

fn blanks_lack(size: u64) -> Option<(u64, u64)>
    ensures { IfSome result (λ r. LacksFrom (Place.Blanks size) r.0 r.1) }
{
    let behind = behind_line(size)?;
    Some((behind + 2, size))
}

fn extension_lacks(size: u64) -> Option<(u64, u64)>
    ensures { IfSome result (λ r. LacksFrom (Place.Extension size) r.0 r.1) }
{
    let behind = behind_line(size)?;
    Some((behind + 2, size))
}

fn line_feed_lacks(size: u64) -> Option<(u64, u64)>
    ensures { IfSome result (λ r. LacksFrom (Place.LineFeed size) r.0 r.1) }
{
    let behind = behind_line(size)?;
    Some((behind + 1, size))
}

fn chunk_lacks(left: u64) -> Option<(u64, u64)>
    ensures { IfSome result (λ r. LacksFrom (Place.Chunk left) r.0 r.1) }
{
    if left > LARGEST {
        return None;
    }
    Some((left + 6, left))
}

// How many bytes complete the body from this place, with how much further content, if that is known.
fn lacking(place: Place) -> Option<(u64, u64)>
    ensures { IfSome result (λ r. LacksFrom place r.0 r.1) }
{
    match place {
        Place::Digits(count, number) => digits_lack(count, number),
        Place::Blanks(size) => blanks_lack(size),
        Place::Extension(size) => extension_lacks(size),
        Place::LineFeed(size) => line_feed_lacks(size),
        Place::Chunk(left) => chunk_lacks(left),
        Place::ChunkEnd => Some((6, 0)),
        Place::ChunkFeed => Some((5, 0)),
        Place::Trailer => Some((1, 0)),
        Place::Name => Some((3, 0)),
        Place::Value => Some((2, 0)),
        Place::ValueFeed => Some((2, 0)),
        Place::LastFeed => Some((1, 0)),
        Place::Unknown => None,
    }
}

/// Whether so many bytes that end there are surely less than a body within the limits.
pub(crate) fn is_surely_less(reached: Reached, count: usize) -> bool
    ensures { IsTrue result → (bytes : List ℕ) → length bytes ≡ count → EndsAt bytes reached → IsLessBody bytes }
{
    match lacking(reached.place) {
        None => false,
        Some((lacking, size)) => {
            count <= MOST_FRAMING
                && lacking <= (MOST_FRAMING - count) as u64
                && reached.size <= LARGEST
                && size <= LARGEST - reached.size
        }
    }
}
