//! Reading chunks as far as they go.
ghost use Rattle.std.specs.Prelude.{◌≡◌, ◌≢◌, ◌++◌, ℕ, List, length, IfOk, IfSome, IfNone};
ghost use Rattle.httparse.specs.Grammar.{ChunkLine, HasNoChunkLine};
ghost use Rattle.httparse.specs.Spans.{IsChunkLineAt};
ghost use Rattle.httparse.specs.Ascii.{crlf_bytes};
ghost use Rattle.http_wire.specs.ChunkedBody.{BeginsChunk, BeginsLast};
ghost use Rattle.http_wire.specs.ChunkScan.{IsFound, IsScan};

use httparse::{Status, parse_chunk_size};
use prop_map::OutOfMemory;
use std::alloc::Global;

/// What stands at the front of the rest of a chunked body.
#[derive(Clone, Copy)]
pub(crate) enum Found<'b> {
    /// The bytes of a chunk, and what follows it.
    Full(&'b [u8], &'b [u8]),
    /// What follows the line of the size 0.
    Last(&'b [u8]),
}

/// The content of the chunks at the front, and what follows them.
#[derive(Drop)]
pub(crate) enum Scan<'b> {
    /// What follows the line of the size 0.
    Ended(Vec<u8>, &'b [u8]),
    /// What is neither a chunk nor the line of the size 0.
    Stuck(Vec<u8>, &'b [u8]),
}

/// How long the chunk line at the front is, and the size that it gives.
pub(crate) fn find_line(bytes: &[u8]) -> Option<(usize, u64)>
    ensures some { IfSome result (λ r. (l : ChunkLine) × IsChunkLineAt bytes.now r.0 r.1 l) }
    ensures none { IfNone result (HasNoChunkLine bytes.now) }
{
    match parse_chunk_size(bytes) {
        Ok(Status::Complete(found)) => Some(found),
        Ok(Status::Partial) => None,
        Err(_) => None,
    }
}

/// The chunk of so many bytes at the front, and what follows it.
fn split_chunk(bytes: &[u8], size: u64) -> Option<(&[u8], &[u8])>
    ensures some { IfSome result (λ r. (length r.0.now ≡ size) × (bytes.now ≡ r.0.now ++ (crlf_bytes ++ r.1.now))) }
    ensures none { IfNone result ((chunk after : List ℕ) → length chunk ≡ size → bytes.now ≢ chunk ++ (crlf_bytes ++ after)) }
{
    if size > bytes.len() as u64 {
        return None;
    }
    let (chunk, end) = bytes.split_at(size as usize);
    match end {
        [b'\r', b'\n', after @ ..] => Some((chunk, after)),
        _ => None,
    }
}

fn find_chunk(bytes: &[u8]) -> Option<Found<'_>>
    ensures some { IfSome result (IsFound bytes.now) }
    ensures no_chunk { IfNone result ((chunk after : List ℕ) → ¬ (BeginsChunk bytes.now chunk after)) }
    ensures no_last { IfNone result ((after : List ℕ) → ¬ (BeginsLast bytes.now after)) }
{
    match find_line(bytes) {
        None => None,
        Some((length, size)) => {
            let rest = &bytes[length..];
            if size == 0 {
                return Some(Found::Last(rest));
            }
            match split_chunk(rest, size) {
                None => None,
                Some((chunk, after)) => Some(Found::Full(chunk, after)),
            }
        }
    }
}

/// Reads chunks from the front until the line of the size 0, or as far as they go.
pub(crate) fn scan_chunks(alloc: Global, bytes: &[u8]) -> Result<Scan<'_>, OutOfMemory>
    ensures { IfOk result (IsScan bytes.now) }
{
    let mut content = Vec::new(alloc);
    let mut rest = bytes;
    while let Some(found) = find_chunk(rest) {
        match found {
            Found::Last(after) => return Ok(Scan::Ended(content, after)),
            Found::Full(chunk, after) => {
                content.extend_from_slice(chunk)?;
                rest = after;
            }
        }
    }
    Ok(Scan::Stuck(content, rest))
}
