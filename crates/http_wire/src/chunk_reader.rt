//! Reading a chunked body whose bytes come in pieces.
ghost use Rattle.std.specs.Prelude.{◌≡◌, ◌++◌, [], IfOk, OnOk, OnErr};
ghost use Rattle.http_wire.specs.BodyReading.{ReadsBody};

use crate::body_reading::read_chunks;
use crate::chunk_place::{Reached, begin, is_surely_less, walk};
use crate::messages::BodyRead;
use prop_map::OutOfMemory;
use std::alloc::Global;
use std::marker::Model;

/// A chunked body that comes in pieces (RFC 9112, section 7.1). To a contract it is all bytes so far; each read answers
/// what [`read_chunks`] answers to these. Each byte is looked at once while the body isn't whole, and twice more at the end,
/// in whatever pieces it comes.
#[derive(Drop)]
pub struct ChunkReader {
    bytes: Vec<u8>,
    reached: Reached,
}

impl Model for ChunkReader {
    ghost use Rattle.std.specs.Prelude.{List, ℕ};
    ghost use Rattle.http_wire.specs.ChunkPlaces.{EndsAt};

    ghost Value = { List ℕ };

    ghost view = { λ r. r.bytes.items };

    ghost invariant = { λ r. EndsAt r.bytes.items r.reached };
}

impl ChunkReader {
    /// Before the first byte. It takes no memory.
    pub fn new(alloc: Global) -> ChunkReader
        ensures { result ≡ [] }
    {
        ChunkReader {
            bytes: Vec::new(alloc),
            reached: begin(),
        }
    }

    /// What all bytes so far begin with, these being the next ones, read as a chunked body. Of a whole body the length
    /// counts from the first byte of all.
    ///
    /// # Errors
    /// Only want of memory; the reader is then as it was.
    pub fn read(&mut self, bytes: &[u8]) -> Result<BodyRead, OutOfMemory>
        ensures read { IfOk result (ReadsBody (self.old ++ bytes.now)) }
        ensures seen { OnOk result (self.new ≡ self.old ++ bytes.now) }
        ensures err { OnErr result (self.new ≡ self.old) }
    {
        let before = self.bytes.len();
        self.bytes.extend_from_slice(bytes)?;
        let reached = walk(self.reached, bytes);
        if is_surely_less(reached, self.bytes.len()) {
            self.reached = reached;
            return Ok(BodyRead::More);
        }
        match read_chunks(*self.bytes.allocator(), &self.bytes) {
            Ok(read) => {
                self.reached = reached;
                Ok(read)
            }
            Err(fault) => {
                self.bytes.truncate(before);
                Err(fault)
            }
        }
    }
}
