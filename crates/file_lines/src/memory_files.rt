//! Files in memory.
ghost use Rattle.std.specs.Prelude.{◌≡◌, ◌≤◌, IfOk, IfSome, List, Some, option_map, vec_len, ℕ};
ghost use Rattle.std.specs.Option.{option_and_then, option_copied};
ghost use Rattle.file_lines.specs.Files.{IsAnswer, at_most, file_at, shelf_of};

use crate::LineFiles;
use std::alloc::{AllocError, Global};
use std::marker::Model;

/// A file in memory.
#[derive(Debug, Drop)]
pub struct MemoryFile {
    /// Its path.
    pub path: String,
    /// What stands in it.
    pub bytes: Vec<u8>,
}

/// Files in memory, which tell what they hold and count how often one was read. Of two with the same path the first
/// counts.
#[derive(Drop)]
pub struct MemoryFiles {
    files: Vec<MemoryFile>,
    reads: u64,
}

impl Model for MemoryFiles {
    ghost use Rattle.file_lines.specs.Files.{MemoryShelf};

    ghost Value = { MemoryShelf };

    ghost view = { λ s. record { files = s.files.items; reads = s.reads } };
}

impl MemoryFiles {
    /// These files, none of which was read.
    pub fn new(files: Vec<MemoryFile>) -> MemoryFiles
        ensures { result ≡ record { files = files.items; reads = 0 } }
    {
        MemoryFiles { files, reads: 0 }
    }

    /// How often a path was read, of a file or of none.
    pub fn reads(&self) -> u64
        ensures { result ≡ self.now.reads }
    {
        self.reads
    }
}

impl LineFiles for MemoryFiles {
    ghost told = { λ s. Some (shelf_of s.files) };

    fn read(
        &mut self,
        alloc: Global,
        path: &str,
        most: usize,
    ) -> Result<Option<Vec<u8>>, AllocError> {
        self.reads = self.reads.saturating_add(1);
        held(alloc, file_at(&self.files, path), most)
    }
}

// The first file with this path.
fn file_at<'f>(files: &'f [MemoryFile], path: &str) -> Option<&'f MemoryFile>
    ensures { option_copied result ≡ file_at files.now path.now }
{
    files.iter().find(|file| file.path.as_str() == path)
}

// What a file holds, where it is there and holds at most so many bytes.
fn held(
    alloc: Global,
    file: Option<&MemoryFile>,
    most: usize,
) -> Result<Option<Vec<u8>>, AllocError>
    ensures answer { IfOk result (λ found. option_map (λ bytes. bytes.items) found
        ≡ option_and_then (at_most most) (option_map (λ file. file.bytes.items) (option_copied file.entry))) }
    ensures most { IfOk result (λ found. IfSome found (λ bytes. vec_len bytes ≤ most)) }
{
    let Some(file) = file else {
        return Ok(None);
    };
    if file.bytes.len() > most {
        return Ok(None);
    }
    Ok(Some(Vec::from_slice(alloc, &file.bytes)?))
}
