//! Sources that are read to their end.

use fault_count::{MemorySource, ReadStep, Source};
use file_lines::{FileLines, MemoryFile, MemoryFiles, NoPrompt};
use std::alloc::{AllocError, Global};

/// Lines over files in memory, and what they are handed on as.
#[derive(Clone, Copy)]
pub(crate) struct Reading<'r> {
    pub(crate) lines: &'r [u8],
    /// The files, by their paths.
    pub(crate) files: &'r [(&'r str, &'r [u8])],
    /// Which calls for the bytes of the lines fail.
    pub(crate) failing: &'r [u64],
    /// How many reads there are at most.
    pub(crate) reads: u32,
    pub(crate) handed: &'r [u8],
    /// How many reads fail.
    pub(crate) faults: u32,
}

// All that a source gives up to its end, as at most so many reads give it, and how often one failed.
fn all_of<In: Source>(
    alloc: Global,
    source: &mut In,
    reads: u32,
) -> Result<(Vec<u8>, u32), AllocError> {
    let mut given = Vec::new(alloc);
    let mut failed = 0u32;
    let mut room = [0u8; 4096];
    for _ in 0..reads {
        match source.read(&mut room) {
            ReadStep::Got(count) => {
                let (piece, _) = room.split_at(count.min(4096));
                given.extend_from_slice(piece)?;
            }
            ReadStep::End => return Ok((given, failed)),
            ReadStep::Failed => failed = failed.saturating_add(1),
        }
    }
    Ok((given, failed))
}

/// Whether a source gives these bytes up to its end, and so many reads fail.
pub(crate) fn gives<In: Source>(
    alloc: Global,
    source: &mut In,
    reads: u32,
    bytes: &[u8],
    faults: u32,
) -> bool {
    match all_of(alloc, source, reads) {
        Ok((given, failed)) => given.as_slice() == bytes && failed == faults,
        Err(_) => false,
    }
}

// Whether a source gives what it is to, tells its faults, and stays at its end.
fn comes_true<In: Source>(alloc: Global, source: &mut In, reading: &Reading<'_>) -> bool {
    gives(alloc, source, reading.reads, reading.handed, reading.faults)
        && source.faults() == reading.faults as u64
        && source.read(&mut [0]) == ReadStep::End
}

// A file in memory.
fn file(alloc: Global, path: &str, bytes: &[u8]) -> Result<MemoryFile, AllocError> {
    let path = String::from_str(alloc, path)?;
    match Vec::from_slice(alloc, bytes) {
        Ok(bytes) => Ok(MemoryFile { path, bytes }),
        Err(error) => Err(error),
    }
}

fn add(
    alloc: Global,
    files: &mut Vec<MemoryFile>,
    path: &str,
    bytes: &[u8],
) -> Result<(), AllocError> {
    let file = file(alloc, path, bytes)?;
    files.push(file)?;
    Ok(())
}

fn files_of(alloc: Global, rows: &[(&str, &[u8])]) -> Result<Vec<MemoryFile>, AllocError> {
    let mut files = Vec::new(alloc);
    for (path, bytes) in rows {
        add(alloc, &mut files, path, bytes)?;
    }
    Ok(files)
}

// The bytes of lines, which come in pieces of three.
fn input(alloc: Global, lines: &[u8], failing: &[u64]) -> Result<MemorySource, AllocError> {
    let lines = Vec::from_slice(alloc, lines)?;
    match failing.to_vec(alloc) {
        Ok(failing) => Ok(MemorySource::new(lines, 3, failing)),
        Err(error) => Err(error),
    }
}

fn over(alloc: Global, input: MemorySource, files: MemoryFiles, reading: &Reading<'_>) -> bool {
    let mut source = FileLines::new(alloc, input, files, NoPrompt);
    comes_true(alloc, &mut source, reading)
}

fn over_files(alloc: Global, files: Vec<MemoryFile>, reading: &Reading<'_>) -> bool {
    match input(alloc, reading.lines, reading.failing) {
        Ok(input) => over(alloc, input, MemoryFiles::new(files), reading),
        Err(_) => false,
    }
}

/// Whether lines are handed on as they are to be.
pub(crate) fn holds(alloc: Global, reading: &Reading<'_>) -> bool {
    match files_of(alloc, reading.files) {
        Ok(files) => over_files(alloc, files, reading),
        Err(_) => false,
    }
}
