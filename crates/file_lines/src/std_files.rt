//! The files of the system.
ghost use Rattle.std.specs.Prelude.{◌≤◌, IfOk, IfSome, None, vec_len};
ghost use Rattle.file_lines.specs.Files.{IsAnswer};

use crate::LineFiles;
use std::alloc::{AllocError, Global};
use std::io::{ErrorKind, Read};
use std::rt::Files;
use std::{fs, io};

/// The files that a runtime reaches: a path that doesn't begin with a slash begins in the working folder.
///
/// No clause tells what they hold.
#[derive(Drop)]
pub struct StdFiles<'r, R> {
    files: &'r R,
}

impl<'r, R> StdFiles<'r, R> {
    /// The files that this runtime reaches.
    pub fn new(files: &'r R) -> StdFiles<'r, R> {
        StdFiles { files }
    }
}

impl<R: Files> LineFiles for StdFiles<'_, R> {
    ghost told = { λ _. None };

    fn read(
        &mut self,
        alloc: Global,
        path: &str,
        most: usize,
    ) -> Result<Option<Vec<u8>>, AllocError> {
        match bytes_of(alloc, self.files, path, most) {
            Ok(bytes) if bytes.len() <= most => Ok(Some(bytes)),
            Ok(_) => Ok(None),
            Err(fault) => match fault.kind() {
                ErrorKind::OutOfMemory => Err(AllocError),
                _ => Ok(None),
            },
        }
    }
}

// The bytes of a file, and no more than one above so many.
fn bytes_of<R: Files>(alloc: Global, files: &R, path: &str, most: usize) -> io::Result<Vec<u8>> {
    let file = fs::open(files, path)?;
    let mut bytes = Vec::new(alloc);
    file.take((most as u64).saturating_add(1))
        .read_to_end(&mut bytes)?;
    Ok(bytes)
}
