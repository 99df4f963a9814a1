//! What a line is handed on as.
ghost use Rattle.std.specs.Prelude.{◌≡◌, ◌++◌, IfOk, IfSome, None, map, option_map};
ghost use Rattle.file_lines.specs.HandedLines.{blanked, handed_line, path_in, with_file};

use crate::LineFiles;
use crate::named_path::{LONGEST_LINE, path_in, without_return};
use std::alloc::{AllocError, Global};

// What stands before a line feed, as it is handed on. No file is read but the one that the line names.
pub(crate) fn handed_line<F: LineFiles>(
    alloc: Global,
    files: &mut F,
    part: &[u8],
) -> Result<Vec<u8>, AllocError>
    ensures text { IfSome (F.told files.old)
        (λ shelf. IfOk result (λ text. text.items ≡ handed_line shelf part.now)) }
    ensures told { F.told files.new ≡ F.told files.old }
    ensures unread { path_in part.now ≡ None → files.new ≡ files.old }
{
    let found = match path_in(part) {
        Some(path) => replaced(alloc, files, without_return(part), path)?,
        None => None,
    };
    match found {
        Some(text) => Ok(text),
        None => Vec::from_slice(alloc, part),
    }
}

// A line with the bytes of the file at the path that it ends with, where that can be read and the line isn't too long.
fn replaced<F: LineFiles>(
    alloc: Global,
    files: &mut F,
    line: &[u8],
    path: &str,
) -> Result<Option<Vec<u8>>, AllocError>
    ensures text { IfSome (F.told files.old) (λ shelf. IfOk result
        (λ text. option_map (λ v. v.items) text ≡ with_file shelf line.now path.now)) }
    ensures told { F.told files.new ≡ F.told files.old }
{
    let (front, _) = line.split_at(line.len().saturating_sub(path.len() + 1));
    let Some(most) = LONGEST_LINE.checked_sub(front.len()) else {
        return Ok(None);
    };
    match files.read(alloc, path, most)? {
        Some(bytes) => Ok(Some(joined(alloc, front, &bytes)?)),
        None => Ok(None),
    }
}

// The bytes of a file behind the front of a line, each of its line ends as a blank.
fn joined(alloc: Global, front: &[u8], bytes: &[u8]) -> Result<Vec<u8>, AllocError>
    ensures { IfOk result (λ text. text.items ≡ front.now ++ map blanked bytes.now) }
{
    let mut text = Vec::from_slice(alloc, front)?;
    let blanks: Vec<u8> = bytes.iter().map(|byte| blanked(*byte)).collect(alloc)?;
    text.extend_from_slice(&blanks)?;
    Ok(text)
}

fn blanked(byte: u8) -> u8
    ensures { result ≡ blanked byte }
{
    match byte {
        b'\r' | b'\n' => b' ',
        _ => byte,
    }
}
