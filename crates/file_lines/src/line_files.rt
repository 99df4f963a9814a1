//! Where the files come from that lines name.
ghost use Rattle.std.specs.Prelude.{◌≡◌, ◌≤◌, IfOk, IfSome, List, ℕ, option_map, vec_len};
ghost use Rattle.std.specs.declared.option.Option.{Option};
ghost use Rattle.file_lines.specs.Files.{IsAnswer, Shelf};

use std::alloc::{AllocError, Global};

/// Files by their paths.
pub trait LineFiles {
    /// What stands in the file at each path, where these files tell it: nothing at a path whose file can't be read.
    ghost told: { Self → Option Shelf };

    /// Reads the file at a path, and answers its bytes where it can be read and they are at most so many.
    ///
    /// # Errors
    /// AllocError where there was no memory for the bytes.
    fn read(
        &mut self,
        alloc: Global,
        path: &str,
        most: usize,
    ) -> Result<Option<Vec<u8>>, AllocError>
        ensures answer { IfOk result
            (λ found. IsAnswer (told self.old) path.now most (option_map (λ bytes. bytes.items) found)) }
        ensures most { IfOk result (λ found. IfSome found (λ bytes. vec_len bytes ≤ most)) }
        ensures told { told self.new ≡ told self.old };
}
