//! The headers that were read so far.
ghost use Rattle.std.specs.Prelude.{◌≡◌, [], ◌∷◌, ◌++◌, IfOk};
ghost use Rattle.bundle_headers.specs.Headers.{has_name};

use prop_map::{List, OutOfMemory, Str};
use std::alloc::Global;
use std::marker::Model;
use text_index::TextSet;

/// Headers, and their names in small letters. Contracts see the headers.
#[derive(Drop)]
pub(crate) struct Headers {
    list: List<(Str, Str)>,
    names: TextSet,
}

impl Model for Headers {
    ghost use Rattle.std.specs.Prelude.{◌≡◌, List, ℕ, map};
    ghost use Rattle.std.specs.Char.{to_ascii_lowercase};
    ghost use Rattle.text_index.specs.Texts.{has_text};
    ghost use Rattle.bundle_headers.specs.Headers.{has_name};

    ghost Value = { List (List ℕ × List ℕ) };

    ghost view = { λ h. h.list };

    ghost invariant = { λ h. (name : List ℕ) → has_text h.names (map to_ascii_lowercase name) ≡ has_name h.list name };
}

impl Headers {
    pub(crate) fn new(alloc: Global) -> Headers
        ensures { result ≡ [] }
    {
        Headers {
            list: List::of(Vec::new(alloc)),
            names: TextSet::new(alloc),
        }
    }

    /// Whether one of them has this name, without ASCII case.
    pub(crate) fn has(&self, alloc: Global, name: &[u8]) -> Result<bool, OutOfMemory>
        ensures { IfOk result (λ has. has ≡ has_name self.now name.now) }
    {
        let folded = name.to_ascii_lowercase(alloc)?;
        Ok(self.names.has(folded.as_slice()))
    }

    /// With one more behind them.
    pub(crate) fn with(mut self, alloc: Global, header: (Str, Str)) -> Result<Headers, OutOfMemory>
        ensures { IfOk result (λ headers. headers ≡ self ++ header ∷ []) }
    {
        let folded = header.0.as_str().as_bytes().to_ascii_lowercase(alloc)?;
        let _is_new = self.names.insert(alloc, folded.as_slice())?;
        self.list.push(header).map_err(|(_, fault)| fault)?;
        Ok(self)
    }

    pub(crate) fn list(self) -> List<(Str, Str)>
        ensures { result ≡ self }
    {
        self.list
    }
}
