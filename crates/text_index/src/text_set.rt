//! Sets of texts.
ghost use Rattle.std.specs.Prelude.{◌≡◌, ◌||◌, ℕ, [], List, not, IfOk, OnOk, OnErr};
ghost use Rattle.std.specs.Str.{bytes_eq};
ghost use Rattle.text_index.specs.Texts.{has_text};

use std::alloc::{AllocError, Global};
use std::collections::BTreeSet;
use std::marker::Model;

/// Texts by their bytes, each once. Contracts see them in byte order. To look for one, or to add one, compares it with no
/// more of them than the logarithm of their number.
#[derive(Drop)]
pub struct TextSet {
    texts: BTreeSet<Vec<u8>>,
}

impl Model for TextSet {
    ghost use Rattle.std.specs.Prelude.{List, ℕ, map};

    ghost Value = { List (List ℕ) };

    ghost view = { λ s. map (λ t. t.items) s.texts.keys };
}

impl TextSet {
    /// Without any text. It takes no memory.
    pub fn new(alloc: Global) -> TextSet
        ensures { result ≡ [] }
    {
        TextSet {
            texts: BTreeSet::new(alloc),
        }
    }

    /// Whether the text is among them. It takes no memory.
    pub fn has(&self, text: &[u8]) -> bool
        ensures { result ≡ has_text self.now text.now }
    {
        self.texts.contains(text)
    }

    /// Adds a text, if it isn't there, and answers whether it is new.
    ///
    /// # Errors
    /// Only want of memory, and then all stays as it was.
    pub fn insert(&mut self, alloc: Global, text: &[u8]) -> Result<bool, AllocError>
        ensures answer { IfOk result (λ new. new ≡ not (has_text self.old text.now)) }
        ensures added { OnOk result ((other : List ℕ) → has_text self.new other ≡ (bytes_eq text.now other || has_text self.old other)) }
        ensures same { OnErr result (self.new ≡ self.old) }
    {
        let key = Vec::from_slice(alloc, text)?;
        Ok(self.texts.insert(key)?)
    }
}
