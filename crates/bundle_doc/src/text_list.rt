//! Lists of texts in which a text is found by halving.
ghost use Rattle.std.specs.Prelude.{◌≡◌, ℕ, List as Items, [], IfOk};
ghost use Rattle.component_dto.specs.TextLists.{has_text};
ghost use Rattle.bundle_doc.specs.Entries.{with_one};

use prop_map::{Copies, List, OutOfMemory, Str};
use std::alloc::Global;
use std::marker::Model;
use text_index::TextSet;

/// Texts in an order, and the set of them. Contracts see the list.
#[derive(Drop)]
pub(crate) struct TextList {
    list: List<Str>,
    texts: TextSet,
}

impl Model for TextList {
    ghost use Rattle.std.specs.Prelude.{◌≡◌, List, ℕ};
    ghost use Rattle.component_dto.specs.TextLists.{has_text};

    ghost Value = { List (List ℕ) };

    ghost view = { λ t. t.list };

    ghost invariant = { λ t. (text : List ℕ) → has_text t.texts text ≡ has_text t.list text };
}

impl TextList {
    pub(crate) fn new(alloc: Global) -> TextList
        ensures { result ≡ [] }
    {
        TextList {
            list: List::of(Vec::new(alloc)),
            texts: TextSet::new(alloc),
        }
    }

    pub(crate) fn of(alloc: Global, list: List<Str>) -> Result<TextList, OutOfMemory>
        ensures { IfOk result (λ texts. texts ≡ list) }
    {
        let texts = set_of(alloc, list.as_slice())?;
        Ok(TextList { list, texts })
    }

    pub(crate) fn as_slice(&self) -> &[Str]
        ensures { result.now ≡ self.now }
    {
        self.list.as_slice()
    }

    pub(crate) fn has(&self, text: &Str) -> bool
        ensures { result ≡ has_text self.now text.now }
    {
        self.texts.has(text.as_str().as_bytes())
    }

    /// With a text behind the others, if it isn't there.
    pub(crate) fn with(mut self, alloc: Global, text: &Str) -> Result<TextList, OutOfMemory>
        ensures { IfOk result (λ now. now ≡ with_one self text.now) }
    {
        if self.texts.insert(alloc, text.as_str().as_bytes())? {
            self.list
                .push(text.copy(alloc)?)
                .map_err(|refused| refused.1)?;
        }
        Ok(self)
    }

    pub(crate) fn list(self) -> List<Str>
        ensures { result ≡ self }
    {
        self.list
    }
}

fn set_of(alloc: Global, texts: &[Str]) -> Result<TextSet, OutOfMemory>
    ensures { IfOk result (λ set. (text : Items ℕ) → has_text set text ≡ has_text texts.now text) }
{
    let mut set = TextSet::new(alloc);
    for text in texts {
        let _is_new = set.insert(alloc, text.as_str().as_bytes())?;
    }
    Ok(set)
}
