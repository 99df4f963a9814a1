//! A text that contracts see as its bytes.
ghost use Rattle.std.specs.Cmp.{partial_equiv_from_equiv};
ghost use Rattle.std.specs.Cmp.Lexicographic.{nat_list_eq_equiv};
ghost use Rattle.std.specs.Prelude.{◌≡◌, IfOk, string_bytes};
ghost use Rattle.std.specs.Str.{bytes_eq};

use crate::{Copies, OutOfMemory};
use std::alloc::{AllocError, Global};
use std::fmt;
use std::marker::Model;
use std::sync::Arc;

// Where the bytes of a text are kept.
#[derive(Drop)]
enum Kept {
    // In memory of the text's own.
    Own(String),
    // In memory that several texts share.
    Together(Arc<String>),
}

/// A text, in UTF-8. Contracts see its bytes.
pub struct Str {
    text: Kept,
}

impl Model for Str {
    ghost use Rattle.prop_map.specs.Texts.{bytes_of};
    ghost use Rattle.std.specs.Prelude.{List, ℕ};

    ghost Value = { List ℕ };

    ghost view = { λ s. bytes_of s.text };
}

// One call, so that whoever drops a text doesn't ask how its bytes are kept.
impl Drop for Str {
    fn drop(self) {
        let Str { text } = self;
        drop(text);
    }
}

impl Str {
    /// The text as it is. It takes no memory.
    pub fn of(text: String) -> Str
        ensures { result ≡ string_bytes text }
    {
        Str {
            text: Kept::Own(text),
        }
    }

    /// The text, in memory of its own.
    ///
    /// # Errors
    /// Only want of memory.
    pub fn spell(alloc: Global, text: &str) -> Result<Str, OutOfMemory>
        ensures { IfOk result (λ spelled. spelled ≡ text.now) }
    {
        Ok(Str::of(String::from_str(alloc, text)?))
    }

    /// The text, to be shared: its copies take no memory.
    ///
    /// # Errors
    /// Only want of memory. The text is dropped then.
    pub fn shared(self, alloc: Global) -> Result<Str, OutOfMemory>
        ensures { IfOk result (λ text. text ≡ self) }
    {
        let Str { text } = self;
        match text {
            Kept::Own(text) => shared_of(alloc, text),
            Kept::Together(text) => Ok(Str {
                text: Kept::Together(text),
            }),
        }
    }

    /// The text.
    pub fn as_str(&self) -> &str
        ensures { result.now ≡ self.now }
    {
        match &self.text {
            Kept::Own(text) => text.as_str(),
            Kept::Together(text) => text.as_str(),
        }
    }
}

fn shared_of(alloc: Global, text: String) -> Result<Str, OutOfMemory>
    ensures { IfOk result (λ shared. shared ≡ string_bytes text) }
{
    match Arc::new(alloc, text) {
        Ok(text) => Ok(Str {
            text: Kept::Together(text),
        }),
        Err(_) => Err(AllocError),
    }
}

impl Copies for Str {
    fn copy(&self, alloc: Global) -> Result<Str, OutOfMemory> {
        match &self.text {
            Kept::Own(text) => Str::spell(alloc, text.as_str()),
            Kept::Together(text) => Ok(Str {
                text: Kept::Together(Arc::try_clone(text)?),
            }),
        }
    }
}

impl PartialEq for Str {
    ghost eq = { bytes_eq };

    ghost laws = { partial_equiv_from_equiv nat_list_eq_equiv };

    fn eq(&self, other: &Str) -> bool {
        self.as_str() == other.as_str()
    }
}

impl Eq for Str {
    ghost laws = { nat_list_eq_equiv };
}

impl fmt::Display for Str {
    fn fmt<W: fmt::Write>(&self, f: &mut fmt::Formatter<W>) -> fmt::Result {
        self.as_str().fmt(f)
    }
}

impl fmt::Debug for Str {
    fn fmt<W: fmt::Write>(&self, f: &mut fmt::Formatter<W>) -> fmt::Result {
        fmt::Debug::fmt(self.as_str(), f)
    }
}
