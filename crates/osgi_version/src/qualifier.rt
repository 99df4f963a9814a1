//! The fourth part of a version.
ghost use Rattle.std.specs.Cmp.{partial_equiv_from_equiv};
ghost use Rattle.std.specs.Cmp.Lexicographic.{nat_list_cmp_total, nat_list_eq_equiv, slice_cmp, texts_po, texts_ties};
ghost use Rattle.std.specs.Ordering.{nat_cmp};
ghost use Rattle.std.specs.Prelude.{◌≡◌, ◌<◌, ◌++◌, ◌∷◌, [], Some, IfOk, OnOk, OnErr, string_bytes, refl};
ghost use Rattle.std.specs.Str.{bytes_eq};

use prop_map::{Copies, OutOfMemory};
use std::alloc::Global;
use std::cmp::Ordering;
use std::fmt;
use std::marker::Model;

/// The qualifier of a version, empty where the version has none. Contracts see its bytes; they are its order too.
#[derive(Drop)]
pub struct Qualifier {
    text: String,
}

impl Model for Qualifier {
    ghost use Rattle.std.specs.Prelude.{List, ℕ, string_bytes};

    ghost Value = { List ℕ };

    ghost view = { λ q. string_bytes q.text };
}

impl Qualifier {
    /// No qualifier. It takes no memory.
    pub fn empty(alloc: Global) -> Qualifier
        ensures { result ≡ [] }
    {
        Qualifier {
            text: String::new(alloc),
        }
    }

    /// The qualifier's text.
    pub fn as_str(&self) -> &str
        ensures { result.now ≡ self.now }
    {
        self.text.as_str()
    }

    /// Adds an ASCII byte at the end. Where there is no memory the qualifier stays as it was.
    pub(crate) fn push(&mut self, byte: u8) -> Result<(), OutOfMemory>
        requires { byte < 128 }
        ensures ok { OnOk result (self.new ≡ self.old ++ byte ∷ []) }
        ensures err { OnErr result (self.new ≡ self.old) }
    {
        self.text.push(char::from(byte))
    }
}

impl Copies for Qualifier {
    fn copy(&self, alloc: Global) -> Result<Qualifier, OutOfMemory> {
        Ok(Qualifier {
            text: String::from_str(alloc, self.as_str())?,
        })
    }
}

impl PartialEq for Qualifier {
    ghost eq = { bytes_eq };

    ghost laws = { partial_equiv_from_equiv nat_list_eq_equiv };

    fn eq(&self, other: &Qualifier) -> bool {
        self.text.as_str() == other.text.as_str()
    }
}

impl Eq for Qualifier {
    ghost laws = { nat_list_eq_equiv };
}

impl PartialOrd for Qualifier {
    ghost partial_cmp = { λ a b. Some (slice_cmp nat_cmp a b) };

    ghost laws = { texts_po };

    fn partial_cmp(&self, other: &Qualifier) -> Option<Ordering> {
        Some(self.cmp(other))
    }
}

impl Ord for Qualifier {
    ghost cmp = { slice_cmp nat_cmp };

    ghost total = { nat_list_cmp_total };

    ghost matches_partial_cmp = { λ a b. refl };

    ghost matches_eq = { texts_ties };

    fn cmp(&self, other: &Qualifier) -> Ordering {
        self.text.as_str().cmp(other.text.as_str())
    }
}

impl fmt::Display for Qualifier {
    fn fmt<W: fmt::Write>(&self, f: &mut fmt::Formatter<W>) -> fmt::Result {
        self.as_str().fmt(f)
    }
}

impl fmt::Debug for Qualifier {
    fn fmt<W: fmt::Write>(&self, f: &mut fmt::Formatter<W>) -> fmt::Result {
        fmt::Debug::fmt(self.as_str(), f)
    }
}
