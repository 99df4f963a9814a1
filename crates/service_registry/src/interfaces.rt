//! The interfaces of a service, each found by halving: a service may have as many as fit into a line, and is asked for one
//! at each turn and for each reference.
ghost use Rattle.std.specs.Cmp.{partial_equiv_from_equiv};
ghost use Rattle.std.specs.Cmp.Lexicographic.{lists_equiv, lists_per, nat_list_eq_equiv, pointwise};
ghost use Rattle.std.specs.List.{list_any};
ghost use Rattle.std.specs.Prelude.{◌≡◌, ℕ, List as Items, IfOk};
ghost use Rattle.std.specs.Str.{bytes_eq};
ghost use Rattle.text_index.specs.Texts.{has_text};

use prop_map::{Copies, List, OutOfMemory, Shared, Str};
use std::alloc::Global;
use std::fmt;
use std::marker::Model;
use text_index::TextSet;

/// The interfaces of a service, in their order. Contracts see the names. Copies share them.
#[derive(Drop)]
pub struct Interfaces {
    listed: Shared<Listed>,
}

impl Model for Interfaces {
    ghost use Rattle.std.specs.Prelude.{List, ℕ};

    ghost Value = { List (List ℕ) };

    ghost view = { λ i. i.listed };
}

// Names in their order, and the set of them.
#[derive(Drop)]
struct Listed {
    names: List<Str>,
    found: TextSet,
}

impl Model for Listed {
    ghost use Rattle.std.specs.Prelude.{◌≡◌, List, ℕ};
    ghost use Rattle.text_index.specs.Texts.{has_text};

    ghost Value = { List (List ℕ) };

    ghost view = { λ l. l.names };

    ghost invariant = { λ l. (name : List ℕ) → has_text l.found name ≡ has_text l.names name };
}

impl Interfaces {
    /// The interfaces of these names.
    ///
    /// # Errors
    /// Only want of memory. The names are dropped then.
    pub fn of(alloc: Global, names: List<Str>) -> Result<Interfaces, OutOfMemory>
        ensures { IfOk result (λ interfaces. interfaces ≡ names) }
    {
        let found = set_of(alloc, names.as_slice())?;
        let listed = Shared::of(alloc, Listed { names, found })?;
        Ok(Interfaces { listed })
    }

    /// The names, in their order.
    pub fn names(&self) -> &[Str]
        ensures { result.now ≡ self.now }
    {
        let listed = self.listed.get();
        listed.names.as_slice()
    }

    /// Whether an interface is among them. It is compared with no more of them than the logarithm of their number, and
    /// takes no memory.
    pub fn has(&self, interface: &str) -> bool
        ensures { result ≡ list_any (λ i. bytes_eq i interface.now) self.now }
    {
        let listed = self.listed.get();
        listed.found.has(interface.as_bytes())
    }
}

fn set_of(alloc: Global, names: &[Str]) -> Result<TextSet, OutOfMemory>
    ensures { IfOk result (λ set. (name : Items ℕ) → has_text set name ≡ has_text names.now name) }
{
    let mut set = TextSet::new(alloc);
    for name in names {
        let _is_new = set.insert(alloc, name.as_str().as_bytes())?;
    }
    Ok(set)
}

impl Copies for Interfaces {
    fn copy(&self, _: Global) -> Result<Interfaces, OutOfMemory> {
        Ok(Interfaces {
            listed: self.listed.share()?,
        })
    }
}

impl PartialEq for Interfaces {
    ghost eq = { pointwise bytes_eq };

    ghost laws = { lists_per (partial_equiv_from_equiv nat_list_eq_equiv) };

    fn eq(&self, other: &Interfaces) -> bool {
        self.names() == other.names()
    }
}

impl Eq for Interfaces {
    ghost laws = { lists_equiv nat_list_eq_equiv };
}

impl fmt::Debug for Interfaces {
    fn fmt<W: fmt::Write>(&self, f: &mut fmt::Formatter<W>) -> fmt::Result {
        f.debug_list().entries(self.names().iter()).finish()
    }
}
