//! The packages that were imported so far.
ghost use Rattle.bundle_wiring.specs.Faults.{Reads};
ghost use Rattle.bundle_wiring.specs.Wirings.{with_packages};
ghost use Rattle.std.specs.Prelude.{◌≡◌, [], ◌∷◌, ◌++◌, IfOk};
ghost use Rattle.text_index.specs.Texts.{has_text};

use crate::WireFault;
use prop_map::{Copies, List, OutOfMemory, Str};
use std::alloc::Global;
use std::marker::Model;
use text_index::TextSet;

/// Packages. Contracts see them in the order in which they came.
#[derive(Drop)]
pub(crate) struct Packages {
    list: List<Str>,
    index: TextSet,
}

impl Model for Packages {
    ghost use Rattle.std.specs.Prelude.{◌≡◌, List, ℕ};
    ghost use Rattle.text_index.specs.Texts.{has_text};

    ghost Value = { List (List ℕ) };

    ghost view = { λ p. p.list };

    ghost invariant = { λ p. (text : List ℕ) → has_text p.index text ≡ has_text p.list text };
}

impl Packages {
    pub(crate) fn new(alloc: Global) -> Packages
        ensures { result ≡ [] }
    {
        Packages {
            list: List::of(Vec::new(alloc)),
            index: TextSet::new(alloc),
        }
    }

    fn has(&self, path: &Str) -> bool
        ensures { result ≡ has_text self.now path.now }
    {
        self.index.has(path.as_str().as_bytes())
    }

    fn with(mut self, alloc: Global, path: &Str) -> Result<Packages, OutOfMemory>
        ensures { IfOk result (λ packages. packages ≡ self ++ path.now ∷ []) }
    {
        let _is_new = self.index.insert(alloc, path.as_str().as_bytes())?;
        let path = path.copy(alloc)?;
        self.list.push(path).map_err(|(_, fault)| fault)?;
        Ok(self)
    }

    /// With these behind them, unless one of these is there already.
    pub(crate) fn with_all(self, alloc: Global, paths: &[Str]) -> Result<Packages, WireFault>
        ensures { Reads result (with_packages self paths.now) }
    {
        let mut packages = self;
        for path in paths {
            if packages.has(path) {
                return Err(WireFault::DuplicateImport {
                    package: path.copy(alloc)?,
                });
            }
            packages = packages.with(alloc, path)?;
        }
        Ok(packages)
    }
}
