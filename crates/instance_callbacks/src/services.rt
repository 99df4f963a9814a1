//! The services that are held for one reference.
ghost use Rattle.std.specs.Prelude.{◌≡◌, ◌==◌, ◌++◌, ◌∷◌, [], filter, not, IfOk};

use prop_map::{Copies, List, OutOfMemory, Shared};
use std::alloc::Global;
use std::marker::Model;
use std::slice::from_ref;

/// The services that are held for one reference, in the order of their Binds. A copy shares them; one alone takes no
/// memory.
#[derive(Drop)]
pub(crate) struct Services {
    kept: Kept,
}

// How they are kept.
#[derive(Drop)]
enum Kept {
    Nothing,
    One(u64),
    Several(Shared<List<u64>>),
}

impl Model for Services {
    ghost use Rattle.std.specs.Prelude.{List, ℕ};
    ghost use Rattle.instance_callbacks.specs.KeptServices.{kept_services};

    ghost Value = { List ℕ };

    ghost view = { λ s. kept_services s.kept };
}

impl Copies for Services {
    fn copy(&self, _: Global) -> Result<Services, OutOfMemory> {
        let kept = match &self.kept {
            Kept::Nothing => Kept::Nothing,
            Kept::One(service) => Kept::One(*service),
            Kept::Several(services) => Kept::Several(services.share()?),
        };
        Ok(Services { kept })
    }
}

impl Services {
    // These services.
    fn of(alloc: Global, services: Vec<u64>) -> Result<Services, OutOfMemory>
        ensures { IfOk result (λ kept. kept ≡ services.items) }
    {
        let kept = match services.as_slice() {
            [] => Kept::Nothing,
            [service] => Kept::One(*service),
            _ => Kept::Several(Shared::of(alloc, List::of(services))?),
        };
        Ok(Services { kept })
    }

    pub(crate) fn as_slice(&self) -> &[u64]
        ensures { result.now ≡ self.now }
    {
        match &self.kept {
            Kept::Nothing => &[],
            Kept::One(service) => from_ref(service),
            Kept::Several(services) => services.get().as_slice(),
        }
    }
}

/// These services and one more, the last one.
///
/// # Errors
/// Only want of memory.
pub(crate) fn with(alloc: Global, held: &[u64], service: u64) -> Result<Services, OutOfMemory>
    ensures { IfOk result (λ more. more ≡ held.now ++ service ∷ []) }
{
    let mut more = Vec::new(alloc);
    more.extend_from_slice(held)?;
    more.push(service)?;
    Services::of(alloc, more)
}

/// These services without one.
///
/// # Errors
/// Only want of memory.
pub(crate) fn without(alloc: Global, held: &[u64], service: u64) -> Result<Services, OutOfMemory>
    ensures { IfOk result (λ rest. rest ≡ filter (λ s. not (s == service)) held.now) }
{
    let others = held.iter().copied().filter(|other| *other != service);
    Services::of(alloc, others.collect(alloc)?)
}
