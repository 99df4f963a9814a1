//! What an instance holds, by the name of the reference.
ghost use Rattle.instance_callbacks.specs.Held.{AreBegun, services_of, once_ended};
ghost use Rattle.std.specs.Prelude.{◌≡◌, ◌==◌, ◌++◌, ◌∷◌, ℕ, List, [], None, IfOk, filter, not, if◌then◌else◌};
ghost use Rattle.std.specs.Str.{bytes_eq};

use crate::services::{Services, with, without};
use callback_orders::Callback;
use prop_map::{Copies, OutOfMemory, Str};
use shared_map::SharedMap;
use std::alloc::Global;

/// What an instance holds, by the name of the reference. The end of an Unbind takes no memory, since what is held from
/// then on is made ready at its beginning.
#[derive(Drop)]
pub(crate) struct Holdings {
    // The services that are held for each reference that was bound.
    held: SharedMap<Services>,
    // Those that are left once the last callback has ended, if they are others.
    left: Option<SharedMap<Services>>,
}

impl Copies for Holdings {
    fn copy(&self, alloc: Global) -> Result<Holdings, OutOfMemory> {
        Ok(Holdings {
            held: self.held.copy(alloc)?,
            left: self.left.copy(alloc)?,
        })
    }
}

impl Holdings {
    /// Nothing is held. It takes no memory.
    pub(crate) fn new(alloc: Global) -> Holdings
        ensures held { result.held ≡ [] }
        ensures left { result.left ≡ None }
    {
        Holdings {
            held: SharedMap::new(alloc),
            left: None,
        }
    }

    /// The services that are held for a reference, none where there was no Bind.
    pub(crate) fn services(&self, reference: &Str) -> &[u64]
        ensures { result.now ≡ services_of reference.now self.now.held }
    {
        services_in(&self.held, reference)
    }

    /// What is held once a callback more has begun.
    ///
    /// # Errors
    /// Only want of memory.
    pub(crate) fn begun(&self, alloc: Global, callback: &Callback) -> Result<Holdings, OutOfMemory>
        ensures { IfOk result (λ holdings. AreBegun callback.now self.now.held holdings) }
    {
        let held = match callback {
            Callback::Bind { reference, service } => bound(alloc, &self.held, reference, *service)?,
            _ => self.held.copy(alloc)?,
        };
        let left = match callback {
            Callback::Unbind { reference, service } => {
                Some(unbound(alloc, &self.held, reference, *service)?)
            }
            _ => None,
        };
        Ok(Holdings { held, left })
    }

    /// The last callback ends. It takes no memory.
    pub(crate) fn end(&mut self)
        ensures held { self.new.held ≡ once_ended self.old }
        ensures left { self.new.left ≡ None }
    {
        if let Some(left) = self.left.take() {
            self.held = left;
        }
    }
}

fn services_in<'a>(held: &'a SharedMap<Services>, reference: &Str) -> &'a [u64]
    ensures { result.now ≡ services_of reference.now held.now }
{
    match held.value(reference.as_str()) {
        Some(services) => services.as_slice(),
        None => &[],
    }
}

// What is held, but for one reference these services.
fn changed(
    alloc: Global,
    held: &SharedMap<Services>,
    reference: &Str,
    services: Services,
) -> Result<SharedMap<Services>, OutOfMemory>
    ensures { IfOk result (λ rows. (name : List ℕ) → services_of name rows ≡ (if bytes_eq reference.now name then services else services_of name held.now)) }
{
    let mut rows = held.copy(alloc)?;
    rows.set(alloc, reference.copy(alloc)?, services)?;
    Ok(rows)
}

fn bound(
    alloc: Global,
    held: &SharedMap<Services>,
    reference: &Str,
    service: u64,
) -> Result<SharedMap<Services>, OutOfMemory>
    ensures { IfOk result (λ rows. (name : List ℕ) → services_of name rows ≡ (if bytes_eq reference.now name then services_of name held.now ++ service ∷ [] else services_of name held.now)) }
{
    let more = with(alloc, services_in(held, reference), service)?;
    changed(alloc, held, reference, more)
}

fn unbound(
    alloc: Global,
    held: &SharedMap<Services>,
    reference: &Str,
    service: u64,
) -> Result<SharedMap<Services>, OutOfMemory>
    ensures { IfOk result (λ rows. (name : List ℕ) → services_of name rows ≡ (if bytes_eq reference.now name then filter (λ s. not (s == service)) (services_of name held.now) else services_of name held.now)) }
{
    let rest = without(alloc, services_in(held, reference), service)?;
    changed(alloc, held, reference, rest)
}
