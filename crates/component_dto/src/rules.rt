//! The rules on a description's fields that say how they go together.
ghost use Rattle.std.specs.Prelude.{◌≡◌, IfOk, map, option_map};
ghost use Rattle.component_dto.specs.Faults.{Reads};
ghost use Rattle.component_dto.specs.Rules.{first_for_use, is_for_use, is_condition, is_immediate, is_implicit, is_never_made, is_single, names_of, rules};
ghost use Rattle.component_dto.specs.TextLists.{first_repeated};

use crate::given_fields::GivenFields;
use crate::references::{ReferenceFields, ReferenceScope};
use crate::targets::bad_target;
use crate::text_lists::first_repeated;
use crate::{DescriptionFault, Scope};
use prop_map::{Copies, OutOfMemory, Str};
use std::alloc::Global;

/// The most configuration PIDs of one component that are taken. Our own.
const MOST_PIDS: usize = 4;

impl GivenFields {
    /// Tests the rules on the fields.
    ///
    /// # Errors
    /// That of the first rule that is broken.
    pub(crate) fn check_rules(&self, alloc: Global) -> Result<(), DescriptionFault>
        ensures { Reads result (rules self.now) }
    {
        if self.factory.is_some() {
            return Err(DescriptionFault::FactoryComponent);
        }
        if let Some(name) = first_for_use(alloc, self.references.as_slice())? {
            return Err(DescriptionFault::PrototypeReference { name });
        }
        if let Some(name) = same_name(alloc, self.references.as_slice())? {
            return Err(DescriptionFault::SameReference { name });
        }
        if self.is_immediate() && self.scope != Scope::Singleton {
            return Err(DescriptionFault::ImmediateScope);
        }
        if self.is_never_made() {
            return Err(DescriptionFault::DelayedWithoutService);
        }
        if let Some((name, at)) = bad_target(alloc, self.references.as_slice())? {
            return Err(DescriptionFault::BadTarget { name, at });
        }
        if self.configuration_pids.as_slice().len() > MOST_PIDS {
            return Err(DescriptionFault::TooManyPids);
        }
        Ok(())
    }

    /// Whether an instance is made at once.
    pub(crate) fn is_immediate(&self) -> bool
        ensures { result ≡ is_immediate self.now }
    {
        match self.immediate {
            Some(immediate) => immediate,
            None => self.service_interfaces.as_slice().is_empty(),
        }
    }

    fn is_never_made(&self) -> bool
        ensures { result ≡ is_never_made self.now }
    {
        self.immediate == Some(false) && self.service_interfaces.as_slice().is_empty()
    }
}

/// Whether the satisfying condition is a reference besides these: none has its name.
pub(crate) fn is_implicit(references: &[ReferenceFields]) -> bool
    ensures { result ≡ is_implicit references.now }
{
    for fields in references {
        if is_condition(&fields.reference.name) {
            return false;
        }
    }
    true
}

fn is_condition(name: &Str) -> bool
    ensures { result ≡ is_condition name.now }
{
    name.as_str() == "osgi.ds.satisfying.condition"
}

// The name of the first reference that takes an instance for each use.
fn first_for_use(alloc: Global, references: &[ReferenceFields]) -> Result<Option<Str>, OutOfMemory>
    ensures { IfOk result (λ name. name ≡ first_for_use references.now) }
{
    for fields in references {
        if is_for_use(fields.scope) {
            return Ok(Some(fields.reference.name.copy(alloc)?));
        }
    }
    Ok(None)
}

fn is_for_use(scope: ReferenceScope) -> bool
    ensures { result ≡ is_for_use scope }
{
    match scope {
        ReferenceScope::Bundle => false,
        ReferenceScope::Prototype | ReferenceScope::PrototypeRequired => true,
    }
}

// The name of the first reference that has the name of one before it.
fn same_name(alloc: Global, references: &[ReferenceFields]) -> Result<Option<Str>, OutOfMemory>
    ensures { IfOk result (λ name. name ≡ first_repeated (names_of references.now)) }
{
    let names = names_of(alloc, references)?;
    match first_repeated(alloc, &names)? {
        Some(name) => Ok(Some(Str::spell(alloc, name)?)),
        None => Ok(None),
    }
}

fn names_of<'r>(
    alloc: Global,
    references: &'r [ReferenceFields],
) -> Result<Vec<&'r str>, OutOfMemory>
    ensures { IfOk result (λ names. map (λ n. n.now) names.items ≡ names_of references.now) }
{
    let mut names = Vec::new(alloc);
    for fields in references {
        names.push(fields.reference.name.as_str())?;
    }
    Ok(names)
}
