//! The targets of references.
ghost use Rattle.std.specs.Prelude.{◌≡◌, IfOk, option_map};
ghost use Rattle.component_dto.specs.Rules.{bad_target_of};
ghost use Rattle.component_dto.specs.Targets.{HasPlace, bad_target};
ghost use Rattle.component_dto.specs.declared.fault.DescriptionFault.TheVariants.{BadTarget};

use crate::references::ReferenceFields;
use ldap_filter::{Filter, FilterFault};
use prop_map::{Copies, OutOfMemory, Str};
use std::alloc::{AllocError, Global};

/// The name of the first reference whose target is no filter, and the place where the target ceases to be one.
pub(crate) fn bad_target(
    alloc: Global,
    references: &[ReferenceFields],
) -> Result<Option<(Str, usize)>, OutOfMemory>
    ensures { IfOk result (λ found. option_map (λ t. BadTarget t.0 t.1) found ≡ bad_target_of references.now) }
{
    for fields in references {
        if let Some(at) = bad_place(alloc, &fields.reference.target)? {
            return Ok(Some((fields.reference.name.copy(alloc)?, at)));
        }
    }
    Ok(None)
}

#[tactic(auto, using(crate::proofs::Places::place_is))]
fn bad_place(alloc: Global, target: &Option<Str>) -> Result<Option<usize>, OutOfMemory>
    ensures { IfOk result (λ place. place ≡ bad_target target.now) }
{
    place(alloc, target)
}

// The place where a target ceases to be a filter.
fn place(alloc: Global, target: &Option<Str>) -> Result<Option<usize>, OutOfMemory>
    ensures { IfOk result (λ place. HasPlace target.now place) }
{
    match target {
        None => Ok(None),
        Some(text) => match Filter::parse(alloc, text.as_str()) {
            Ok(_) => Ok(None),
            Err(FilterFault::BadFilter { at, .. } | FilterFault::TooDeep { at }) => Ok(Some(at)),
            Err(FilterFault::OutOfMemory) => Err(AllocError),
        },
    }
}
