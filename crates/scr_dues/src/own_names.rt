//! References that differ in name.
ghost use Rattle.component_dto.specs.declared.description.Reference.{Reference};
ghost use Rattle.scr_dues.specs.Makings.{have_own_names};
ghost use Rattle.std.specs.Prelude.{◌≡◌, IfOk, map};

use component_dto::{Reference, first_repeated};
use prop_map::OutOfMemory;
use std::alloc::Global;

fn names_of<'r>(alloc: Global, references: &'r [Reference]) -> Result<Vec<&'r str>, OutOfMemory>
    ensures { IfOk result (λ names. map (λ n. n.now) names.items ≡ map (λ (r : Reference). r.name) references.now) }
{
    let mut names = Vec::new(alloc);
    for reference in references {
        names.push(reference.name.as_str())?;
    }
    Ok(names)
}

/// Whether references differ in name. It compares each name with no more of them than the logarithm of their number.
///
/// # Errors
/// Only want of memory.
pub(crate) fn have_own_names(alloc: Global, references: &[Reference]) -> Result<bool, OutOfMemory>
    ensures { IfOk result (λ own. own ≡ have_own_names references.now) }
{
    let names = names_of(alloc, references)?;
    let repeated = first_repeated(alloc, &names)?;
    Ok(repeated.is_none())
}
