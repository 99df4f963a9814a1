//! The capabilities that a bundle requires (OSGi Core 8, chapter 3 "Module Layer", "Require-Capability Header").
ghost use Rattle.bundle_wiring.specs.Faults.{Reads};
ghost use Rattle.bundle_wiring.specs.Wirings.{filter_in, filter_or_none, needs_in, requirement_of, requirements_after, requirements_of};
ghost use Rattle.std.specs.Prelude.{◌≡◌, ◌++◌, map, option_map, IfOk, OnOk};

use crate::clauses::{clauses_in, is_effective, is_optional, value_of};
use crate::imports::imports_in;
use crate::texts::filter_of;
use crate::{WireFault, WireNeed};
use bundle_headers::{Clause, Manifest};
use ldap_filter::Filter;
use prop_map::{Copies, List, OutOfMemory, Shared, Str};
use std::alloc::Global;

/// What a manifest needs: the packages that it imports, and then the capabilities that it requires.
pub(crate) fn needs_in(alloc: Global, manifest: &Manifest) -> Result<List<WireNeed>, WireFault>
    ensures { Reads result (needs_in manifest.now) }
{
    let needs = imports_in(alloc, manifest)?;
    let clauses = clauses_in(alloc, manifest, "Require-Capability")?;
    with_requirements(alloc, needs, clauses.list.as_slice())
}

fn with_requirements(
    alloc: Global,
    imports: List<WireNeed>,
    clauses: &[Clause],
) -> Result<List<WireNeed>, WireFault>
    ensures { Reads result (requirements_after imports clauses.now) }
{
    let mut needs = imports.items();
    for clause in clauses {
        let filter = filter_in(alloc, clause)?;
        push_requirements(alloc, &mut needs, clause, &filter)?;
    }
    Ok(List::of(needs))
}

fn filter_in(alloc: Global, clause: &Clause) -> Result<Option<Shared<Filter>>, WireFault>
    ensures { Reads result (filter_in clause.now) }
{
    filter_or_none(alloc, value_of(clause.directives.as_slice(), "filter"))
}

fn filter_or_none(alloc: Global, text: Option<&str>) -> Result<Option<Shared<Filter>>, WireFault>
    ensures { Reads result (filter_or_none (option_map (λ t. t.now) text.entry)) }
{
    match text {
        Some(text) => {
            let filter = filter_of(alloc, text)?;
            Ok(Some(Shared::of(alloc, filter)?))
        }
        None => Ok(None),
    }
}

fn push_requirements(
    alloc: Global,
    needs: &mut Vec<WireNeed>,
    clause: &Clause,
    filter: &Option<Shared<Filter>>,
) -> Result<(), OutOfMemory>
    ensures { OnOk result (needs.new.items ≡ needs.old.items ++ requirements_of clause.now filter.now) }
{
    if is_effective(clause) {
        push_each(alloc, needs, clause, filter)
    } else {
        Ok(())
    }
}

fn push_each(
    alloc: Global,
    needs: &mut Vec<WireNeed>,
    clause: &Clause,
    filter: &Option<Shared<Filter>>,
) -> Result<(), OutOfMemory>
    ensures { OnOk result (needs.new.items ≡ needs.old.items ++ map (requirement_of clause.now filter.now) clause.now.paths) }
{
    for path in clause.paths.as_slice() {
        needs.push(requirement_of(alloc, clause, filter, path)?)?;
    }
    Ok(())
}

fn requirement_of(
    alloc: Global,
    clause: &Clause,
    filter: &Option<Shared<Filter>>,
    path: &Str,
) -> Result<WireNeed, OutOfMemory>
    ensures { IfOk result (λ need. need ≡ requirement_of clause.now filter.now path.now) }
{
    Ok(WireNeed {
        name: path.copy(alloc)?,
        package: false,
        range: None,
        filter: filter.copy(alloc)?,
        optional: is_optional(clause),
    })
}
