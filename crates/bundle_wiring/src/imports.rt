//! The packages that a bundle imports (OSGi Core 8, chapter 3 "Module Layer", "Import-Package Header").
ghost use Rattle.bundle_wiring.specs.Faults.{Reads};
ghost use Rattle.bundle_wiring.specs.Wirings.{import_of, imports_after, imports_in, imports_of, range_in, range_or_none};
ghost use Rattle.std.specs.Prelude.{◌≡◌, ◌++◌, [], map, option_map, IfOk, OnOk};

use crate::clauses::{clauses_in, is_effective, is_optional, value_of};
use crate::packages::Packages;
use crate::texts::range_of;
use crate::{WireFault, WireNeed};
use bundle_headers::{Clause, Manifest};
use osgi_version::VersionRange;
use prop_map::{Copies, List, OutOfMemory, Shared, Str};
use std::alloc::Global;

/// The packages that a manifest imports.
pub(crate) fn imports_in(alloc: Global, manifest: &Manifest) -> Result<List<WireNeed>, WireFault>
    ensures { Reads result (imports_in manifest.now) }
{
    let clauses = clauses_in(alloc, manifest, "Import-Package")?;
    imports_of_all(alloc, clauses.list.as_slice())
}

fn imports_of_all(alloc: Global, clauses: &[Clause]) -> Result<List<WireNeed>, WireFault>
    ensures { Reads result (imports_after [] [] clauses.now) }
{
    let mut packages = Packages::new(alloc);
    let mut needs = Vec::new(alloc);
    for clause in clauses {
        let range = range_in(alloc, clause)?;
        packages = packages.with_all(alloc, clause.paths.as_slice())?;
        push_imports(alloc, &mut needs, clause, &range)?;
    }
    Ok(List::of(needs))
}

fn range_in(alloc: Global, clause: &Clause) -> Result<Option<Shared<VersionRange>>, WireFault>
    ensures { Reads result (range_in clause.now) }
{
    range_or_none(alloc, value_of(clause.attributes.as_slice(), "version"))
}

fn range_or_none(
    alloc: Global,
    text: Option<&str>,
) -> Result<Option<Shared<VersionRange>>, WireFault>
    ensures { Reads result (range_or_none (option_map (λ t. t.now) text.entry)) }
{
    match text {
        Some(text) => {
            let range = range_of(alloc, text)?;
            Ok(Some(Shared::of(alloc, range)?))
        }
        None => Ok(None),
    }
}

fn push_imports(
    alloc: Global,
    needs: &mut Vec<WireNeed>,
    clause: &Clause,
    range: &Option<Shared<VersionRange>>,
) -> Result<(), OutOfMemory>
    ensures { OnOk result (needs.new.items ≡ needs.old.items ++ imports_of clause.now range.now) }
{
    if is_effective(clause) {
        push_each(alloc, needs, clause, range)
    } else {
        Ok(())
    }
}

fn push_each(
    alloc: Global,
    needs: &mut Vec<WireNeed>,
    clause: &Clause,
    range: &Option<Shared<VersionRange>>,
) -> Result<(), OutOfMemory>
    ensures { OnOk result (needs.new.items ≡ needs.old.items ++ map (import_of clause.now range.now) clause.now.paths) }
{
    for path in clause.paths.as_slice() {
        needs.push(import_of(alloc, clause, range, path)?)?;
    }
    Ok(())
}

fn import_of(
    alloc: Global,
    clause: &Clause,
    range: &Option<Shared<VersionRange>>,
    path: &Str,
) -> Result<WireNeed, OutOfMemory>
    ensures { IfOk result (λ need. need ≡ import_of clause.now range.now path.now) }
{
    Ok(WireNeed {
        name: path.copy(alloc)?,
        package: true,
        range: range.copy(alloc)?,
        filter: None,
        optional: is_optional(clause),
    })
}
