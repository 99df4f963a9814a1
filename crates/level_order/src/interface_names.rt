//! Numbers for the names of interfaces.
ghost use Rattle.std.specs.Prelude.{◌≡◌, ◌++◌, ◌≤◌, ℕ, List, true, IfOk, OnOk, length, map};
ghost use Rattle.std.specs.Cmp.Lexicographic.{slice_cmp};
ghost use Rattle.std.specs.List.{flat_map};
ghost use Rattle.std.specs.List.Sorted.{IsSorted};
ghost use Rattle.std.specs.Ordering.{nat_cmp};
ghost use Rattle.component_dto.specs.TextLists.{has_text};
ghost use Rattle.level_order.specs.InterfaceNames.{named_by, number_of};

use component_dto::Description;
use prop_map::OutOfMemory;
use std::alloc::Global;

/// All names of interfaces that the descriptions provide or reference, in byte order.
pub(crate) fn names_in<'d>(
    alloc: Global,
    descriptions: &'d [Description],
) -> Result<Vec<&'d str>, OutOfMemory>
    ensures all { IfOk result (λ v. (text : List ℕ) → has_text (flat_map named_by descriptions.now) text ≡ true → has_text (map (λ t. t.now) v.items) text ≡ true) }
    ensures sorted { IfOk result (λ v. IsSorted (λ a b. slice_cmp nat_cmp a.now b.now) v.items) }
{
    let mut names = Vec::new(alloc);
    for description in descriptions {
        push_names(&mut names, description)?;
    }
    names.sort_unstable();
    Ok(names)
}

fn push_names<'d>(names: &mut Vec<&'d str>, description: &'d Description) -> Result<(), OutOfMemory>
    ensures { OnOk result (map (λ t. t.now) names.new.items ≡ map (λ t. t.now) names.old.items ++ named_by description.now) }
{
    for interface in description.service_interfaces.as_slice() {
        names.push(interface.as_str())?;
    }
    for reference in description.references.as_slice() {
        names.push(reference.interface_name.as_str())?;
    }
    Ok(())
}

/// How many of the names stand before this one.
pub(crate) fn number_of(names: &[&str], name: &str) -> usize
    requires { IsSorted (λ a b. slice_cmp nat_cmp a.now b.now) names.now }
    ensures number { result ≡ number_of (map (λ t. t.now) names.now) name.now }
    ensures within { result ≤ length names.now }
{
    names.partition_point(|other| *other < name)
}
