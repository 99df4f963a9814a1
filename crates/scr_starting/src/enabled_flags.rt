//! Which components of a bundle are enabled (OSGi Compendium 8, chapter 112, "Enabled").
ghost use Rattle.component_dto.specs.declared.description.Description.{Description};
ghost use Rattle.scr_starting.specs.Enabled.{are_enabled, has_disabled};
ghost use Rattle.scr_world.specs.Replies.{flag_of};
ghost use Rattle.scr_world.specs.Tables.{defaults, with_flag};
ghost use Rattle.std.specs.List.{list_any};
ghost use Rattle.std.specs.Prelude.{◌≡◌, IfOk, if◌then◌else◌};
ghost use Rattle.std.specs.Str.{bytes_eq};

use component_dto::Description;
use prop_map::{List, OutOfMemory, Str};
use std::alloc::Global;

/// Whether a description is there that has this name.
pub(crate) fn has_component(descriptions: &[Description], name: &Str) -> bool
    ensures { result ≡ list_any (λ (d : Description). bytes_eq d.name name.now) descriptions.now }
{
    descriptions
        .iter()
        .any(|description| description.name == *name)
}

/// Whether the description of this name is enabled.
pub(crate) fn flag_of(descriptions: &[Description], enabled: &[bool], name: &Str) -> bool
    ensures { result ≡ flag_of name.now descriptions.now enabled.now }
{
    for (description, enabled) in descriptions.iter().zip(enabled) {
        if description.name == *name && *enabled {
            return true;
        }
    }
    false
}

/// Whether each description of this name is enabled, so that to enable it changes no flag. It takes no memory.
pub(crate) fn are_enabled(descriptions: &[Description], enabled: &[bool], name: &Str) -> bool
    ensures { result ≡ are_enabled name.now descriptions.now enabled.now }
{
    enabled.len() <= descriptions.len() && !has_disabled(descriptions, enabled, name)
}

// Whether a description of this name isn't enabled.
fn has_disabled(descriptions: &[Description], enabled: &[bool], name: &Str) -> bool
    ensures { result ≡ has_disabled name.now descriptions.now enabled.now }
{
    for (description, enabled) in descriptions.iter().zip(enabled) {
        if description.name == *name && !*enabled {
            return true;
        }
    }
    false
}

/// Which descriptions are enabled as by default.
///
/// # Errors
/// Only want of memory.
pub(crate) fn defaults(
    alloc: Global,
    descriptions: &[Description],
) -> Result<List<bool>, OutOfMemory>
    ensures { IfOk result (λ flags. flags ≡ defaults descriptions.now) }
{
    let mut flags = Vec::new(alloc);
    for description in descriptions {
        flags.push(description.default_enabled)?;
    }
    Ok(List::of(flags))
}

/// Which descriptions are enabled where that of this name has another flag.
///
/// # Errors
/// Only want of memory.
pub(crate) fn with_flag(
    alloc: Global,
    name: &Str,
    flag: bool,
    descriptions: &[Description],
    enabled: &[bool],
) -> Result<List<bool>, OutOfMemory>
    ensures { IfOk result (λ flags. flags ≡ with_flag name.now flag descriptions.now enabled.now) }
{
    let mut flags = Vec::new(alloc);
    for (description, enabled) in descriptions.iter().zip(enabled) {
        flags.push(flag_then(name, flag, description, *enabled))?;
    }
    Ok(List::of(flags))
}

fn flag_then(name: &Str, flag: bool, description: &Description, enabled: bool) -> bool
    ensures { result ≡ (if bytes_eq description.now.name name.now then flag else enabled) }
{
    if description.name == *name {
        flag
    } else {
        enabled
    }
}
