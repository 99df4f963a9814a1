//! Descriptions with their levels.
ghost use Rattle.scr_installing.specs.Described.{IsDescribed};
ghost use Rattle.scr_world.specs.Tables.{descriptions_of};
ghost use Rattle.std.specs.Prelude.{◌≡◌, ◌++◌, IfOk, OnOk};

use component_dto::Description;
use level_order::{LevelFault, levels};
use prop_map::{Copies, List, OutOfMemory};
use scr_world::{Contents, CoreFault};
use std::alloc::Global;

/// Descriptions, and their levels in the same order.
#[derive(Drop)]
pub(crate) struct Described {
    /// The descriptions.
    pub(crate) descriptions: List<Description>,
    /// Their levels.
    pub(crate) levels: List<u32>,
}

/// These descriptions with their levels.
///
/// # Errors
/// `Cycle`, with the told path, exactly where some of them has no level.
pub(crate) fn with_levels(
    alloc: Global,
    descriptions: List<Description>,
) -> Result<Described, CoreFault>
    ensures { IsDescribed descriptions result }
{
    match levels(alloc, descriptions.as_slice()) {
        Ok(levels) => Ok(Described {
            descriptions,
            levels,
        }),
        Err(LevelFault::Cycle { path }) => Err(CoreFault::Cycle { path }),
        Err(LevelFault::OutOfMemory) => Err(CoreFault::OutOfMemory),
    }
}

/// The descriptions of all these bundles, copied.
///
/// # Errors
/// Only want of memory.
pub(crate) fn descriptions_in(
    alloc: Global,
    documents: &[Contents],
) -> Result<List<Description>, OutOfMemory>
    ensures { IfOk result (λ all. all ≡ descriptions_of documents.now) }
{
    let mut all = Vec::new(alloc);
    for contents in documents {
        add_copies(
            alloc,
            &mut all,
            contents.document.get().descriptions.as_slice(),
        )?;
    }
    Ok(List::of(all))
}

/// These descriptions and those behind them, copied.
///
/// # Errors
/// Only want of memory.
pub(crate) fn joined_copies(
    alloc: Global,
    these: &[Description],
    those: &[Description],
) -> Result<List<Description>, OutOfMemory>
    ensures { IfOk result (λ all. all ≡ these.now ++ those.now) }
{
    let mut all = Vec::new(alloc);
    add_copies(alloc, &mut all, these)?;
    add_copies(alloc, &mut all, those)?;
    Ok(List::of(all))
}

fn add_copies(
    alloc: Global,
    all: &mut Vec<Description>,
    more: &[Description],
) -> Result<(), OutOfMemory>
    ensures { OnOk result (all.new.items ≡ all.old.items ++ more.now) }
{
    for description in more {
        all.push(description.copy(alloc)?)?;
    }
    Ok(())
}
