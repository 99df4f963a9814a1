//! The PIDs of a component's configurations.
ghost use Rattle.std.specs.Prelude.{◌≡◌, ◌∷◌, [], IfOk, map};
ghost use Rattle.component_dto.specs.Descriptions.{pid_of, pids_of};
ghost use Rattle.component_dto.specs.TextLists.{each_once};

use crate::text_lists::each_once;
use prop_map::{Copies, List, OutOfMemory, Str};
use std::alloc::Global;

/// The PIDs of a component of this name, each once at its first place. `$` stands for the name, which is the default.
pub(crate) fn pids_of(alloc: Global, name: &Str, given: List<Str>) -> Result<List<Str>, OutOfMemory>
    ensures { IfOk result (λ pids. pids ≡ pids_of name.now given) }
{
    if !given.as_slice().is_empty() {
        return named_once(alloc, name, given);
    }
    let mut pids = Vec::new(alloc);
    pids.push(name.copy(alloc)?)?;
    Ok(List::of(pids))
}

// Repeated ones go before the name is put in too, so that the name, which may be long, is copied once.
fn named_once(alloc: Global, name: &Str, given: List<Str>) -> Result<List<Str>, OutOfMemory>
    ensures { IfOk result (λ pids. pids ≡ each_once (map (pid_of name.now) given)) }
{
    let different = each_once(alloc, given)?;
    let named = each_pid(alloc, name, different)?;
    each_once(alloc, named)
}

fn each_pid(alloc: Global, name: &Str, given: List<Str>) -> Result<List<Str>, OutOfMemory>
    ensures { IfOk result (λ pids. pids ≡ map (pid_of name.now) given) }
{
    let mut pids = Vec::new(alloc);
    for pid in given.items() {
        pids.push(pid_of(alloc, name, pid)?)?;
    }
    Ok(List::of(pids))
}

fn pid_of(alloc: Global, name: &Str, pid: Str) -> Result<Str, OutOfMemory>
    ensures { IfOk result (λ found. found ≡ pid_of name.now pid) }
{
    if pid.as_str() == "$" {
        name.copy(alloc)
    } else {
        Ok(pid)
    }
}
