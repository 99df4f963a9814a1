//! What a call answers to whom memory is wanting before it asks the core: the refusal that is due all the same, else that memory is
//! wanting.
ghost use Rattle.platform_hall.specs.Calls.{GetsUse};
ghost use Rattle.platform_hall.specs.Platforms.{CoreTakes};
ghost use Rattle.std.specs.Prelude.{Err};

use scr_core::{Command, Core, CoreFault};
use std::alloc::Global;

// Of a command, which is let go.
pub(crate) fn starved_command(alloc: Global, core: &Core, command: Command) -> CoreFault
    ensures { CoreTakes core.now command (Err result) core.now }
{
    core.refusal_of(alloc, command)
        .unwrap_or(CoreFault::OutOfMemory)
}

// Of a get by token.
pub(crate) fn starved_get(core: &Core, bundle: u64, service: u64) -> CoreFault
    ensures { GetsUse core.now bundle service (Err result) core.now }
{
    core.refusal_of_get(bundle, service)
        .unwrap_or(CoreFault::OutOfMemory)
}
