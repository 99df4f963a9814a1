//! Drains of the gates that are shut: nobody is inside of one, so each is posted at once.
ghost use Rattle.platform_hall.specs.Platforms.{Posts, has_drain};
ghost use Rattle.std.specs.Prelude.{◌≡◌, false, OnOk};

use prop_map::OutOfMemory;
use scr_requests::Core;
use std::alloc::Global;

// Posts the drains that are awaited.
pub(crate) fn post_drains(alloc: Global, core: &mut Core) -> Result<(), OutOfMemory>
    ensures step { Posts core.old core.new }
    ensures ok { OnOk result (has_drain core.new ≡ false) }
{
    while let Some(key) = core.next_drain() {
        core.drained(alloc, key)?;
    }
    Ok(())
}
