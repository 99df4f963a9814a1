//! The owners of entries.
ghost use Rattle.hall_locked.specs.Owned.{owners_up_to};
ghost use Rattle.std.specs.Prelude.{◌≡◌, ◌<◌, length, vec_capacity, vec_len};

use scr_core::Core;

// Writes down the owner of the entry that was appended just now, if one was.
pub(crate) fn note_owner(core: &Core, owners: &mut Vec<u64>, owner: u64)
    requires place { vec_len owners.old < vec_capacity owners.old }
    ensures { owners.new.items ≡ owners_up_to (length core.now.journal) owner owners.old.items }
{
    if (owners.len() as u64) < core.journal().length() {
        owners.push_reserved(owner);
    }
}
