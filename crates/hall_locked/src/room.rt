//! Room in lists.
ghost use Rattle.std.specs.Prelude.{◌≡◌, ◌<◌, OnOk, vec_capacity, vec_len};

use prop_map::OutOfMemory;

// Takes room for one more in each of two lists, which stay as they are.
pub(crate) fn room_in<A, B>(one: &mut Vec<A>, other: &mut Vec<B>) -> Result<(), OutOfMemory>
    ensures one { one.new.items ≡ one.old.items }
    ensures other { other.new.items ≡ other.old.items }
    ensures room { OnOk result ((vec_len one.new < vec_capacity one.new) × (vec_len other.new < vec_capacity other.new)) }
{
    one.reserve(1)?;
    other.reserve(1)
}

// Lets a value go whose parts needn't be named where it ends.
pub(crate) fn let_go<T: Drop>(_value: T) {}
