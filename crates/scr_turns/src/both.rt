//! Values that are made beside each other.
ghost use Rattle.std.specs.Prelude.{◌≡◌, IfOk, Ok};

use prop_map::OutOfMemory;

/// Both values, where both are there. Who makes several has none of them in hand while the next is made, so no way out
/// has to let one go.
///
/// # Errors
/// Want of memory, where either found none.
pub(crate) fn both<A: Drop, B: Drop>(
    first: Result<A, OutOfMemory>,
    second: Result<B, OutOfMemory>,
) -> Result<(A, B), OutOfMemory>
    ensures first { IfOk result (λ made. first ≡ Ok made.0) }
    ensures second { IfOk result (λ made. second ≡ Ok made.1) }
{
    let first = first?;
    let second = second?;
    Ok((first, second))
}
