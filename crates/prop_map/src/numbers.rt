//! Lists of numbers.
ghost use Rattle.prop_map.specs.Words.{has};
ghost use Rattle.std.specs.Prelude.{◌≡◌};

/// Whether a number is in a list. It takes no memory.
pub fn has(numbers: &[u64], number: u64) -> bool
    ensures { result ≡ has numbers.now number }
{
    numbers.iter().any(|one| *one == number)
}
