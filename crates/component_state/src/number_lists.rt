//! Lists of numbers.
ghost use Rattle.prop_map.specs.Words.{has, same_set};
ghost use Rattle.std.specs.List.{list_all};
ghost use Rattle.std.specs.Prelude.{◌≡◌};

use prop_map::has;

// Whether the numbers of one list are those of the other, as sets.
pub(crate) fn same_set(left: &[u64], right: &[u64]) -> bool
    ensures { result ≡ same_set left.now right.now }
{
    has_all(right, left) && has_all(left, right)
}

// Whether the numbers have all the wanted ones among them.
pub(crate) fn has_all(numbers: &[u64], wanted: &[u64]) -> bool
    ensures { result ≡ list_all (has numbers.now) wanted.now }
{
    wanted.iter().all(|number| has(numbers, *number))
}
