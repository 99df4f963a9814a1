//! Numbers that are found by halving. Our own.
ghost use Rattle.prop_map.specs.Words.{has};
ghost use Rattle.std.specs.Prelude.{◌≡◌, ℕ};

use std::marker::Model;

/// Numbers, in their order.
#[derive(Drop)]
pub(crate) struct SortedNumbers {
    numbers: Vec<u64>,
}

impl Model for SortedNumbers {
    ghost use Rattle.std.specs.Prelude.{List, ℕ};
    ghost use Rattle.std.specs.List.Sorted.{IsSorted};
    ghost use Rattle.std.specs.Ordering.{nat_cmp};

    ghost Value = { List ℕ };

    ghost view = { λ s. s.numbers.items };

    ghost invariant = { λ s. IsSorted nat_cmp s.numbers.items };
}

impl SortedNumbers {
    /// The same numbers in their order. It takes no memory.
    #[tactic(auto, using(crate::proofs::SortedLemmas::has_moved))]
    pub(crate) fn of(numbers: Vec<u64>) -> SortedNumbers
        ensures { (number : ℕ) → has result number ≡ has numbers.items number }
    {
        let mut numbers = numbers;
        numbers.sort_unstable();
        SortedNumbers { numbers }
    }

    /// Whether a number is among them.
    pub(crate) fn has(&self, number: u64) -> bool
        ensures { result ≡ has self.now number }
    {
        self.numbers.binary_search(&number).is_ok()
    }
}
