//! Which component configurations are open.
ghost use Rattle.component_state.specs.Periods.{is_open};
ghost use Rattle.component_state.specs.declared.open_period.OpenPeriod.{OpenPeriod};
ghost use Rattle.prop_map.specs.Words.{has};
ghost use Rattle.std.specs.Prelude.{◌≡◌, ℕ, IfOk, map};

use component_state::OpenPeriod;
use prop_map::OutOfMemory;
use std::alloc::Global;
use std::marker::Model;

/// The numbers of the open component configurations, found by halving. Contracts see the open periods.
#[derive(Drop)]
pub(crate) struct OpenNumbers<'p> {
    periods: &'p [OpenPeriod],
    numbers: Vec<u64>,
}

impl<'p> Model for OpenNumbers<'p> {
    ghost use Rattle.component_state.specs.Periods.{is_open};
    ghost use Rattle.component_state.specs.declared.open_period.OpenPeriod.{OpenPeriod};
    ghost use Rattle.prop_map.specs.Words.{has};
    ghost use Rattle.std.specs.List.Sorted.{IsSorted};
    ghost use Rattle.std.specs.Ordering.{nat_cmp};
    ghost use Rattle.std.specs.Prelude.{◌≡◌, ℕ, List};

    ghost Value = { List OpenPeriod };

    ghost view = { λ o. o.periods.now };

    ghost invariant = { λ o. IsSorted nat_cmp o.numbers.items × ((number : ℕ) → has o.numbers.items number ≡ is_open o.periods.now number) };
}

impl<'p> OpenNumbers<'p> {
    /// Those of these open periods.
    ///
    /// # Errors
    /// Only want of memory.
    #[tactic(auto, using(crate::proofs::NumberLemmas::has_moved, crate::proofs::NumberLemmas::open_is))]
    pub(crate) fn of(
        alloc: Global,
        periods: &'p [OpenPeriod],
    ) -> Result<OpenNumbers<'p>, OutOfMemory>
        ensures { IfOk result (λ numbers. numbers ≡ periods.entry.now) }
    {
        let mut numbers = numbers_of(alloc, periods)?;
        numbers.sort_unstable();
        Ok(OpenNumbers { periods, numbers })
    }

    /// Whether the component configuration of a number is open. It takes no memory.
    pub(crate) fn has(&self, number: u64) -> bool
        ensures { result ≡ is_open self.now number }
    {
        self.numbers.binary_search(&number).is_ok()
    }
}

fn numbers_of(alloc: Global, periods: &[OpenPeriod]) -> Result<Vec<u64>, OutOfMemory>
    ensures { IfOk result (λ v. v.items ≡ map (λ (p : OpenPeriod). p.configuration) periods.now) }
{
    let mut numbers = Vec::new(alloc);
    for period in periods {
        numbers.push(period.configuration)?;
    }
    Ok(numbers)
}
