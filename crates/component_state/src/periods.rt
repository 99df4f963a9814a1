//! Which component configurations are open.
ghost use Rattle.component_state.specs.Periods.{is_current, is_open};
ghost use Rattle.std.specs.Prelude.{◌≡◌};

use crate::{OpenPeriod, Origin};

/// Whether the component configuration of a number is among these open ones.
pub fn is_open(periods: &[OpenPeriod], number: u64) -> bool
    ensures { result ≡ is_open periods.now number }
{
    periods.iter().any(|period| period.configuration == number)
}

/// Whether the period in which an instance's Create began is among these open ones.
pub fn is_current(periods: &[OpenPeriod], origin: &Origin) -> bool
    ensures { result ≡ is_current periods.now origin.now }
{
    periods.iter().any(|period| period.configuration == origin.configuration
        && period.opened < origin.created)
}
