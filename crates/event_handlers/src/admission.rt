//! Which events a handler's filter lets in.
ghost use Rattle.event_handlers.specs.Kept.{admission_by, admission_of, admits};
ghost use Rattle.std.specs.Option.{option_copied};
ghost use Rattle.std.specs.Prelude.{◌≡◌, IfOk};

use ldap_filter::{Filter, FilterFault};
use prop_map::{OutOfMemory, Properties, Value};
use std::alloc::{AllocError, Global};

/// Which events a handler's filter lets in.
#[derive(Drop)]
pub(crate) enum Admission {
    /// All.
    Everything,
    /// Those whose properties a filter matches.
    Matching(Filter),
    /// None.
    Nothing,
}

/// Which events the property of a handler lets in.
///
/// # Errors
/// Only want of memory.
pub(crate) fn admission_by(alloc: Global, value: Option<&Value>) -> Result<Admission, OutOfMemory>
    ensures { IfOk result (λ admission. admission ≡ admission_by (option_copied value.entry)) }
{
    match value {
        None => Ok(Admission::Everything),
        Some(Value::Text(text)) => admission_of(alloc, text.as_str()),
        Some(_) => Ok(Admission::Nothing),
    }
}

#[tactic(auto, using(crate::proofs::AdmissionLemmas::by_filter, crate::proofs::AdmissionLemmas::by_bad, crate::proofs::AdmissionLemmas::by_deep))]
fn admission_of(alloc: Global, text: &str) -> Result<Admission, OutOfMemory>
    ensures { IfOk result (λ admission. admission ≡ admission_of text.now) }
{
    match Filter::parse(alloc, text) {
        Ok(filter) => Ok(Admission::Matching(filter)),
        Err(FilterFault::OutOfMemory) => Err(AllocError),
        Err(FilterFault::BadFilter { .. }) => Ok(Admission::Nothing),
        Err(FilterFault::TooDeep { .. }) => Ok(Admission::Nothing),
    }
}

impl Admission {
    /// Whether it lets in an event that is told so. It takes no memory.
    pub(crate) fn admits(&self, told: &Properties) -> bool
        ensures { result ≡ admits told.now self.now }
    {
        match self {
            Admission::Everything => true,
            Admission::Matching(filter) => filter.matches(told),
            Admission::Nothing => false,
        }
    }
}
