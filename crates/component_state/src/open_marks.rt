//! Marks beside open periods.
ghost use Rattle.component_state.specs.Inside.OpenMarks.{marked, marked_now};
ghost use Rattle.component_state.specs.Inside.Ready.{configurations_open};
ghost use Rattle.std.specs.Prelude.{◌≡◌, ◌==◌, ◌||◌, ℕ, List, [], IfOk, length};

use crate::OpenPeriod;
use prop_map::OutOfMemory;
use std::alloc::Global;

// Marks the open period of a component configuration, if there is one.
pub(crate) fn mark(periods: &[OpenPeriod], marks: &mut Vec<bool>, configuration: u64)
    requires { length marks.old.items ≡ length periods.now }
    ensures { marks.new.items ≡ marked_now configuration periods.now marks.old.items }
{
    mark_each(periods, marks.as_mut_slice(), configuration);
}

#[tactic(auto, using(crate::proofs::ChangeLemmas::marked_next))]
fn mark_each(periods: &[OpenPeriod], marks: &mut [bool], configuration: u64)
    requires { length marks.old ≡ length periods.now }
    ensures { marks.new ≡ marked_now configuration periods.now marks.old }
{
    for at in 0..periods.len() {
        marks[at] = is_marked(marks[at], &periods[at], configuration);
    }
}

fn is_marked(mark: bool, period: &OpenPeriod, configuration: u64) -> bool
    ensures { result ≡ (mark || (period.now.configuration == configuration)) }
{
    mark || period.configuration == configuration
}

// The component configurations whose open periods are marked.
pub(crate) fn marked(
    alloc: Global,
    periods: &[OpenPeriod],
    marks: &[bool],
) -> Result<Vec<u64>, OutOfMemory>
    requires { length marks.now ≡ length periods.now }
    ensures { IfOk result (λ v. v.items ≡ marked (configurations_open periods.now) marks.now) }
{
    let mut found = Vec::new(alloc);
    for (at, period) in periods.iter().enumerate() {
        if marks[at] {
            found.push(period.configuration)?;
        }
    }
    Ok(found)
}

// So many marks that aren't set.
#[tactic(auto, using(crate::proofs::MarkLemmas::unset_more))]
pub(crate) fn no_marks(alloc: Global, count: usize) -> Result<Vec<bool>, OutOfMemory>
    ensures count { IfOk result (λ v. length v.items ≡ count) }
    ensures unset { IfOk result (λ v. (numbers : List ℕ) → marked numbers v.items ≡ []) }
{
    let mut marks = Vec::new(alloc);
    for at in 0..count {
        let _ = at;
        marks.push(false)?;
    }
    Ok(marks)
}
