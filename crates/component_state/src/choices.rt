//! What was chosen for the references of an instance.
ghost use Rattle.component_state.specs.Reasons.{choice_at};
ghost use Rattle.std.specs.Prelude.{◌≡◌};

use crate::Choice;

/// The services that were chosen for the reference at an index, none where there is no choice for it.
pub fn choice_at(choices: &[Choice], index: u64) -> &[u64]
    ensures { result.now ≡ choice_at choices.now index }
{
    for choice in choices {
        if choice.reference == index {
            return choice.services.as_slice();
        }
    }
    &[]
}
