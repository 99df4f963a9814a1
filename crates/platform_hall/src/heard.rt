//! Of which turns objects heard.
ghost use Rattle.platform_hall.specs.Desks.{heard_of, is_heard};
ghost use Rattle.std.specs.Prelude.{◌≡◌, ◌++◌, ◌<◌, Some, vec_capacity, vec_len};

use turn_runner::TurnWork;

fn is_heard(work: &TurnWork) -> bool
    ensures { result ≡ is_heard work.now }
{
    work.needs_object() && !work.callback.is_destroy()
}

// Writes a turn down of which the object of its instance is to hear.
pub(crate) fn note_heard(told: &mut Vec<u64>, work: &TurnWork)
    requires { vec_len told.old < vec_capacity told.old }
    ensures { told.new.items ≡ told.old.items ++ heard_of (Some work.now) }
{
    if is_heard(work) {
        told.push_reserved(work.number);
    }
}
