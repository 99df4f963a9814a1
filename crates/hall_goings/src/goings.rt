//! Laws of goings on.
ghost use Rattle.front_lock.specs.Histories.{Distinct, Extends};
ghost use Rattle.front_lock.specs.Passes.{PassView, names_of};
ghost use Rattle.hall_goings.specs.Went.{AllStand, Went, owned_by, placed, up_to};
ghost use Rattle.std.specs.Prelude.{◌≡◌, ◌+◌, ◌≤◌, ℕ, List, [], ◌++◌, length};

/// For contracts alone: a pass that goes on nowhere appends nothing, and goings on join.
pub fn note_goes_on<E>()
    ensures nowhere { (pass : PassView E) → Went pass pass [] }
    ensures joins { (first second third : PassView E) → (xs ys : List (ℕ × E)) → Went first second xs → Went second third ys → Went first third (xs ++ ys) }
{}

/// For contracts alone: a turn at the lock is a going on. The entries that the pass appended in it are its own, at the places from
/// the length of what it found.
pub fn note_stretch<E>()
    ensures { (before after : PassView E) → (began log : List (ℕ × E)) → (es : List E) → (kept : List (ℕ × ℕ)) → Distinct (names_of before) → Extends (names_of before) before.seen began
        → log ≡ began ++ owned_by before.number es → after ≡ record before { seen = log; kept = kept; entered = before.entered + 1 } → Went before after (placed (length began) es) }
{}

/// For contracts alone: what a pass has seen up to a front stays as it goes on, and it has seen no less.
pub fn note_front_stays<E>()
    ensures longer { (before after : PassView E) → (own : List (ℕ × E)) → Went before after own → length before.seen ≤ length after.seen }
    ensures same { (before after : PassView E) → (own : List (ℕ × E)) → (front : ℕ) → Went before after own → front ≤ length before.seen → up_to front after ≡ up_to front before }
{}

/// For contracts alone: the entries that became the pass's own stand in what it has seen, at their places, under its number.
pub fn note_own_stand<E>()
    ensures { (before after : PassView E) → (own : List (ℕ × E)) → Went before after own → AllStand before.number (length before.seen) after.seen own }
{}
