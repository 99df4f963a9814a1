//! Tables whose rows stand by ascending number, changed in place.
ghost use Rattle.prop_map.specs.Tables.{IsAscending, changed};
ghost use Rattle.std.specs.Prelude.{◌≡◌, ◌<◌, ℕ, List, length, map, slice_index_or, slice_set};

/// For contracts alone: where rows stand by ascending number, to change the row of a number is to write at its place.
#[tactic(auto, using(crate::proofs::InPlace::changed_in_place))]
pub fn note_changed_in_place()
    ensures { (number_of : ℕ × ℕ → ℕ) (f : (ℕ × ℕ) → ℕ × ℕ) (number place : ℕ) (rows : List (ℕ × ℕ)) (row : ℕ × ℕ) →
        IsAscending number_of rows → place < length rows → number_of (slice_index_or rows place row) ≡ number →
        map (changed number_of f number) rows ≡ slice_set rows place (f (slice_index_or rows place row)) }
{}
