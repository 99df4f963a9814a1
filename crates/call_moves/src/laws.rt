//! Laws of calls.
ghost use Rattle.call_moves.specs.Evaluations.{Calling, ComesTo, Ended, Frame, Instance, Meaning, Nobody, Reaching};
ghost use Rattle.call_moves.specs.Evaluations.{TooLong, after_moves, all_moves, asked_of, begun, fronts_of, going_on};
ghost use Rattle.call_moves.specs.Evaluations.{is_too_long, nested_call, reply_by, taken_up, with_reply_at};
ghost use Rattle.call_moves.specs.Fronts.{Agree, IsFed, IsOver, Rests, with_further};
ghost use Rattle.call_moves.specs.Progress.{EndsBy, HasCome, next_move};
ghost use Rattle.call_moves.specs.Recursion.{as_over, evaluate};
ghost use Rattle.call_moves.specs.declared.nested_call.NestedCall.{NestedCall};
ghost use Rattle.kind_trait.specs.Meanings.{Calls};
ghost use Rattle.kind_trait.specs.declared.nested_reply.NestedReply.{NestedReply};
ghost use Rattle.std.specs.Prelude.{◌≡◌, ◌≤◌, ◌++◌, ◌∷◌, ℕ, List, [], None, Some, false, length, true};
ghost use Rattle.turn_work.specs.declared.site.Site.{Site};

/// For contracts alone: what a call comes to is the plain recursion, in which an instance answers what it is asked, or
/// asks a nested call and goes on with its reply. Cut off at a depth of 65 it is whole.
pub fn note_recursion()
    ensures { (reaches : Reaching) (next : Meaning) (instance : ℕ) (site : Site) (request fronts : List ℕ)
        → after_moves reaches next all_moves (begun instance site request fronts)
        ≡ as_over (evaluate reaches next 65 0 instance (asked_of site request) [] fronts) }
{}

/// For contracts alone: no call makes more than 130 moves. Where 64 fronts are to come, it is over then.
pub fn note_moves()
    ensures rests { (reaches : Reaching) (next : Meaning) (instance : ℕ) (site : Site) (request fronts : List ℕ)
        → (k : ℕ) → 130 ≤ k → Rests (after_moves reaches next k (begun instance site request fronts))
        × (after_moves reaches next k (begun instance site request fronts)
        ≡ after_moves reaches next all_moves (begun instance site request fronts)) }
    ensures over { (reaches : Reaching) (next : Meaning) (instance : ℕ) (site : Site) (request fronts : List ℕ)
        → 64 ≤ length fronts → IsOver (after_moves reaches next all_moves (begun instance site request fronts)) }
{}

/// For contracts alone: fronts that come later change no move that was made.
pub fn note_further_fronts()
    ensures { (reaches : Reaching) (next : Meaning) (k : ℕ) (c : Calling) (more : List ℕ)
        → IsFed (after_moves reaches next k c)
        → after_moves reaches next k (with_further more c) ≡ with_further more (after_moves reaches next k c) }
{}

/// For contracts alone: a call comes to the same where nested calls reach the same at its fronts, whatever they reach
/// elsewhere.
pub fn note_other_worlds()
    ensures { (reaches others : Reaching) (next : Meaning) (instance : ℕ) (site : Site) (request : List ℕ)
        → (nested : List NestedCall) (end : Ended) → Agree reaches others (fronts_of nested)
        → ComesTo reaches next instance site request nested end → ComesTo others next instance site request nested end }
{}

/// For contracts alone: a call goes on step by step, whatever fronts are to come. It starts with the call that is taken
/// up. A nested call that is allowed reaches nobody and has its reply at once, or the instance that it reaches takes it
/// up; a call that ends goes back to the one that waits for it. It is over where none waits, or where a nested call would
/// be one too many, and then it comes to that end.
pub fn note_steps()
    ensures starts { (reaches : Reaching) (next : Meaning) (instance : ℕ) (site : Site) (request : List ℕ)
        → HasCome reaches next instance site request [] (taken_up instance site request 0) [] }
    ensures nobody { (reaches : Reaching) (next : Meaning) (instance : ℕ) (site : Site) (request : List ℕ)
        → (waiting : List Frame) (f : Frame) (nested : List NestedCall) (reference text : List ℕ) (front service : ℕ)
        → (reply : NestedReply)
        → HasCome reaches next instance site request waiting f nested → next_move next f ≡ Calls reference text
        → is_too_long (length waiting) nested ≡ false → reaches front f.instance reference ≡ Nobody service reply
        → HasCome reaches next instance site request waiting (going_on f reply)
        (nested ++ nested_call front service text (Some reply) ∷ []) }
    ensures taken { (reaches : Reaching) (next : Meaning) (instance : ℕ) (site : Site) (request : List ℕ)
        → (waiting : List Frame) (f : Frame) (nested : List NestedCall) (reference text : List ℕ)
        → (front service number : ℕ) (other : Site)
        → HasCome reaches next instance site request waiting f nested → next_move next f ≡ Calls reference text
        → is_too_long (length waiting) nested ≡ false → reaches front f.instance reference ≡ Instance service number other
        → HasCome reaches next instance site request (f ∷ waiting) (taken_up number other text (length nested))
        (nested ++ nested_call front service text None ∷ []) }
    ensures back { (reaches : Reaching) (next : Meaning) (instance : ℕ) (site : Site) (request : List ℕ)
        → (before : Frame) (waiting : List Frame) (f : Frame) (nested : List NestedCall) (end : Ended)
        → HasCome reaches next instance site request (before ∷ waiting) f nested → EndsBy (next_move next f) end
        → HasCome reaches next instance site request waiting (going_on before (reply_by end))
        (with_reply_at f.place (reply_by end) nested) }
    ensures done { (reaches : Reaching) (next : Meaning) (instance : ℕ) (site : Site) (request : List ℕ)
        → (f : Frame) (nested : List NestedCall) (end : Ended)
        → HasCome reaches next instance site request [] f nested → EndsBy (next_move next f) end
        → ComesTo reaches next instance site request nested end }
    ensures too_long { (reaches : Reaching) (next : Meaning) (instance : ℕ) (site : Site) (request : List ℕ)
        → (waiting : List Frame) (f : Frame) (nested : List NestedCall) (reference text : List ℕ)
        → HasCome reaches next instance site request waiting f nested → next_move next f ≡ Calls reference text
        → is_too_long (length waiting) nested ≡ true → ComesTo reaches next instance site request nested TooLong }
{}
