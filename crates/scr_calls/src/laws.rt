//! Laws of what calls and requests are answered.
ghost use Rattle.call_moves.specs.Evaluations.{Ended, Meaning, asked_of, fronts_of};
ghost use Rattle.call_moves.specs.Recursion.{Ends, evaluate};
ghost use Rattle.call_moves.specs.declared.nested_call.NestedCall.{NestedCall};
ghost use Rattle.journal_core.specs.declared.entry.Entry.{Entry};
ghost use Rattle.scr_calls.specs.Evaluates.{Evaluates, Rising, reaching, world_up_to};
ghost use Rattle.scr_readers.specs.declared.live.Live.{Live};
ghost use Rattle.scr_world.specs.declared.step.Step.{Step};
ghost use Rattle.scr_world.specs.declared.world.World.{World};
ghost use Rattle.std.specs.Prelude.{◌≡◌, ◌≤◌, ◌++◌, ℕ, List, [], length};

/// For contracts alone: the evaluation of a call is the plain recursion, in which an instance answers what it is asked,
/// or asks a nested call and goes on with its reply.
pub fn note_evaluation()
    ensures forth { (world : ℕ → World) (next : Meaning) (live : Live) (request : List ℕ) (nested : List NestedCall)
        → (end : Ended) → Evaluates world next live request nested end
        → evaluate (reaching world) next 65 0 live.instance (asked_of live.site request) [] (fronts_of nested)
        ≡ Ends nested end [] }
    ensures back { (world : ℕ → World) (next : Meaning) (live : Live) (request : List ℕ) (nested : List NestedCall)
        → (end : Ended)
        → evaluate (reaching world) next 65 0 live.instance (asked_of live.site request) [] (fronts_of nested)
        ≡ Ends nested end [] → Evaluates world next live request nested end }
{}

/// For contracts alone: entries that come later change no world at a length that was there, and no evaluation at such
/// lengths.
pub fn note_later_entries()
    ensures worlds { (journal more : List (Entry Step)) (front : ℕ) → front ≤ length journal
        → world_up_to (journal ++ more) front ≡ world_up_to journal front }
    ensures calls { (journal more : List (Entry Step)) (next : Meaning) (live : Live) (request : List ℕ)
        → (nested : List NestedCall) (end : Ended) (from : ℕ) → Rising from (fronts_of nested) (length journal)
        → Evaluates (world_up_to journal) next live request nested end
        → Evaluates (world_up_to (journal ++ more)) next live request nested end }
{}
