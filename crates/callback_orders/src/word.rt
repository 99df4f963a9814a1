//! The callbacks of one instance so far (OSGi Compendium 8, section 112.5 "Component Life Cycle").
ghost use Rattle.callback_orders.specs.Sequences.{all_but_last, begun, ended, have_ended, is_in_order, is_outstanding, is_sequence, is_whiteboard_sequence};
ghost use Rattle.callback_orders.specs.Grammar.{IsSequence, IsWhiteboardSequence};
ghost use Rattle.callback_orders.specs.Lives.{IsViewOf, MayComeNext, callback_of, is_living, speaks_of};
ghost use Rattle.callback_orders.specs.Due.{due_of};
ghost use Rattle.callback_orders.specs.declared.callback.Callback.{Callback};
ghost use Rattle.callback_orders.specs.declared.callback.Outcome.{Outcome};
ghost use Rattle.callback_orders.specs.declared.due.DueRef.{DueRef};
ghost use Rattle.callback_orders.specs.declared.instance_view.InstanceView.{InstanceView};
ghost use Rattle.callback_orders.specs.declared.word.Called.{Called};
ghost use Rattle.std.specs.Prelude.{◌↔◌, ℕ, ◌<◌, length, List, ◌≡◌, ◌++◌, ◌∷◌, [], IfOk, IsTrue, OnOk, OnErr};

use crate::{Callback, Outcome, is_outstanding};
use prop_map::{Copies, OutOfMemory};
use std::alloc::Global;
use std::marker::Model;

/// A callback that has begun, and its outcome once it has ended.
#[derive(Debug, PartialEq, Eq, Drop)]
pub struct Called {
    /// What the instance is told.
    pub callback: Callback,
    /// How it ended, `None` as long as it hasn't.
    pub outcome: Option<Outcome>,
}

/// The callbacks of one instance so far, each with its outcome once it has ended. At any time they are the front of a finished
/// sequence: Create; Binds and Unbinds; perhaps Activate and, where that was done, Binds, Unbinds, Updateds and Modifieds up to
/// Deactivate; Unbinds; Destroy. A Create that isn't done is the whole. For each reference and service Bind and Unbind alternate,
/// an Updated stands between them, and at Destroy nothing is bound. The whiteboard's instance has Binds and Unbinds alone.
#[derive(Drop)]
pub struct Word {
    calls: Vec<Called>,
}

impl Model for Word {
    ghost use Rattle.std.specs.Prelude.{List, IsTrue};
    ghost use Rattle.callback_orders.specs.declared.word.Called.{Called};

    ghost Value = { List Called };

    ghost use Rattle.callback_orders.specs.Sequences.{is_in_order};

    ghost view = { λ w. w.calls.items };

    ghost invariant = { λ w. IsTrue (is_in_order w.calls.items) };
}

impl Copies for Called {
    fn copy(&self, alloc: Global) -> Result<Called, OutOfMemory> {
        Ok(Called {
            callback: self.callback.copy(alloc)?,
            outcome: self.outcome,
        })
    }
}

impl Copies for Word {
    fn copy(&self, alloc: Global) -> Result<Word, OutOfMemory> {
        let mut calls = Vec::new(alloc);
        for called in self.calls() {
            calls.push(called.copy(alloc)?)?;
        }
        Ok(Word { calls })
    }
}

impl Word {
    /// The callbacks of an instance that has none yet.
    ///
    /// # Errors
    /// Only want of memory.
    pub fn new(alloc: Global) -> Result<Word, OutOfMemory>
        ensures { IfOk result (λ word. word ≡ []) }
    {
        Ok(Word {
            calls: Vec::new(alloc),
        })
    }

    /// For contracts alone: the tests of callbacks so far say what the grammar of finished callbacks says.
    pub fn note_grammar()
        ensures instance { (calls : List Called) → IsTrue (is_sequence calls) ↔ IsSequence calls }
        ensures whiteboard { (calls : List Called) → IsTrue (is_whiteboard_sequence calls) ↔ IsWhiteboardSequence calls }
    {}

    /// For contracts alone: the callback that is due may follow an instance's callbacks so far. A callback that ends leaves them in
    /// order, and one that begins and is taken back leaves them as they were.
    pub fn note_due()
        ensures due { (names : List (List ℕ)) → (calls : List Called) → (view : InstanceView) → (due : DueRef) → IsTrue (is_sequence calls) → IsTrue (is_living calls) → 0 < length calls → IsViewOf names calls view → due_of view ≡ Some due → MayComeNext names calls (callback_of names due) }
        ensures ended { (outcome : Outcome) → (calls : List Called) → is_sequence (ended outcome calls) ≡ is_sequence calls }
        ensures spoken { (names : List (List ℕ)) → (outcome : Outcome) → (calls : List Called) → speaks_of names (ended outcome calls) ≡ speaks_of names calls }
        ensures taken_back { (calls : List Called) → (callback : Callback) → all_but_last (calls ++ begun callback ∷ []) ≡ calls }
    {}

    /// The callbacks, the first one first. They are in order.
    pub fn calls(&self) -> &[Called]
        ensures all { result.now ≡ self.now }
        ensures order { IsTrue (is_in_order self.now) }
    {
        self.calls.as_slice()
    }

    /// Adds a callback that begins. All others must have ended, and it must be one that may follow them.
    ///
    /// # Errors
    /// Only want of memory. The callbacks are then as they were.
    pub fn push(&mut self, callback: Callback) -> Result<(), OutOfMemory>
        requires ended { IsTrue (have_ended self.old) }
        requires order { IsTrue (is_in_order (self.old ++ begun callback ∷ [])) }
        ensures ok { OnOk result (self.new ≡ self.old ++ begun callback ∷ []) }
        ensures err { OnErr result (self.new ≡ self.old) }
    {
        self.calls.push(Called {
            callback,
            outcome: None,
        })?;
        Ok(())
    }

    /// Whether a callback has begun and not ended. It takes no memory.
    pub fn is_outstanding(&self) -> bool
        ensures { result ≡ is_outstanding self.now }
    {
        is_outstanding(self.calls.as_slice())
    }

    /// Takes back the last callback, which must not have ended yet: the others are then as they were before its
    /// [`push`](Word::push). It takes no memory.
    pub fn take_back(&mut self)
        requires { IsTrue (is_outstanding self.old) }
        ensures { self.new ≡ all_but_last self.old }
    {
        self.calls.pop();
    }

    /// Ends the last callback, which must not have ended yet. It takes no memory.
    pub fn end(&mut self, outcome: Outcome)
        requires { IsTrue (is_outstanding self.old) }
        ensures { self.new ≡ ended outcome self.old }
    {
        let last = self.calls.len() - 1;
        self.calls[last].outcome = Some(outcome);
    }
}
