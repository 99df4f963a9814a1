//! What may lie under the lock.
ghost use Rattle.std.specs.Prelude.{◌≡◌, List, ℕ, length};

/// A value with entries, each of which has an owner.
pub trait Grows {
    /// What an entry is, without its owner.
    type Entry;

    /// The entries in order, each with its owner.
    ghost entries: { Self → List (ℕ × Self.Entry) };

    /// What it keeps for passes, as a turn that one of them began: things in order, each with its owner, the number of a
    /// pass. A value that keeps nothing says `[]`.
    ghost kept: { Self → List (ℕ × ℕ) };

    /// What the value is tied to for good. Whoever has a pass knows it; a value that is tied to nothing says `[]`.
    ghost tie: { Self → List ℕ };

    /// How many entries it has.
    fn length(&self) -> u64
        ensures { result ≡ length (entries self.now) };
}
