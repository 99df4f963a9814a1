//! A lock round a list, and its passes.
ghost use Rattle.std.specs.Prelude.{◌≡◌, [], ◌∷◌, ◌++◌, ◌+◌, OnErr, OnOk};

use front_lock::{FrontLock, Grows, LockFault, Pass};
use std::alloc::{AllocError, Global};
use std::sync::Wait;

// Letters, each with its owner, and marks that are kept for passes.
#[derive(Drop)]
struct Letters {
    items: Vec<(u64, char)>,
    marks: Vec<(u64, u64)>,
}

impl Grows for Letters {
    type Entry = char;

    ghost entries = { λ l. l.items.items };

    ghost kept = { λ l. l.marks.items };

    ghost tie = { λ _. [] };

    fn length(&self) -> u64 {
        self.items.len() as u64
    }
}

impl Letters {
    fn append(&mut self, owner: u64, letter: char) -> Result<(), AllocError>
        ensures ok { OnOk result (self.new.items.items ≡ self.old.items.items ++ (owner, letter) ∷ []) }
        ensures err { OnErr result (self.new.items.items ≡ self.old.items.items) }
        ensures marks { self.new.marks.items ≡ self.old.marks.items }
    {
        self.items.reserve(1)?;
        self.items.push_reserved((owner, letter));
        Ok(())
    }

    fn mark(&mut self, owner: u64, mark: u64) -> Result<(), AllocError>
        ensures items { self.new.items.items ≡ self.old.items.items }
        ensures ok { OnOk result (self.new.marks.items ≡ self.old.marks.items ++ (owner, mark) ∷ []) }
        ensures err { OnErr result (self.new.marks.items ≡ self.old.marks.items) }
    {
        self.marks.reserve(1)?;
        self.marks.push_reserved((owner, mark));
        Ok(())
    }
}

// Appends a letter in a turn of its own, where there is memory.
fn append<R: Wait>(rt: &R, lock: &FrontLock<Letters>, pass: Pass<char>, letter: char) -> Pass<char>
    requires { pass.lock ≡ lock.now }
    ensures { (result.lock ≡ pass.lock) × (result.spare ≡ pass.spare) }
{
    let mut inner = lock.enter(rt, pass);
    let owner = inner.owner();
    let _done = inner.value.append(owner, letter);
    lock.leave(inner)
}

// Keeps a mark for the pass, in a turn of its own, where there is memory.
fn mark<R: Wait>(rt: &R, lock: &FrontLock<Letters>, pass: Pass<char>, mark: u64) -> Pass<char>
    requires { pass.lock ≡ lock.now }
    ensures { (result.lock ≡ pass.lock) × (result.spare ≡ pass.spare) }
{
    let mut inner = lock.enter(rt, pass);
    let owner = inner.owner();
    match inner.value.mark(owner, mark) {
        Ok(()) => lock.leave(inner),
        Err(_) => lock.leave(inner),
    }
}

/// What is done with a new lock and its one pass.
#[derive(Clone, Copy)]
enum Deed {
    /// Each of two passes appends a letter.
    Append,
    /// Each of two passes keeps a mark.
    Mark,
    /// A second pass is to be split.
    Split,
}

// Whether the letters stand in the order of the appends, each under its pass.
fn both_append<R: Wait>(
    rt: &R,
    lock: FrontLock<Letters>,
    first: Pass<char>,
    second: Pass<char>,
) -> bool
    requires { (first.lock ≡ lock) × (second.lock ≡ lock) × (first.spare + second.spare + 1 ≡ 63) }
{
    let number = second.number();
    let second = append(rt, &lock, second, 'b');
    let first = append(rt, &lock, first, 'a');
    let are_seen = first.seen() == 2 && second.seen() == 1;
    let pass = lock.join(rt, first, second);
    let letters = lock.close(pass);
    are_seen && letters.items.as_slice() == [(number, 'b'), (0, 'a')].as_slice()
}

// Whether the marks stand in the order in which they were kept, each under its pass.
fn both_mark<R: Wait>(
    rt: &R,
    lock: FrontLock<Letters>,
    first: Pass<char>,
    second: Pass<char>,
) -> bool
    requires { (first.lock ≡ lock) × (second.lock ≡ lock) × (first.spare + second.spare + 1 ≡ 63) }
{
    let number = second.number();
    let second = mark(rt, &lock, second, 8);
    let first = mark(rt, &lock, first, 7);
    let inner = lock.enter(rt, second);
    let is_fourth = inner.ticket() == 4;
    let second = lock.leave(inner);
    let pass = lock.join(rt, first, second);
    let letters = lock.close(pass);
    is_fourth && letters.marks.as_slice() == [(number, 8), (0, 7)].as_slice()
}

fn is_not_split<R: Wait>(rt: &R, lock: &FrontLock<Letters>, pass: Pass<char>) -> bool
    requires { pass.lock ≡ lock.now }
{
    if pass.spare() != 0 {
        return false;
    }
    match lock.split(rt, pass) {
        Ok(_) => false,
        Err((_, fault)) => fault == LockFault::SeatsFull,
    }
}

fn is_done<R: Wait>(rt: &R, lock: FrontLock<Letters>, pass: Pass<char>, deed: Deed) -> bool
    requires { (pass.lock ≡ lock) × (pass.spare ≡ 63) }
{
    match lock.split(rt, pass) {
        Ok((first, second)) => match deed {
            Deed::Append => both_append(rt, lock, first, second),
            Deed::Mark => both_mark(rt, lock, first, second),
            Deed::Split => is_not_split(rt, &lock, second),
        },
        Err(_) => false,
    }
}

// Whether a deed comes to what it says. No other function makes a lock.
fn holds<R: Wait>(rt: &R, alloc: Global, deed: Deed) -> bool {
    let letters = Letters {
        items: Vec::new(alloc),
        marks: Vec::new(alloc),
    };
    match FrontLock::new(alloc, letters) {
        Ok((lock, pass)) => is_done(rt, lock, pass, deed),
        Err(_) => false,
    }
}

#[test]
fn passes_append_to_one_history(rt: HostRuntime) {
    assert!(rt; holds(&rt, rt.alloc(), Deed::Append));
}

#[test]
fn marks_are_kept_for_their_passes(rt: HostRuntime) {
    assert!(rt; holds(&rt, rt.alloc(), Deed::Mark));
}

#[test]
fn a_second_pass_is_not_split(rt: HostRuntime) {
    assert!(rt; holds(&rt, rt.alloc(), Deed::Split));
}
