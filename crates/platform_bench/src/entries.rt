//! Entries through one lock, by several passes.
ghost use Rattle.std.specs.Thread.{IsSync};
ghost use Rattle.std.specs.Prelude.{◌≡◌};

use crate::notes::Notes;
use front_lock::{FrontLock, Pass};
use prop_map::OutOfMemory;
use std::alloc::Global;
use std::sync::Wait;
use std::thread::{Threads, join};

// Appends the numbers below a bound, each in a turn of its own; fewer where memory is wanting.
fn append_all<R: Wait>(rt: &R, lock: &FrontLock<Notes>, pass: Pass<u64>, count: u64) -> Pass<u64>
    requires { pass.lock ≡ lock.now }
    ensures { (result.lock ≡ pass.lock) × (result.spare ≡ pass.spare) }
{
    let mut pass = pass;
    for number in 0..count {
        let mut inner = lock.enter(rt, pass);
        let owner = inner.owner();
        let done = inner.value.append(owner, number);
        pass = lock.leave(inner);
        if done.is_err() {
            return pass;
        }
    }
    pass
}

// The same by so many passes, which are split off and joined again.
fn append_by_passes<R: Threads + Wait + Sync>(
    rt: &R,
    lock: &FrontLock<Notes>,
    pass: Pass<u64>,
    passes: u64,
    count: u64,
) -> Pass<u64>
    requires { pass.lock ≡ lock.now }
    ensures { (result.lock ≡ pass.lock) × (result.spare ≡ pass.spare) }
{
    if passes <= 1 {
        return append_all(rt, lock, pass, count);
    }
    let (first, other) = match lock.split(rt, pass) {
        Ok(both) => both,
        Err((pass, _)) => return append_all(rt, lock, pass, count),
    };
    let rest = passes - 1;
    let (first, other) = join(
        rt,
        move || -> Pass<u64>
            requires { IsSync R.row × (first.lock ≡ lock.now) }
            ensures { (result.lock ≡ first.lock) × (result.spare ≡ first.spare) }
        { append_by_passes(rt, lock, first, rest, count) },
        move || -> Pass<u64>
            requires { other.lock ≡ lock.now }
            ensures { (result.lock ≡ other.lock) × (result.spare ≡ other.spare) }
        { append_all(rt, lock, other, count) },
    );
    lock.join(rt, first, other)
}

/// How many entries the history has once so many passes, 64 at most, have appended so many each.
pub fn append_by<R: Threads + Wait + Sync>(
    rt: &R,
    alloc: Global,
    passes: u64,
    count: u64,
) -> Result<u64, OutOfMemory> {
    match FrontLock::new(alloc, Notes::new(alloc)) {
        Ok((lock, pass)) => {
            let pass = append_by_passes(rt, &lock, pass, passes, count);
            let appended = pass.seen();
            drop(lock.close(pass));
            Ok(appended)
        }
        Err((_, fault)) => Err(fault),
    }
}
