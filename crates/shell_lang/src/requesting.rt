//! The line of a request.
ghost use Rattle.httparse.specs.Grammar.{is_token};
ghost use Rattle.std.specs.Prelude.{◌≡◌, IfOk, MatchOption, MatchResult, Ok, Err, false, option_map, true};
ghost use Rattle.shell_lang.specs.LineFaults.{Reads};
ghost use Rattle.shell_lang.specs.Requesting.{body_of, method_at, requesting};

use crate::arguments::owned;
use crate::words::{Misfit, word_at};
use crate::{LineFault, ShellLine};
use http::Method;
use http_wire::read_method;
use prop_map::{List, OutOfMemory};
use std::alloc::Global;

// A request of a method and a target, with the body behind them.
pub(crate) fn requesting(alloc: Global, rest: Option<&str>) -> Result<ShellLine, LineFault>
    ensures { Reads (requesting (option_map (λ t. t.now) rest.entry)) result }
{
    let (method, rest) = method_at(alloc, 1, rest)??;
    let (target, rest) = word_at(2, rest)?;
    let target = owned(alloc, target)?;
    let body = Vec::from_slice(alloc, body_of(rest).as_bytes())?;
    let body = List::of(body);
    Ok(ShellLine::Http {
        method,
        target,
        body,
    })
}

// The method that these bytes name, if they are a token.
fn method_of(alloc: Global, word: &str) -> Result<Option<Method>, OutOfMemory>
    ensures { IfOk result (λ found. MatchOption found (is_token word.now ≡ false) (λ method. (is_token word.now ≡ true) × (method ≡ word.now))) }
{
    read_method(alloc, word.as_bytes())
}

// The method at a place, and what follows it.
fn method_at(
    alloc: Global,
    at: usize,
    rest: Option<&str>,
) -> Result<Result<(Method, Option<&str>), Misfit>, OutOfMemory>
    ensures { IfOk result (λ found. MatchResult found
        (λ m. method_at at (option_map (λ t. t.now) rest.entry) ≡ Ok (m.0, option_map (λ t. t.now) m.1))
        (λ misfit. method_at at (option_map (λ t. t.now) rest.entry) ≡ Err misfit)) }
{
    match word_at(at, rest) {
        Err(misfit) => Ok(Err(misfit)),
        Ok((word, rest)) => match method_of(alloc, word)? {
            Some(method) => Ok(Ok((method, rest))),
            None => Ok(Err(Misfit { at })),
        },
    }
}

// A body that is missing is empty.
fn body_of(rest: Option<&str>) -> &str
    ensures { result.now ≡ body_of (option_map (λ t. t.now) rest.entry) }
{
    rest.unwrap_or("")
}
