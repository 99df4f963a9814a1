//! The method of a request, as a token.
ghost use Rattle.std.specs.Prelude.{◌≡◌, ◌<◌, length, IfOk, OnErr, MatchOption};
ghost use Rattle.httparse.specs.Grammar.{IsToken};

use http::Method;
use http::method::MethodError;
use prop_map::OutOfMemory;
use std::alloc::{AllocError, Global};

/// The method that these bytes name. None exactly where they are no token (RFC 9110, sections 5.6.2 and 9.1). The head of
/// a request and a line of the shell have this one rule.
///
/// # Errors
/// Only want of memory, and only of a token of more than 15 bytes.
pub fn read_method(alloc: Global, bytes: &[u8]) -> Result<Option<Method>, OutOfMemory>
    ensures found { IfOk result (λ found. MatchOption found (¬ (IsToken bytes.now)) (λ method. IsToken bytes.now × (method ≡ bytes.now))) }
    ensures memory { OnErr result (IsToken bytes.now × (15 < length bytes.now)) }
{
    match Method::from_bytes(alloc, bytes) {
        Ok(method) => Ok(Some(method)),
        Err(MethodError::Invalid) => Ok(None),
        Err(MethodError::OutOfMemory) => Err(AllocError),
    }
}
