//! A request, and what it is answered.

use http_wire::{AnswerStop, Answered, Request, read_method, read_path};
use prop_map::{List, Str};
use std::alloc::Global;

const TARGET: &str = "/s?q";

/// What a request is answered.
pub(crate) struct Told<'t> {
    pub(crate) status: u16,
    pub(crate) service: u64,
    pub(crate) body: &'t str,
}

impl Told<'_> {
    pub(crate) fn is(&self, answer: &Result<Answered, AnswerStop>) -> bool {
        match answer {
            Ok(answer) => {
                self.status == answer.status
                    && self.service == answer.service
                    && self.body.as_bytes() == answer.body.as_slice()
            }
            Err(_) => false,
        }
    }
}

// A POST of "abc" to the path `/s`.
pub(crate) fn request(alloc: Global) -> Option<Request> {
    let method = read_method(alloc, b"POST");
    let path = read_path(alloc, TARGET);
    let target = Str::spell(alloc, TARGET);
    let body = Vec::from_slice(alloc, b"abc");
    match (method, path, target, body) {
        (Ok(Some(method)), Ok(Some(path)), Ok(target), Ok(body)) => Some(Request {
            method,
            target,
            path: Str::of(path),
            body: List::of(body),
            head_only: false,
            last: false,
        }),
        _ => None,
    }
}
