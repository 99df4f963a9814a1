//! What the line `http` asks.
ghost use Rattle.script_shell.specs.Requests.{CarriesFound, CarriesHttp, CarriesPath, CarriesRequest, FindsPath, bare, greatest_body, request_of, told_answer};
ghost use Rattle.std.specs.Prelude.{◌≡◌, [], IfOk, if◌then◌else◌, length, nat_le};

use http::Method;
use http_wire::{AnswerStop, Answered, Request, read_path};
use kind_trait::Kinds;
use platform_hall::Platform;
use prop_map::{List, OutOfMemory, Str};
use shell_lang::ShellReply;
use std::alloc::Global;
use turn_runner::SettleFault;

// The greatest length of a request's body.
const GREATEST_BODY: usize = 65_536;

// A request is answered, and nothing changes.
pub(crate) fn http<K: Kinds + Drop>(
    alloc: Global,
    platform: &mut Platform<K>,
    method: Method,
    target: Str,
    body: List<u8>,
) -> Result<ShellReply, SettleFault>
    ensures { CarriesHttp K.next method target body platform.old result platform.new }
{
    match path_of(alloc, target.as_str()) {
        Ok(found) => answer_found(alloc, platform, method, target, body, found),
        Err(_) => Err(SettleFault::OutOfMemory),
    }
}

// The path of a target, if it has one.
fn path_of(alloc: Global, target: &str) -> Result<Option<Str>, OutOfMemory>
    ensures { IfOk result (FindsPath target.now) }
{
    match read_path(alloc, target)? {
        Some(path) => Ok(Some(Str::of(path))),
        None => Ok(None),
    }
}

// A request is answered by what was found of its target's path.
fn answer_found<K: Kinds + Drop>(
    alloc: Global,
    platform: &mut Platform<K>,
    method: Method,
    target: Str,
    body: List<u8>,
    found: Option<Str>,
) -> Result<ShellReply, SettleFault>
    ensures { CarriesFound K.next method target body platform.old found result platform.new }
{
    match found {
        Some(path) => answer_path(alloc, platform, method, target, body, path),
        None => Ok(bare(alloc, 400)),
    }
}

// A request is answered whose target has this path.
fn answer_path<K: Kinds + Drop>(
    alloc: Global,
    platform: &mut Platform<K>,
    method: Method,
    target: Str,
    body: List<u8>,
    path: Str,
) -> Result<ShellReply, SettleFault>
    ensures { CarriesPath K.next method target body platform.old path result platform.new }
{
    if fits(&body) {
        let request = request_of(method, target, body, path);
        answer_request(alloc, platform, &request)
    } else {
        Ok(bare(alloc, 413))
    }
}

// Whether a body isn't too long.
fn fits(body: &List<u8>) -> bool
    ensures { result ≡ nat_le (length body.now) greatest_body }
{
    body.as_slice().len() <= GREATEST_BODY
}

// The request of these parts.
fn request_of(method: Method, target: Str, body: List<u8>, path: Str) -> Request
    ensures { result ≡ request_of method target body path }
{
    let head_only = method.as_str() == "HEAD";
    Request {
        method,
        target,
        path,
        body,
        head_only,
        last: false,
    }
}

// What the platform answers is told.
fn answer_request<K: Kinds + Drop>(
    alloc: Global,
    platform: &mut Platform<K>,
    request: &Request,
) -> Result<ShellReply, SettleFault>
    ensures { CarriesRequest K.next request.now platform.old result platform.new }
{
    match platform.http(alloc, request) {
        Ok(answer) => Ok(told_answer(alloc, answer)),
        Err(AnswerStop::OutOfMemory) => Err(SettleFault::OutOfMemory),
    }
}

// An answer as it is told: to HEAD without its text.
fn told_answer(alloc: Global, answer: Answered) -> ShellReply
    ensures { result ≡ told_answer answer }
{
    let Answered {
        status,
        service,
        body,
        last: _,
        head_only,
    } = answer;
    ShellReply::Http {
        status,
        service,
        body: told_body(alloc, head_only, body),
    }
}

// To HEAD nothing is told of a body.
fn told_body(alloc: Global, head_only: bool, body: List<u8>) -> List<u8>
    ensures { result ≡ (if head_only then [] else body) }
{
    if head_only {
        List::of(Vec::new(alloc))
    } else {
        body
    }
}

// A status alone.
fn bare(alloc: Global, status: u16) -> ShellReply
    ensures { result ≡ bare status }
{
    ShellReply::Http {
        status,
        service: 0,
        body: List::of(Vec::new(alloc)),
    }
}
