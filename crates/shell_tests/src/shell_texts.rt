//! Lines and replies of the shell.

use crate::turns::is_printed;
use prop_map::Str;
use shell_lang::{CallRefusal, LineFault, ShellReply, write_reply};
use std::alloc::Global;

// The reply with a report, and without one that of a settling.
fn reply_of(report: Option<String>) -> ShellReply {
    match report {
        Some(text) => ShellReply::Report(Str::of(text)),
        None => ShellReply::Turns(10),
    }
}

fn is_written(alloc: Global, reply: &ShellReply, wanted: &[u8]) -> bool {
    match write_reply(alloc, reply) {
        Ok(text) => text.as_slice() == wanted,
        Err(_) => false,
    }
}

// Whether the reply is written so. It owns the reply.
fn writes(alloc: Global, report: Option<String>, wanted: &[u8]) -> bool {
    let reply = reply_of(report);
    is_written(alloc, &reply, wanted)
}

fn report(alloc: Global) -> Option<String> {
    match String::from_str(alloc, "{}") {
        Ok(text) => Some(text),
        Err(_) => None,
    }
}

#[test]
fn a_report_is_written(rt: HostRuntime) {
    assert!(rt; writes(rt.alloc(), report(rt.alloc()), b"ok {}\n"));
}

#[test]
fn a_reply_is_written(rt: HostRuntime) {
    assert!(rt; writes(rt.alloc(), None, b"ok turns 10\n"));
}

#[test]
fn a_fault_is_printed(rt: HostRuntime) {
    assert!(rt;
        is_printed(
            rt.alloc(),
            &LineFault::UnknownCommand,
            "there is no such command"
        )
    );
}

fn are_printed(alloc: Global, rows: &[(CallRefusal, &str)]) -> bool {
    for (refusal, text) in rows {
        if !is_printed(alloc, refusal, text) {
            return false;
        }
    }
    true
}

const UNANSWERED: &[(CallRefusal, &str)] = &[
    (CallRefusal::Gone, "the service that was got is gone"),
    (
        CallRefusal::NoObject,
        "there is no object behind the service",
    ),
    (
        CallRefusal::Pending,
        "the instance of the service isn't active",
    ),
    (
        CallRefusal::Refused,
        "the component code refuses the request",
    ),
    (
        CallRefusal::CallTooLong,
        "a further nested call would be one too many",
    ),
];

#[test]
fn why_a_call_is_not_answered_is_printed(rt: HostRuntime) {
    assert!(rt; are_printed(rt.alloc(), UNANSWERED));
}
