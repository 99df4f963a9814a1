//! The text of a reply.
ghost use Rattle.std.specs.Prelude.{◌≡◌, IfOk, codes, string_bytes};
ghost use Rattle.shell_lang.specs.ReplyTexts.{journal_text, reply_text, status_text};
ghost use Rattle.shell_lang.specs.TurnTexts.{finished_text};

use crate::ShellReply;
use crate::quoted_text::quoted_text;
use crate::refusal_text::refusal_text;
use crate::row_text::{placed_rows_text, rows_text};
use crate::turn_text::{finished_text, turn_text};
use prop_map::OutOfMemory;
use scr_world::TurnLine;
use std::alloc::Global;

/// The text of a reply: one or more lines, each with its end.
///
/// # Errors
/// Only want of memory.
pub fn write_reply(alloc: Global, reply: &ShellReply) -> Result<Vec<u8>, OutOfMemory>
    ensures { IfOk result (λ bytes. bytes.items ≡ reply_text reply.now) }
{
    Ok(reply_text(alloc, reply)?.into_bytes())
}

fn reply_text(alloc: Global, reply: &ShellReply) -> Result<String, OutOfMemory>
    ensures { IfOk result (λ text. string_bytes text ≡ reply_text reply.now) }
{
    match reply {
        ShellReply::Done => String::from_str(alloc, "ok\n"),
        ShellReply::Help(rows) => rows_text(alloc, rows.as_slice()),
        ShellReply::Bundle(bundle) => format!(in alloc; "ok bundle {bundle}\n"),
        ShellReply::Service(service) => format!(in alloc; "ok service {service}\n"),
        ShellReply::Uses(uses) => format!(in alloc; "ok uses {uses}\n"),
        ShellReply::Listener(listener) => format!(in alloc; "ok listener {listener}\n"),
        ShellReply::Bundles(rows) => rows_text(alloc, rows.as_slice()),
        ShellReply::Services(rows) => rows_text(alloc, rows.as_slice()),
        ShellReply::Components(rows) => rows_text(alloc, rows.as_slice()),
        ShellReply::Report(text) => format!(in alloc; "ok {}\n", text.as_str()),
        ShellReply::Held(rows) => rows_text(alloc, rows.as_slice()),
        ShellReply::Listed(rows) => rows_text(alloc, rows.as_slice()),
        ShellReply::Details(text) => format!(in alloc; "ok {}\n", text.as_str()),
        ShellReply::ServiceFacts(rows) => rows_text(alloc, rows.as_slice()),
        ShellReply::Descriptions(rows) => rows_text(alloc, rows.as_slice()),
        ShellReply::Graph(rows) => rows_text(alloc, rows.as_slice()),
        ShellReply::Found(numbers) => rows_text(alloc, numbers.as_slice()),
        ShellReply::Events { before, events } => {
            placed_rows_text(alloc, *before, events.as_slice())
        }
        ShellReply::BundleEvents { before, events } => {
            placed_rows_text(alloc, *before, events.as_slice())
        }
        ShellReply::Trace(rows) => rows_text(alloc, rows.as_slice()),
        ShellReply::Wiring(rows) => rows_text(alloc, rows.as_slice()),
        ShellReply::BundleWiring(rows) => rows_text(alloc, rows.as_slice()),
        ShellReply::Routes(rows) => rows_text(alloc, rows.as_slice()),
        ShellReply::Configurations(rows) => rows_text(alloc, rows.as_slice()),
        ShellReply::Configuration(text) => format!(in alloc; "ok {}\n", text.as_str()),
        ShellReply::Listeners(rows) => rows_text(alloc, rows.as_slice()),
        ShellReply::Journal {
            used,
            reserved,
            limit,
        } => journal_text(alloc, *used, *reserved, *limit),
        ShellReply::Turns(count) => format!(in alloc; "ok turns {count}\n"),
        ShellReply::Begun(line) => begun_text(alloc, line),
        ShellReply::Idle => String::from_str(alloc, "ok idle\n"),
        ShellReply::Finished(outcome) => String::from_str(alloc, finished_text(*outcome)),
        ShellReply::Text(text) => answered_text(alloc, text.as_str()),
        ShellReply::Http {
            status,
            service,
            body,
        } => http_text(alloc, *status, *service, body.as_slice()),
        ShellReply::Refused(refusal) => {
            let refusal = refusal_text(alloc, refusal)?;
            format!(in alloc; "refused {}\n", refusal.as_str())
        }
    }
}

// How many entries the journal has, how many more are reserved, and how many it may have.
fn journal_text(alloc: Global, used: u64, reserved: u64, limit: u64) -> Result<String, OutOfMemory>
    ensures { IfOk result (λ text. string_bytes text ≡ journal_text used reserved limit) }
{
    format!(in alloc; "ok {used} {reserved} {limit}\n")
}

fn begun_text(alloc: Global, line: &TurnLine) -> Result<String, OutOfMemory>
    ensures { IfOk result (λ text. string_bytes text ≡ reply_text (ShellReply.Begun line.now)) }
{
    let turn = turn_text(alloc, line)?;
    format!(in alloc; "ok turn {}\n", turn.as_str())
}

fn answered_text(alloc: Global, text: &str) -> Result<String, OutOfMemory>
    ensures { IfOk result (λ line. string_bytes line ≡ reply_text (ShellReply.Text text.now)) }
{
    let quoted = quoted_text(alloc, text)?;
    format!(in alloc; "ok {}\n", quoted.as_str())
}

fn http_text(alloc: Global, status: u16, service: u64, body: &[u8]) -> Result<String, OutOfMemory>
    ensures { IfOk result (λ line. string_bytes line ≡ reply_text (ShellReply.Http status service body.now)) }
{
    let text = String::from_utf8_lossy(alloc, body)?;
    let quoted = quoted_text(alloc, text.as_str())?;
    status_text(alloc, status, service, quoted.as_str())
}

// A status, a service and a text as it is shown.
fn status_text(alloc: Global, status: u16, service: u64, shown: &str) -> Result<String, OutOfMemory>
    ensures { IfOk result (λ line. string_bytes line ≡ status_text status service shown.now) }
{
    format!(in alloc; "ok {status} {service} {shown}\n")
}
