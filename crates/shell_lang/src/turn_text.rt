//! The texts of turns.
ghost use Rattle.std.specs.Prelude.{◌≡◌, IfOk, codes, string_bytes};
ghost use Rattle.shell_lang.specs.TurnTexts.{bound_text, callback_word, finished_text, outcome_text, service_text, trace_text, turn_text};

use crate::row_text::Row;
use callback_orders::{Callback, Outcome};
use prop_map::OutOfMemory;
use scr_world::TurnLine;
use std::alloc::Global;

impl Row for TurnLine {
    ghost row_text = { trace_text };

    fn text(&self, alloc: Global) -> Result<String, OutOfMemory> {
        let mut text = turn_text(alloc, self)?;
        text.push_str(outcome_text(self.outcome))?;
        text.push_str("\n")?;
        Ok(text)
    }
}

// A turn without its outcome.
pub(crate) fn turn_text(alloc: Global, line: &TurnLine) -> Result<String, OutOfMemory>
    ensures { IfOk result (λ text. string_bytes text ≡ turn_text line.now) }
{
    let turn = line.turn;
    let word = callback_word(&line.callback);
    let instance = line.instance;
    let name = line.name.as_str();
    let bound = bound_text(alloc, &line.callback)?;
    format!(in alloc; "{turn} {word} {instance} {name}{}", bound.as_str())
}

fn callback_word(callback: &Callback) -> &'static str
    ensures { result.now ≡ callback_word callback.now }
{
    match callback {
        Callback::Create => "create",
        Callback::Bind { .. } => "bind",
        Callback::Updated { .. } => "updated",
        Callback::Unbind { .. } => "unbind",
        Callback::Activate => "activate",
        Callback::Modified => "modified",
        Callback::Deactivate => "deactivate",
        Callback::Destroy => "destroy",
    }
}

fn bound_text(alloc: Global, callback: &Callback) -> Result<String, OutOfMemory>
    ensures { IfOk result (λ text. string_bytes text ≡ bound_text callback.now) }
{
    match callback {
        Callback::Bind { reference, service }
        | Callback::Updated { reference, service }
        | Callback::Unbind { reference, service } => {
            service_text(alloc, reference.as_str(), *service)
        }
        _ => Ok(String::new(alloc)),
    }
}

fn service_text(alloc: Global, reference: &str, service: u64) -> Result<String, OutOfMemory>
    ensures { IfOk result (λ text. string_bytes text ≡ service_text reference.now service) }
{
    format!(in alloc; " {reference} {service}")
}

fn outcome_text(outcome: Option<Outcome>) -> &'static str
    ensures { result.now ≡ outcome_text outcome }
{
    match outcome {
        None => " outstanding",
        Some(Outcome::Done) => "",
        Some(Outcome::Refused) => " refused",
        Some(Outcome::NoMemory) => " no-memory",
    }
}

// How the turn that a line finishes ended.
pub(crate) fn finished_text(outcome: Outcome) -> &'static str
    ensures { result.now ≡ finished_text outcome }
{
    match outcome {
        Outcome::Done => "ok done\n",
        Outcome::Refused => "ok refused\n",
        Outcome::NoMemory => "ok no-memory\n",
    }
}
