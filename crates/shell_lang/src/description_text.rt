//! The lines of descriptions.
ghost use Rattle.serde_json.specs.Data.{string};
ghost use Rattle.serde_json.specs.View.{view};
ghost use Rattle.serde_json.specs.Written.{compact_text};
ghost use Rattle.shell_lang.specs.DescriptionTexts.{described_text, description_text, enabled_word, immediate_word, policy_word, text_array};
ghost use Rattle.std.specs.Prelude.{◌≡◌, IfOk, map, string_bytes};

use crate::DescriptionLine;
use crate::configuration_text::shown_numbers;
use crate::row_text::Row;
use component_dto::ConfigurationPolicy;
use prop_map::{OutOfMemory, Str};
use serde_json::Value;
use std::alloc::Global;

impl Row for DescriptionLine {
    ghost row_text = { description_text };

    fn text(&self, alloc: Global) -> Result<String, OutOfMemory> {
        let pids = array_text(alloc, self.pids.as_slice())?;
        let numbers = shown_numbers(alloc, self.numbers.as_slice())?;
        described_text(alloc, self, pids.as_str(), numbers.as_str())
    }
}

// A description's line with these texts of its PIDs and of its component configurations.
fn described_text(
    alloc: Global,
    row: &DescriptionLine,
    pids: &str,
    numbers: &str,
) -> Result<String, OutOfMemory>
    ensures { IfOk result (λ text. string_bytes text ≡ described_text row.now pids.now numbers.now) }
{
    let name = row.name.as_str();
    let enabled = enabled_word(row.enabled);
    let immediate = immediate_word(row.immediate);
    let policy = policy_word(row.policy);
    format!(in alloc; "{name} {enabled} {immediate} {policy} {pids} {numbers}\n")
}

fn enabled_word(enabled: bool) -> &'static str
    ensures { result.now ≡ enabled_word enabled }
{
    if enabled { "enabled" } else { "disabled" }
}

fn immediate_word(immediate: bool) -> &'static str
    ensures { result.now ≡ immediate_word immediate }
{
    if immediate { "immediate" } else { "delayed" }
}

fn policy_word(policy: ConfigurationPolicy) -> &'static str
    ensures { result.now ≡ policy_word policy }
{
    match policy {
        ConfigurationPolicy::Optional => "optional",
        ConfigurationPolicy::Require => "require",
        ConfigurationPolicy::Ignore => "ignore",
    }
}

// Texts as a JSON array, without blanks.
fn array_text(alloc: Global, texts: &[Str]) -> Result<String, OutOfMemory>
    ensures { IfOk result (λ text. string_bytes text ≡ compact_text (text_array texts.now)) }
{
    let value = array_value(alloc, texts)?;
    let text = value.to_string(alloc)?;
    Ok(text)
}

fn array_value(alloc: Global, texts: &[Str]) -> Result<Value, OutOfMemory>
    ensures { IfOk result (λ value. view value ≡ text_array texts.now) }
{
    let values = text_values(alloc, texts)?;
    Ok(Value::Array(values))
}

fn text_values(alloc: Global, texts: &[Str]) -> Result<Vec<Value>, OutOfMemory>
    ensures { IfOk result (λ v. map view v.items ≡ map string texts.now) }
{
    let mut values = Vec::new(alloc);
    for text in texts {
        values.push(Value::try_from_str(alloc, text.as_str())?)?;
    }
    Ok(values)
}
