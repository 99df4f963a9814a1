//! The lines of configurations.
ghost use Rattle.std.specs.Prelude.{◌≡◌, ◌++◌, IfOk, codes, flat_map, map, string_bytes};
ghost use Rattle.std.specs.Fmt.{decimal};
ghost use Rattle.shell_lang.specs.ConfigurationTexts.{configuration_text, counted_text, shown_factory, shown_numbers};

use crate::ConfigurationLine;
use crate::row_text::Row;
use prop_map::{OutOfMemory, Str};
use std::alloc::Global;

impl Row for ConfigurationLine {
    ghost row_text = { configuration_text };

    fn text(&self, alloc: Global) -> Result<String, OutOfMemory> {
        let numbers = shown_numbers(alloc, self.numbers.as_slice())?;
        counted_text(alloc, self, numbers.as_str())
    }
}

// A configuration's line with this text of the numbers for which it counts.
fn counted_text(
    alloc: Global,
    row: &ConfigurationLine,
    numbers: &str,
) -> Result<String, OutOfMemory>
    ensures { IfOk result (λ text. string_bytes text ≡ counted_text row.now numbers.now) }
{
    let pid = row.pid.as_str();
    let factory = shown_factory(&row.factory);
    format!(in alloc; "{pid} {factory} {numbers}\n")
}

// A hyphen stands for no factory.
fn shown_factory(factory: &Option<Str>) -> &str
    ensures { result.now ≡ shown_factory factory.now }
{
    match factory {
        Some(pid) => pid.as_str(),
        None => "-",
    }
}

// Numbers with commas between them. A hyphen stands for none.
pub(crate) fn shown_numbers(alloc: Global, numbers: &[u64]) -> Result<String, OutOfMemory>
    ensures { IfOk result (λ text. string_bytes text ≡ shown_numbers numbers.now) }
{
    match numbers {
        [] => String::from_str(alloc, "-"),
        [first, others @ ..] => {
            let first = *first;
            let mut text = format!(in alloc; "{first}")?;
            text.push_str(each_behind_a_comma(alloc, others)?.as_str())?;
            Ok(text)
        }
    }
}

fn each_behind_a_comma(alloc: Global, numbers: &[u64]) -> Result<String, OutOfMemory>
    ensures { IfOk result (λ text. string_bytes text ≡ flat_map (λ next. codes "," ++ next) (map decimal numbers.now)) }
{
    let mut text = String::new(alloc);
    for &number in numbers {
        text.push_str(",")?;
        text.push_str(format!(in alloc; "{number}")?.as_str())?;
    }
    Ok(text)
}
