//! A text in quotes, as JSON has it (RFC 8259).
ghost use Rattle.shell_lang.specs.QuotedTexts.{quoted_text};
ghost use Rattle.std.specs.Prelude.{◌≡◌, IfOk, string_bytes};

use prop_map::OutOfMemory;
use serde_json::Value;
use std::alloc::Global;

// A text in quotes.
pub(crate) fn quoted_text(alloc: Global, text: &str) -> Result<String, OutOfMemory>
    ensures { IfOk result (λ quoted. string_bytes quoted ≡ quoted_text text.now) }
{
    let value = Value::try_from_str(alloc, text)?;
    let quoted = value.to_string(alloc)?;
    Ok(quoted)
}
