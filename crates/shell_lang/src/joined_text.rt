//! Texts with another one between them.
ghost use Rattle.std.specs.Prelude.{◌≡◌, ◌++◌, IfOk, flat_map, string_bytes};
ghost use Rattle.shell_lang.specs.JoinedTexts.{joined};

use prop_map::{OutOfMemory, Str};
use std::alloc::Global;

// The texts in one, with another one between each two.
pub(crate) fn joined(alloc: Global, between: &str, texts: &[Str]) -> Result<String, OutOfMemory>
    ensures { IfOk result (λ text. string_bytes text ≡ joined between.now texts.now) }
{
    match texts {
        [] => Ok(String::new(alloc)),
        [first, others @ ..] => {
            let mut text = String::from_str(alloc, first.as_str())?;
            text.push_str(each_behind(alloc, between, others)?.as_str())?;
            Ok(text)
        }
    }
}

// Texts, each behind another one.
fn each_behind(alloc: Global, between: &str, texts: &[Str]) -> Result<String, OutOfMemory>
    ensures { IfOk result (λ text. string_bytes text ≡ flat_map (λ next. between.now ++ next) texts.now) }
{
    let mut joined = String::new(alloc);
    for text in texts {
        joined.push_str(between)?;
        joined.push_str(text.as_str())?;
    }
    Ok(joined)
}
