//! The words that ask for a text in place of a run.
ghost use Rattle.script_shell.specs.Forms.{asks_help, asks_version, text_asked, text_of_word, text_on};
ghost use Rattle.std.specs.Prelude.{◌≡◌, map};

use crate::AskedText;

/// The text that the words ask for in place of a run: `help`, `--help` or `-h` alone, `--help` or `-h` behind `script` or
/// `load` alone, `--version` or `-V` alone. Any other words ask for none.
pub fn text_asked(words: &[&str]) -> Option<AskedText>
    ensures { result ≡ text_asked (map (λ word. word.now) words.now) }
{
    match words {
        [word] => text_of_word(word),
        [word, second] if asks_help(second) => text_on(word),
        _ => None,
    }
}

// The text that a word asks for, alone.
fn text_of_word(word: &str) -> Option<AskedText>
    ensures { result ≡ text_of_word word.now }
{
    if word == "help" || asks_help(word) {
        Some(AskedText::Program)
    } else if asks_version(word) {
        Some(AskedText::Version)
    } else {
        None
    }
}

// The text on a form, by its first word.
fn text_on(word: &str) -> Option<AskedText>
    ensures { result ≡ text_on word.now }
{
    if word == "script" {
        Some(AskedText::Script)
    } else if word == "load" {
        Some(AskedText::Load)
    } else {
        None
    }
}

fn asks_help(word: &str) -> bool
    ensures { result ≡ asks_help word.now }
{
    word == "--help" || word == "-h"
}

fn asks_version(word: &str) -> bool
    ensures { result ≡ asks_version word.now }
{
    word == "--version" || word == "-V"
}
