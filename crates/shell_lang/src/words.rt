//! The words of a line.
ghost use Rattle.std.specs.Prelude.{◌≡◌, MatchResult, Ok, Err, option_map};
ghost use Rattle.shell_lang.specs.Words.{behind_word, first_word, nothing_at, number_and_text, number_and_word, number_at, only_number, only_word, text_at, two_numbers, two_numbers_and_text, two_words_and_text, word_and_text, word_at};

use fault_count::decimal;

/// The first word of a line that doesn't fit, or that is missing.
#[derive(Clone, Copy, Debug, PartialEq, Eq)]
pub struct Misfit {
    /// Its number: that of the command is 0.
    pub at: usize,
}

// The first word of a text, and what follows the blank behind it, if there is one.
pub(crate) fn next_word(text: &str) -> (&str, Option<&str>)
    ensures word { result.0.now ≡ first_word text.now }
    ensures rest { option_map (λ t. t.now) result.1 ≡ behind_word text.now }
{
    match text.split_once(' ') {
        None => (text, None),
        Some((word, rest)) => (word, Some(rest)),
    }
}

// The text at a place, to the end of the line.
pub(crate) fn text_at(at: usize, rest: Option<&str>) -> Result<&str, Misfit>
    ensures { MatchResult result (λ text. text_at at (option_map (λ t. t.now) rest.entry) ≡ Ok text.now) (λ misfit. text_at at (option_map (λ t. t.now) rest.entry) ≡ Err misfit) }
{
    rest.ok_or(Misfit { at })
}

// The word at a place, and what follows it.
pub(crate) fn word_at(at: usize, rest: Option<&str>) -> Result<(&str, Option<&str>), Misfit>
    ensures { MatchResult result (λ w. word_at at (option_map (λ t. t.now) rest.entry) ≡ Ok (w.0.now, option_map (λ t. t.now) w.1)) (λ misfit. word_at at (option_map (λ t. t.now) rest.entry) ≡ Err misfit) }
{
    let text = text_at(at, rest)?;
    Ok(next_word(text))
}

// The number at a place, and what follows it.
pub(crate) fn number_at(at: usize, rest: Option<&str>) -> Result<(u64, Option<&str>), Misfit>
    ensures { MatchResult result (λ n. number_at at (option_map (λ t. t.now) rest.entry) ≡ Ok (n.0, option_map (λ t. t.now) n.1)) (λ misfit. number_at at (option_map (λ t. t.now) rest.entry) ≡ Err misfit) }
{
    let (word, rest) = word_at(at, rest)?;
    match decimal(word.as_bytes()) {
        Some(number) => Ok((number, rest)),
        None => Err(Misfit { at }),
    }
}

// Whether no word stands at a place.
pub(crate) fn nothing_at(at: usize, rest: Option<&str>) -> Result<(), Misfit>
    ensures { result ≡ nothing_at at (option_map (λ t. t.now) rest.entry) }
{
    match rest {
        None => Ok(()),
        Some(_) => Err(Misfit { at }),
    }
}

// A number alone.
pub(crate) fn only_number(rest: Option<&str>) -> Result<u64, Misfit>
    ensures { result ≡ only_number (option_map (λ t. t.now) rest.entry) }
{
    let (number, rest) = number_at(1, rest)?;
    nothing_at(2, rest)?;
    Ok(number)
}

// Two numbers.
pub(crate) fn two_numbers(rest: Option<&str>) -> Result<(u64, u64), Misfit>
    ensures { result ≡ two_numbers (option_map (λ t. t.now) rest.entry) }
{
    let (first, rest) = number_at(1, rest)?;
    let (second, rest) = number_at(2, rest)?;
    nothing_at(3, rest)?;
    Ok((first, second))
}

// A number and a word.
pub(crate) fn number_and_word(rest: Option<&str>) -> Result<(u64, &str), Misfit>
    ensures { MatchResult result (λ w. number_and_word (option_map (λ t. t.now) rest.entry) ≡ Ok (w.0, w.1.now)) (λ misfit. number_and_word (option_map (λ t. t.now) rest.entry) ≡ Err misfit) }
{
    let (number, rest) = number_at(1, rest)?;
    let (word, rest) = word_at(2, rest)?;
    nothing_at(3, rest)?;
    Ok((number, word))
}

// A word alone.
pub(crate) fn only_word(rest: Option<&str>) -> Result<&str, Misfit>
    ensures { MatchResult result (λ word. only_word (option_map (λ t. t.now) rest.entry) ≡ Ok word.now) (λ misfit. only_word (option_map (λ t. t.now) rest.entry) ≡ Err misfit) }
{
    let (word, rest) = word_at(1, rest)?;
    nothing_at(2, rest)?;
    Ok(word)
}

// A word and a text to the end of the line.
pub(crate) fn word_and_text(rest: Option<&str>) -> Result<(&str, &str), Misfit>
    ensures { MatchResult result (λ w. word_and_text (option_map (λ t. t.now) rest.entry) ≡ Ok (w.0.now, w.1.now)) (λ misfit. word_and_text (option_map (λ t. t.now) rest.entry) ≡ Err misfit) }
{
    let (word, rest) = word_at(1, rest)?;
    let text = text_at(2, rest)?;
    Ok((word, text))
}

// Two words and a text to the end of the line.
pub(crate) fn two_words_and_text(rest: Option<&str>) -> Result<(&str, &str, &str), Misfit>
    ensures { MatchResult result (λ w. two_words_and_text (option_map (λ t. t.now) rest.entry) ≡ Ok (w.0.now, w.1.now, w.2.now)) (λ misfit. two_words_and_text (option_map (λ t. t.now) rest.entry) ≡ Err misfit) }
{
    let (first, rest) = word_at(1, rest)?;
    let (second, rest) = word_at(2, rest)?;
    let text = text_at(3, rest)?;
    Ok((first, second, text))
}

// A number and a text to the end of the line.
pub(crate) fn number_and_text(rest: Option<&str>) -> Result<(u64, &str), Misfit>
    ensures { MatchResult result (λ w. number_and_text (option_map (λ t. t.now) rest.entry) ≡ Ok (w.0, w.1.now)) (λ misfit. number_and_text (option_map (λ t. t.now) rest.entry) ≡ Err misfit) }
{
    let (number, rest) = number_at(1, rest)?;
    let text = text_at(2, rest)?;
    Ok((number, text))
}

// Two numbers and a text to the end of the line.
pub(crate) fn two_numbers_and_text(rest: Option<&str>) -> Result<(u64, u64, &str), Misfit>
    ensures { MatchResult result (λ w. two_numbers_and_text (option_map (λ t. t.now) rest.entry) ≡ Ok (w.0, w.1, w.2.now)) (λ misfit. two_numbers_and_text (option_map (λ t. t.now) rest.entry) ≡ Err misfit) }
{
    let (first, rest) = number_at(1, rest)?;
    let (second, rest) = number_at(2, rest)?;
    let text = text_at(3, rest)?;
    Ok((first, second, text))
}
