//! Words that a typed text may be.
ghost use Rattle.std.specs.Prelude.{◌≡◌, ◌<◌, ◌==◌, IfSome, chars, false, map, true};
ghost use Rattle.std.specs.Char.{to_ascii_lowercase};
ghost use Rattle.ic_input.specs.Begins.{BeginsWith};
ghost use Rattle.ic_laws.specs.Name.{agrees};
ghost use Rattle.ic_tables.specs.Words.{boolean_words, error_words, first_agreeing};

use ic_laws::{Text, agree};
use ic_tables::Language;

/// The number of the boolean's word that agrees with the whole text: 0 is true, 1 is false. None exactly where neither
/// does.
pub(crate) fn find_boolean(language: &Language, text: &str) -> Option<usize>
    ensures { result ≡ first_agreeing (boolean_words language.now) (chars text.now) }
{
    let booleans = &language.booleans;
    find_among(&[&booleans.true_word, &booleans.false_word], text)
}

/// The number of the first error value's word that agrees with the whole text, from 0 in the order of the variants of
/// `Error`. None exactly where no word does.
pub(crate) fn find_error(language: &Language, text: &str) -> Option<usize>
    ensures { result ≡ first_agreeing (error_words language.now) (chars text.now) }
{
    let errors = &language.errors;
    let words = [
        &errors.ref_word,
        &errors.name,
        &errors.value,
        &errors.div,
        &errors.na,
        &errors.num,
        &errors.nimpl,
        &errors.spill,
        &errors.calc,
        &errors.circ,
        &errors.error,
        &errors.null,
    ];
    find_among(&words, text)
}

// The index, from 0, of the first of these words that agrees with the whole text. A word that the first bytes tell
// apart isn't compared.
fn find_among(words: &[&Text], text: &str) -> Option<usize>
    ensures { result ≡ first_agreeing (map (λ w. w.now) words.now) (chars text.now) }
{
    match lower_first(text) {
        Some(first) => words
            .iter()
            .position(|word| is_word(word.as_str(), text, first)),
        None => words.iter().position(|word| agree(word.as_str(), text)),
    }
}

// The lower case of the ASCII character that a text begins with. None where it begins with another, or is empty.
fn lower_first(text: &str) -> Option<u8>
    ensures { IfSome result (BeginsWith text.now) }
{
    let byte = text.as_bytes().first()?;
    if byte.is_ascii() {
        Some(byte.to_ascii_lowercase())
    } else {
        None
    }
}

// Whether a text that begins so agrees with a word.
fn is_word(word: &str, text: &str, first: u8) -> bool
    requires { BeginsWith text.now first }
    ensures { result ≡ agrees (chars word.now) (chars text.now) }
{
    match word.as_bytes().first() {
        Some(byte) if is_apart(*byte, first) => false,
        _ => agree(word, text),
    }
}

// Whether a byte is an ASCII character with another lower case than this.
fn is_apart(byte: u8, first: u8) -> bool
    ensures ascii { result ≡ true → byte < 128 }
    ensures apart { result ≡ true → (to_ascii_lowercase byte == first) ≡ false }
{
    byte.is_ascii() && byte.to_ascii_lowercase() != first
}
