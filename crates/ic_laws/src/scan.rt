//! Texts read character by character: what stands first, the runs at the front, and what a front is.
ghost use Rattle.std.specs.Prelude.{◌≡◌, ◌<◌, ◌++◌, true, [], ◌∷◌, ◌||◌, ◌==◌, nat_eq, length, bytes_eq, chars, string_bytes, IfSome, MatchOption, OnErr, OnOk};
ghost use Rattle.ic_laws.specs.Scan.{EndsWith, is_ascii_letter, is_digit, is_letter, is_plain, is_word_character, begins_word, first_is, past_run, run_of, past_dollar};

mod form;

use crate::OutOfMemory;
pub use form::{
    are_digits, begins_with_digit, begins_with_letter, has_word_characters, is_a1_cell, is_c,
    is_lone, is_r, is_variable_form, letter_number, names_column, names_row,
};
use unicode::properties::is_alphabetic;

/// The first character of a text, and what stands after it.
#[tactic(auto, using(std::proofs::lemmas::Str::chars_past_char))]
pub fn first_char(text: &str) -> Option<(char, &str)>
    ensures parts { MatchOption result (chars text.now ≡ [])
        (λ p. chars text.now ≡ p.0 ∷ chars p.1.now) }
    ensures shorter { IfSome result (λ p. length p.1.now < length text.now) }
{
    let mut rest = text.chars();
    let c = rest.next()?;
    Some((c, rest.as_str()))
}

/// Whether this character stands at the front.
pub fn begins_with(text: &str, mark: char) -> bool
    ensures { result ≡ first_is (λ c. c == mark) (chars text.now) }
{
    match first_char(text) {
        Some((c, _)) => c == mark,
        None => false,
    }
}

/// Whether two texts are the same, character by character.
pub fn same_text(a: &str, b: &str) -> bool
    ensures { result ≡ bytes_eq (chars a.now) (chars b.now) }
{
    a == b
}

/// Appends a character. Where memory runs out the text is as before.
pub fn push_char(text: &mut String, c: char) -> Result<(), OutOfMemory>
    ensures ok { OnOk result (chars (string_bytes text.new) ≡ chars (string_bytes text.old) ++ c
        ∷ []) }
    ensures err { OnErr result (string_bytes text.new ≡ string_bytes text.old) }
{
    text.push(c)?;
    Ok(())
}

/// Appends a text. Where memory runs out the first text is as before.
pub fn push_text(text: &mut String, more: &str) -> Result<(), OutOfMemory>
    ensures ok { OnOk result (chars (string_bytes text.new) ≡ chars (string_bytes text.old)
        ++ chars more.now) }
    ensures err { OnErr result (string_bytes text.new ≡ string_bytes text.old) }
{
    text.push_str(more)?;
    Ok(())
}

/// The front of a text that stands before this rest of it.
pub fn front_of<'t>(text: &'t str, rest: &str) -> &'t str
    requires { EndsWith (chars text.now) (chars rest.now) }
    ensures { chars text.now ≡ chars result.now ++ chars rest.now }
{
    let (front, _) = text.split_at(text.len() - rest.len());
    front
}

/// Whether a text has no character.
pub fn is_nothing(text: &str) -> bool
    ensures { result ≡ nat_eq (length (chars text.now)) 0 }
{
    first_char(text).is_none()
}

/// Whether it is a letter by Unicode. An ASCII character meets no table.
#[tactic(auto, using(crate::proofs::LetterLemmas::ascii_letter))]
pub fn is_letter(c: char) -> bool
    ensures { result ≡ is_letter c }
{
    match c {
        'A'..='Z' | 'a'..='z' => true,
        '\0'..='\x7f' => false,
        _ => is_alphabetic(c),
    }
}

/// Whether it is a letter by Unicode, a digit, `_` or `.`.
pub fn is_plain(c: char) -> bool
    ensures { result ≡ is_plain c }
{
    is_letter(c) || c.is_ascii_digit() || c == '_' || c == '.'
}

/// Whether a word may have it: it is plain or a backslash.
pub fn is_word_character(c: char) -> bool
    ensures { result ≡ is_word_character c }
{
    is_plain(c) || c == '\\'
}

/// Whether a word may begin with it: it is a letter, `_` or a backslash.
pub fn begins_word(c: char) -> bool
    ensures { result ≡ begins_word c }
{
    is_letter(c) || c == '_' || c == '\\'
}

/// Whether it is an ASCII letter.
pub fn is_ascii_letter(c: char) -> bool
    ensures { result ≡ is_ascii_letter c }
{
    matches!(c, 'A'..='Z' | 'a'..='z')
}

/// What stands after the run of plain characters at the front. ASCII characters are told by their bytes.
pub fn past_plain(text: &str) -> &str
    ensures { chars result.now ≡ past_run is_plain (chars text.now) }
{
    let bytes = text.as_bytes();
    let mut at = 0;
    while at < bytes.len() && is_plain_byte(bytes[at]) {
        at += 1;
    }
    let (_, rest) = text.split_at(at);
    past_plain_characters(rest)
}

// Whether it is an ASCII character that is plain.
#[tactic(auto, using(crate::proofs::LetterLemmas::ascii_letter))]
fn is_plain_byte(byte: u8) -> bool
    ensures ascii { result ≡ true → byte < 128 }
    ensures plain { result ≡ true → is_plain byte ≡ true }
{
    matches!(byte, b'A'..=b'Z' | b'a'..=b'z' | b'0'..=b'9' | b'_' | b'.')
}

// What stands after the run of plain characters at the front, told by characters.
fn past_plain_characters(text: &str) -> &str
    ensures { chars result.now ≡ past_run is_plain (chars text.now) }
{
    let mut rest = text;
    while let Some((c, after)) = first_char(rest) {
        if !is_plain(c) {
            break;
        }
        rest = after;
    }
    rest
}

/// What stands after the run of ASCII letters at the front.
pub fn past_letters(text: &str) -> &str
    ensures { chars result.now ≡ past_run is_ascii_letter (chars text.now) }
{
    let mut rest = text;
    while let Some((c, after)) = first_char(rest) {
        if !is_ascii_letter(c) {
            break;
        }
        rest = after;
    }
    rest
}

/// What stands after the run of digits at the front.
pub fn past_digits(text: &str) -> &str
    ensures { chars result.now ≡ past_run is_digit (chars text.now) }
{
    let mut rest = text;
    while let Some((c, after)) = first_char(rest) {
        if !c.is_ascii_digit() {
            break;
        }
        rest = after;
    }
    rest
}

/// What stands after the run of word characters at the front. ASCII characters are told by their bytes.
pub fn past_word(text: &str) -> &str
    ensures { chars result.now ≡ past_run is_word_character (chars text.now) }
{
    let bytes = text.as_bytes();
    let mut at = 0;
    while at < bytes.len() && is_word_byte(bytes[at]) {
        at += 1;
    }
    let (_, rest) = text.split_at(at);
    past_word_characters(rest)
}

// Whether it is an ASCII character that a word may have.
fn is_word_byte(byte: u8) -> bool
    ensures ascii { result ≡ true → byte < 128 }
    ensures word { result ≡ true → is_word_character byte ≡ true }
{
    is_plain_byte(byte) || byte == b'\\'
}

// What stands after the run of word characters at the front, told by characters.
fn past_word_characters(text: &str) -> &str
    ensures { chars result.now ≡ past_run is_word_character (chars text.now) }
{
    let mut rest = text;
    while let Some((c, after)) = first_char(rest) {
        if !is_word_character(c) {
            break;
        }
        rest = after;
    }
    rest
}

/// The run of word characters at the front.
pub fn word_run(text: &str) -> &str
    ensures { chars result.now ≡ run_of is_word_character (chars text.now) }
{
    front_of(text, past_word(text))
}

/// The run of plain characters at the front.
pub fn plain_run(text: &str) -> &str
    ensures { chars result.now ≡ run_of is_plain (chars text.now) }
{
    front_of(text, past_plain(text))
}

/// The run of ASCII letters at the front.
pub fn letters_run(text: &str) -> &str
    ensures { chars result.now ≡ run_of is_ascii_letter (chars text.now) }
{
    front_of(text, past_letters(text))
}

/// The text without one dollar sign at its front.
pub fn past_dollar(text: &str) -> &str
    ensures { chars result.now ≡ past_dollar (chars text.now) }
{
    match first_char(text) {
        Some(('$', after)) => after,
        _ => text,
    }
}
