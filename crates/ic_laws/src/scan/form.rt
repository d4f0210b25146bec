ghost use Rattle.std.specs.Prelude.{◌≡◌, ◌&&◌, Some, None, chars, if◌then◌else◌};
ghost use Rattle.std.specs.List.{list_all};
ghost use Rattle.std.specs.Str.{all_ascii_digits};
ghost use Rattle.ic_laws.specs.Name.{has_row_column_form, is_a1_cell, is_c, is_lone, is_numbered, is_r, is_variable_form, names_row};
ghost use Rattle.ic_laws.specs.Scan.{begins_word, first_is, is_digit, is_letter, is_word_character, is_ascii_letter};
ghost use Rattle.ic_laws.specs.Position.{letter_digit, names_column};

use crate::scan::{
    begins_word, first_char, is_nothing, is_word_character, letters_run, past_digits, past_dollar,
    past_letters,
};
use unicode::properties::is_alphabetic;

/// The number of a sheet's last row.
const LAST_ROW: u32 = crate::LAST_ROW as u32;

/// The number of a sheet's last column.
const LAST_COLUMN: u32 = crate::LAST_COLUMN as u32;

/// Whether the text is a word that could be no reference: it begins with a letter, `_` or a backslash, has only word
/// characters, is no A1 cell of the sheet, and has no form such as `R1C1`, a lone `R` or `C` aside.
pub fn is_variable_form(text: &str) -> bool
    ensures { result ≡ is_variable_form (chars text.now) }
{
    is_word(text) && !is_a1_cell(text) && (is_lone(text) || !has_row_column_form(text))
}

/// Whether the text begins with an ASCII digit.
pub fn begins_with_digit(text: &str) -> bool
    ensures { result ≡ first_is is_digit (chars text.now) }
{
    match first_char(text) {
        Some((c, _)) => c.is_ascii_digit(),
        None => false,
    }
}

/// Whether the text begins with a letter by Unicode.
pub fn begins_with_letter(text: &str) -> bool
    ensures { result ≡ first_is is_letter (chars text.now) }
{
    match first_char(text) {
        Some((c, _)) => is_alphabetic(c),
        None => false,
    }
}

/// Whether it begins as a word does, and has the characters of a word alone.
fn is_word(name: &str) -> bool
    ensures { result ≡ (first_is begins_word (chars name.now)
        && list_all is_word_character (chars name.now)) }
{
    let Some((c, _)) = first_char(name) else {
        return false;
    };
    begins_word(c) && has_word_characters(name)
}

/// Whether it has the characters of a word alone.
pub fn has_word_characters(text: &str) -> bool
    ensures { result ≡ list_all is_word_character (chars text.now) }
{
    let mut rest = text;
    while let Some((c, after)) = first_char(rest) {
        if !is_word_character(c) {
            return false;
        }
        rest = after;
    }
    true
}

/// Whether it is a lone R or C, in either case.
pub fn is_lone(name: &str) -> bool
    ensures { result ≡ is_lone (chars name.now) }
{
    let Some((c, after)) = first_char(name) else {
        return false;
    };
    (is_r(c) || is_c(c)) && is_nothing(after)
}

/// Whether it is R and digits, C and digits, or both in this order, in either case. There may be no digits.
fn has_row_column_form(text: &str) -> bool
    ensures { result ≡ has_row_column_form (chars text.now) }
{
    let Some((c, after)) = first_char(text) else {
        return false;
    };
    is_numbered_row(text)
        || is_numbered_column(text)
        || is_r(c) && is_numbered_column(past_digits(after))
}

/// Whether the letters name a column of the sheet, in either case.
#[tactic(auto, using(crate::proofs::FormLemmas::column_from_start))]
pub fn names_column(letters: &str) -> bool
    ensures { result ≡ names_column (chars letters.now) }
{
    let mut column = 0;
    let mut rest = letters;
    while let Some((c, after)) = first_char(rest) {
        let Some(digit) = letter_number(c) else {
            return false;
        };
        column = (column * 26 + digit).min(LAST_COLUMN + 1);
        rest = after;
    }
    0 < column && column <= LAST_COLUMN
}

/// What a letter counts: A and a are 1, Z and z are 26.
pub fn letter_number(c: char) -> Option<u32>
    ensures { result ≡ (if is_ascii_letter c then Some (letter_digit c) else None) }
{
    match c {
        'A'..='Z' => Some(c as u32 - 64),
        'a'..='z' => Some(c as u32 - 96),
        _ => None,
    }
}

/// Whether the digits name a row of the sheet. Zeros in front are read.
#[tactic(auto, using(crate::proofs::FormLemmas::row_from_start))]
pub fn names_row(digits: &str) -> bool
    ensures { result ≡ names_row (chars digits.now) }
{
    let mut row = 0;
    let mut rest = digits;
    while let Some((c, after)) = first_char(rest) {
        let Some(digit) = c.to_digit(10) else {
            return false;
        };
        row = (row * 10 + digit).min(LAST_ROW + 1);
        rest = after;
    }
    0 < row && row <= LAST_ROW
}

/// Whether it is an A1 cell of the sheet. Most words have no digits after their letters, and nothing else is asked of them.
pub fn is_a1_cell(text: &str) -> bool
    ensures { result ≡ is_a1_cell (chars text.now) }
{
    let letters = past_dollar(text);
    names_row(past_dollar(past_letters(letters))) && names_column(letters_run(letters))
}

/// Whether a text has digits alone, or nothing.
#[tactic(auto, using(crate::proofs::RunLemmas::nothing_past_digits))]
pub fn are_digits(text: &str) -> bool
    ensures { result ≡ all_ascii_digits (chars text.now) }
{
    is_nothing(past_digits(text))
}

pub fn is_r(c: char) -> bool
    ensures { result ≡ is_r c }
{
    c == 'R' || c == 'r'
}

pub fn is_c(c: char) -> bool
    ensures { result ≡ is_c c }
{
    c == 'C' || c == 'c'
}

/// R and digits.
fn is_numbered_row(text: &str) -> bool
    ensures { result ≡ is_numbered is_r (chars text.now) }
{
    let Some((c, digits)) = first_char(text) else {
        return false;
    };
    is_r(c) && are_digits(digits)
}

/// C and digits.
fn is_numbered_column(text: &str) -> bool
    ensures { result ≡ is_numbered is_c (chars text.now) }
{
    let Some((c, digits)) = first_char(text) else {
        return false;
    };
    is_c(c) && are_digits(digits)
}
