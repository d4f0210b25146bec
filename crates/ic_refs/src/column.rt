ghost use Rattle.std.specs.Prelude.{◌≡◌, ◌↔◌, ◌<◌, ◌≤◌, [], ◌∷◌, ◌++◌, ◌+◌, ℤ, true, false, pos, Some, Ok, IfOk, IfSome, OnOk, IsNone, MatchResult, is_ok, chars, string_bytes, option_map};
ghost use Rattle.std.specs.List.{list_all};
ghost use Rattle.ic_laws.specs.Position.{column_count, is_row, is_column, letters_number};
ghost use Rattle.ic_laws.specs.Scan.{is_upper};
ghost use Rattle.ic_refs.specs.Digits.{letters_from};
ghost use Rattle.ic_refs.specs.Column.{is_ascii, column_letters, column_name, column_number, letter};

use crate::ColumnError;
use ic_laws::scan::{first_char, letter_number, push_char};
use ic_laws::{LAST_COLUMN, LAST_ROW, OutOfMemory};
use std::alloc::Global;

/// The number of the column with these letters, from 1. Only upper case is read.
///
/// Err tells the first that holds: the text is empty, a character isn't ASCII, a character is none of A to Z, or the
/// column is past the last one, 16,384.
pub fn column_to_number(column: &str) -> Result<i32, ColumnError>
    ensures exact { result ≡ column_number (chars column.now) }

    // A text names a column exactly where the column has these letters.
    ensures named { MatchResult result (λ n. column_name n ≡ Some (chars column.now))
        (λ e. (n : ℤ) → column_name n ≡ Some (chars column.now) → ⊥) }
{
    number_of_letters(column)
}

// The same, with the clause that says it all.
fn number_of_letters(column: &str) -> Result<i32, ColumnError>
    ensures { result ≡ column_number (chars column.now) }
{
    if column.is_empty() {
        return Err(ColumnError::Empty);
    }
    if !is_ascii(column) {
        return Err(ColumnError::NotAscii);
    }
    if !is_upper(column) {
        return Err(ColumnError::NotLetters);
    }
    let (number, rest) = read_letters(column);
    match first_char(rest) {
        None => Ok(number as i32),
        Some(_) => Err(ColumnError::NotValid),
    }
}

/// Whether these letters name a column: whether `column_to_number` gives its number.
pub fn is_valid_column(column: &str) -> bool
    ensures { result ≡ is_ok (column_number (chars column.now)) }
{
    column_to_number(column).is_ok()
}

/// Whether a column has this number: whether it is from 1 to 16,384.
pub fn is_valid_column_number(column: i32) -> bool
    ensures { result ≡ is_column column }
{
    1 <= column && column <= LAST_COLUMN
}

/// Whether a row has this number: whether it is from 1 to 1,048,576.
pub fn is_valid_row(row: i32) -> bool
    ensures { result ≡ is_row row }
{
    1 <= row && row <= LAST_ROW
}

/// The letters, in upper case, of the column with this number. None exactly where no column has it, outside 1 to
/// 16,384.
pub fn number_to_column(alloc: Global, column: i32) -> Result<Option<String>, OutOfMemory>
    ensures exact { IfOk result (λ name. option_map (λ letters. chars (string_bytes letters)) name
        ≡ column_name column) }
    ensures none { IfOk result (λ name. IsNone name ↔ (is_column column ≡ false)) }

    // The letters are in upper case and name this column.
    ensures letters { IfOk result (λ name. IfSome name (λ letters.
        (list_all is_upper (chars (string_bytes letters)) ≡ true)
        × (pos (letters_number (chars (string_bytes letters))) ≡ column))) }
{
    if !is_valid_column_number(column) {
        return Ok(None);
    }
    let mut name = String::with_capacity(alloc, 3)?;
    push_column(&mut name, column as u32)?;
    Ok(Some(name))
}

// Appends the letters of a column of the sheet.
#[tactic(auto, unfolding(crate::specs::Column::column_letters))]
pub(crate) fn push_column(text: &mut String, column: u32) -> Result<(), OutOfMemory>
    requires some { 1 ≤ column }
    requires few { column ≤ column_count }
    ensures { OnOk result (chars (string_bytes text.new) ≡ chars (string_bytes text.old)
        ++ column_letters column) }
{
    if column <= 26 {
        return push_letter(text, column);
    }
    if column <= 702 {
        push_letter(text, (column - 1) / 26)?;
    } else {
        push_letter(text, (column - 27) / 676)?;
        push_letter(text, (column - 27) / 26 % 26 + 1)?;
    }
    push_letter(text, (column - 1) % 26 + 1)
}

// Appends the letter of a digit from 1 to 26.
fn push_letter(text: &mut String, digit: u32) -> Result<(), OutOfMemory>
    requires some { 1 ≤ digit }
    requires few { digit ≤ 26 }
    ensures { OnOk result (chars (string_bytes text.new) ≡ chars (string_bytes text.old)
        ++ letter digit ∷ []) }
{
    push_char(text, (64 + digit as u8) as char)
}

// Whether each character is ASCII.
fn is_ascii(text: &str) -> bool
    ensures { result ≡ list_all is_ascii (chars text.now) }
{
    text.chars().all(|c| c.is_ascii())
}

// Whether each character is one of A to Z.
fn is_upper(text: &str) -> bool
    ensures { result ≡ list_all is_upper (chars text.now) }
{
    text.chars().all(|c| c.is_ascii_uppercase())
}

// The number of the column whose letters, in either case, are at the front, and the rest. Letters are
// taken while the column is one of the sheet. The number is 0 where there is no letter.
pub(crate) fn read_letters(text: &str) -> (u32, &str)
    ensures exact { (result.0, chars result.1.now) ≡ letters_from 0 (chars text.now) }
    ensures small { result.0 ≤ column_count }
{
    let mut number = 0;
    let mut rest = text;
    while let Some((c, after)) = first_char(rest) {
        let Some(digit) = letter_number(c) else {
            break;
        };
        let more = number * 26 + digit;
        if more > LAST_COLUMN as u32 {
            break;
        }
        number = more;
        rest = after;
    }
    (number, rest)
}
