//! A row for each function, by number: the letter of its kind (E cell by cell, W as a whole, D dynamic), and its words
//! in English, Spanish, French, German and Italian, with one blank between two.
ghost use Rattle.std.specs.Prelude.{◌≡◌, [], ◌∷◌, ◌<◌, ◌≤◌, IfSome, MatchOption, chars, drop, length};
ghost use Rattle.ic_laws.specs.Scan.{past_run};
ghost use Rattle.ic_tables.specs.Sample.{kind_of};
ghost use Rattle.ic_tables.specs.WordList.{is_inside};
ghost use Rattle.ic_functions.specs.Rows.{is_in_row, kind_in, rows_in, word_at};

pub mod a_to_f;
pub mod first;
pub mod g_to_z;

use ic_laws::scan::{first_char, front_of, is_nothing};
use ic_tables::FunctionKind;

/// The first row of a text, and the text after it. None where the text is empty.
#[tactic(auto, using(crate::proofs::RowLemmas::row_of_text, crate::proofs::RowLemmas::no_row))]
pub fn next_row(text: &str) -> Option<(&str, &str)>
    ensures rows { MatchOption result (rows_in (chars text.now) ≡ [])
        (λ p. rows_in (chars text.now) ≡ chars p.0.now ∷ rows_in (chars p.1.now)) }
    ensures shorter { IfSome result (λ p. length (chars p.1.now) < length (chars text.now)) }
{
    if is_nothing(text) {
        return None;
    }
    let rest = past_row(text);
    Some((front_of(text, rest), past_first(rest)))
}

/// The text from its first line feed on.
fn past_row(text: &str) -> &str
    ensures rest { chars result.now ≡ past_run is_in_row (chars text.now) }
    ensures shorter { length result.now ≤ length text.now }
{
    let mut rest = text;
    while let Some((c, after)) = first_char(rest) {
        if c == '\n' {
            break;
        }
        rest = after;
    }
    rest
}

/// The word at this place of a row, from 0.
pub fn word_at(row: &str, place: usize) -> &str
    ensures { chars result.now ≡ word_at place (chars row.now) }
{
    let mut rest = row;
    for _ in 0..place {
        rest = past_first(past_word(rest));
    }
    front_of(rest, past_word(rest))
}

/// The text from its first blank on.
fn past_word(text: &str) -> &str
    ensures rest { chars result.now ≡ past_run is_inside (chars text.now) }
    ensures shorter { length result.now ≤ length text.now }
{
    let mut rest = text;
    while let Some((c, after)) = first_char(rest) {
        if c == ' ' {
            break;
        }
        rest = after;
    }
    rest
}

/// The text without its first character.
fn past_first(text: &str) -> &str
    ensures { chars result.now ≡ drop 1 (chars text.now) }
{
    match first_char(text) {
        Some((_, rest)) => rest,
        None => text,
    }
}

/// The kind that a row begins with.
pub fn kind_in(row: &str) -> FunctionKind
    ensures { result ≡ kind_in (chars row.now) }
{
    match first_char(row) {
        Some((letter, _)) => kind_of(letter),
        None => FunctionKind::Each,
    }
}

fn kind_of(letter: char) -> FunctionKind
    ensures { result ≡ kind_of letter }
{
    match letter {
        'W' => FunctionKind::Whole,
        'D' => FunctionKind::Dynamic,
        _ => FunctionKind::Each,
    }
}
