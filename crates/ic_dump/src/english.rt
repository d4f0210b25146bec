//! English, by the tables of a book, whatever notation is in force.
ghost use Rattle.std.specs.Prelude.{◌≡◌, ◌++◌, IfOk, chars, codes, is_some, string_bytes};
ghost use Rattle.ic_laws.specs.Notations.{english};
ghost use Rattle.ic_laws.specs.ReadAs.{read_as};
ghost use Rattle.ic_tree.specs.Notations.{notations_of};
ghost use Rattle.ic_parts.specs.Book.{Book, IsValidBook, core_of, notations_in};
ghost use Rattle.ic_dump.specs.English.{IsEnglish};
ghost use Rattle.ic_dump.specs.Lines.{english_formula};
ghost use Rattle.ic_dump.specs.Refused.{is_read};

use ic_book::{Model, Notation};
use ic_laws::scan::{is_nothing, push_char, push_text};
use ic_laws::{Dialect, Formula, OutOfMemory};
use ic_tree::{Shown, read};
use std::alloc::Global;

/// The notation of the locale `en` and the language `en`, which the tables have.
pub(crate) fn english_of<'a>(model: &Model<'a>) -> Notation<'a>
    ensures named { IsEnglish model.now.book result }
    ensures valid { IsValidBook model.now.book }
{
    match model.notation_named("en", "en") {
        Ok(notation) => notation,
        Err(_) => unreachable!(),
    }
}

/// `=` and a formula in English, as it is written in the cell at a row and a column. Only memory can be missing.
pub(crate) fn english_formula(
    model: &Model<'_>,
    english: &Notation<'_>,
    row: i32,
    column: i32,
    formula: &Formula,
) -> Result<String, OutOfMemory>
    requires { IsEnglish model.now.book english.now }
    ensures { IfOk result (λ text. chars (string_bytes text) ≡ english_formula
        (notations_in model.now.book) (core_of model.now.book) (row, column) formula.now) }
{
    model.formula_text(row, column, formula, english)
}

/// Whether a text that is written after `=` into the cell at a row and a column, in English, isn't kept as it is: nothing
/// stands there, or it reads, or does with a `)`. Only memory can be missing.
pub(crate) fn is_read(
    alloc: Global,
    english: &Notation<'_>,
    row: i32,
    column: i32,
    text: &str,
) -> Result<bool, OutOfMemory>
    ensures { (book : Book) → IsEnglish book english.now → IfOk result (λ reads. reads
        ≡ is_read (notations_in book) (row, column) (chars text.now)) }
{
    if is_nothing(text) {
        return Ok(true);
    }
    let shown = english_at(english, row, column);
    let is_plain = reads(alloc, &shown, text)?;
    if is_plain {
        return Ok(true);
    }
    reads_closed(alloc, &shown, text)
}

/// Whether a text reads. Only memory can be missing.
fn reads<D: Dialect>(alloc: Global, d: &D, text: &str) -> Result<bool, OutOfMemory>
    ensures { IfOk result (λ reads. reads
        ≡ is_some (read_as (D.meaning d.now) (chars text.now))) }
{
    Ok(read(alloc, d, text)?.is_some())
}

/// The same with a `)` added.
fn reads_closed<D: Dialect>(alloc: Global, d: &D, text: &str) -> Result<bool, OutOfMemory>
    ensures { IfOk result (λ reads. reads
        ≡ is_some (read_as (D.meaning d.now) (chars text.now ++ codes ")"))) }
{
    let mut closed = String::with_capacity(alloc, text.len())?;
    push_text(&mut closed, text)?;
    push_char(&mut closed, ')')?;
    reads(alloc, d, closed.as_str())
}

/// How formulas are written in English in the cell at a row and a column, by the tables of a notation.
fn english_at<'n>(notation: &Notation<'n>, row: i32, column: i32) -> Shown<'n>
    ensures { ⟦<Shown<'n> as Dialect>⟧.meaning result ≡ (notations_of notation.now.tables).shown
        english english row column }
{
    let locale = notation.get_default_locale();
    let language = notation.get_default_language();
    Shown::new(notation.tables(), locale, language, row, column)
}
