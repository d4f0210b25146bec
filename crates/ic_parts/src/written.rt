//! Typed texts written in a notation.
ghost use Rattle.std.specs.Prelude.{◌≡◌, IfOk, None, chars, pos, string_bytes, true};
ghost use Rattle.ic_tables.specs.Tables.{IsWellFormed};
ghost use Rattle.ic_input.specs.declared.input.Typed.TheVariants as kinds;
ghost use Rattle.ic_machine.specs.Book as machine;
ghost use Rattle.ic_machine.specs.InForce.{is_number, is_text, shown_words, typed_in};
ghost use Rattle.ic_machine.specs.Translation.{IsTypedSo};
ghost use Rattle.ic_parts.specs.Translated.{IsIn, localized_in};

use crate::Notation;
use crate::content::is_text;
use crate::formulas::after_sign;
use ic_cells::Cell;
use ic_input::{Typed, amount_text, classify};
use ic_laws::{Amount, Error, Items, OutOfMemory, Text};
use std::alloc::Global;

/// A text that, typed in a notation, is what was typed: nothing; a text after its quote; a number as its shortest decimal,
/// the word of a boolean or an error value; a text, with a quote before it where it would be something else without one. A
/// formula has none.
pub fn typed_text(
    alloc: Global,
    typed: &Typed,
    target: &Notation<'_>,
) -> Result<String, OutOfMemory>
    ensures { (book : machine.Book) → IsWellFormed book.tables → IsIn target.now book → IfOk result
        (λ text. IsTypedSo book (pos 1, pos 1) None typed.now (chars (string_bytes text))) }
{
    match typed {
        Typed::Empty => Ok(String::new(alloc)),
        Typed::Formula(_) => Ok(String::new(alloc)),
        Typed::Quoted(text) => after_sign(alloc, "'", text.as_str()),
        Typed::Number(amount, _) => number_text(alloc, *amount, target),
        Typed::Boolean(truth) => boolean_text(alloc, *truth, target),
        Typed::Error(error) => error_text(alloc, *error, target),
        Typed::Text(text) => words_text(alloc, text.as_str(), target),
    }
}

/// A text that is typed as this number.
fn number_text(alloc: Global, amount: Amount, target: &Notation<'_>) -> Result<String, OutOfMemory>
    ensures { (book : machine.Book) → IsWellFormed book.tables → IsIn target.now book → IfOk result
        (λ text. is_number amount (typed_in book (chars (string_bytes text))) ≡ true) }
{
    // What always holds of a notation and an amount is known from here on.
    let _ = target.language();
    let _ = target.get_default_language();
    let _ = amount.units();
    amount_text(alloc, amount, target.locale().locale.decimal_separator())
}

/// A text that is typed as this boolean.
fn boolean_text(alloc: Global, truth: bool, target: &Notation<'_>) -> Result<String, OutOfMemory>
    ensures { (book : machine.Book) → IsWellFormed book.tables → IsIn target.now book → IfOk result
        (λ text. typed_in book (chars (string_bytes text)) ≡ kinds.Boolean truth) }
{
    // What always holds of a notation is known from here on.
    let _ = target.locale();
    let _ = target.language();
    let _ = target.get_default_language();
    value_text(alloc, &Cell::new_boolean(truth, 0), target)
}

/// A text that is typed as this error value.
fn error_text(alloc: Global, error: Error, target: &Notation<'_>) -> Result<String, OutOfMemory>
    ensures { (book : machine.Book) → IsWellFormed book.tables → IsIn target.now book → IfOk result
        (λ text. typed_in book (chars (string_bytes text)) ≡ kinds.Error error) }
{
    // What always holds of a notation is known from here on.
    let _ = target.locale();
    let _ = target.language();
    let _ = target.get_default_language();
    value_text(alloc, &Cell::new_error(error, 0), target)
}

/// The text of a cell's value in a notation, where there are no shared strings.
fn value_text(alloc: Global, cell: &Cell, target: &Notation<'_>) -> Result<String, OutOfMemory>
    ensures { (book : machine.Book) → IsIn target.now book → IfOk result
        (λ text. chars (string_bytes text) ≡ localized_in book cell.now) }
{
    // What always holds of a notation is known from here on.
    let _ = target.get_default_language();
    let strings: Items<Text> = Items::from(Vec::new(alloc));
    let locale = &target.locale().locale;
    cell.get_localized_text(alloc, &strings, locale, target.language())
}

/// A text with a quote before it where it would be something else without one.
fn words_text(alloc: Global, text: &str, target: &Notation<'_>) -> Result<String, OutOfMemory>
    ensures { (book : machine.Book) → IsIn target.now book → IfOk result
        (λ s. chars (string_bytes s) ≡ shown_words book (chars text.now)) }
{
    if is_typed_text(alloc, text, target)? {
        return after_sign(alloc, "", text);
    }
    after_sign(alloc, "'", text)
}

/// Whether a text is typed as a text in a notation.
fn is_typed_text(alloc: Global, text: &str, target: &Notation<'_>) -> Result<bool, OutOfMemory>
    ensures { (book : machine.Book) → IsIn target.now book → IfOk result
        (λ b. b ≡ is_text (typed_in book (chars text.now))) }
{
    Ok(is_text(&typed(alloc, text, target)?))
}

/// What a typed text is in a notation.
fn typed(alloc: Global, text: &str, target: &Notation<'_>) -> Result<Typed, OutOfMemory>
    ensures { (book : machine.Book) → IsIn target.now book → IfOk result
        (λ t. t ≡ typed_in book (chars text.now)) }
{
    let english = target.get_default_language();
    classify(
        alloc,
        text,
        &target.locale().locale,
        target.language(),
        english,
    )
}
