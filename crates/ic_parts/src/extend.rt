//! Formulas and values of one cell, written out for another.
ghost use Rattle.std.specs.Prelude.{◌≡◌, IfOk, Some, chars, string_bytes};
ghost use Rattle.std.specs.Option.{option_copied};
ghost use Rattle.ic_machine.specs.Refusal.{first_refusal};
ghost use Rattle.ic_parts.specs.Extended.{inside_causes, value_text};
ghost use Rattle.ic_parts.specs.Refused.{TellsOnly};

use crate::BookError;
use ic_cells::Cell;
use ic_laws::{Items, OutOfMemory, Text};
use ic_refs::{CellReferenceIndex, is_valid_column_number, is_valid_row};
use ic_tables::{Language, Locale};
use std::alloc::Global;

/// Whether both cells lie in a sheet: Ok, or why not.
pub fn check_cells(
    source: &CellReferenceIndex,
    target: &CellReferenceIndex,
) -> Result<(), BookError>
    ensures { TellsOnly result (first_refusal (inside_causes source.now target.now)) }
{
    if !is_valid_row(source.row) || !is_valid_row(target.row) {
        return Err(BookError::InvalidRow);
    }
    if !is_valid_column_number(source.column) || !is_valid_column_number(target.column) {
        return Err(BookError::InvalidColumn);
    }
    Ok(())
}

/// The text of the value of a cell, if there is one.
pub fn text_in(
    alloc: Global,
    cell: Option<&Cell>,
    strings: &Items<Text>,
    locale: &Locale,
    language: &Language,
) -> Result<String, OutOfMemory>
    ensures { IfOk result (λ s. chars (string_bytes s)
        ≡ value_text strings.now locale.now language.now (option_copied cell.entry)) }
{
    match cell {
        Some(cell) => cell.get_localized_text(alloc, strings, locale, language),
        None => Ok(String::new(alloc)),
    }
}

/// A text as callers take it.
pub fn same_text(alloc: Global, text: &str) -> Result<String, OutOfMemory>
    ensures { IfOk result (λ s. chars (string_bytes s) ≡ chars text.now) }
{
    Ok(String::from_str(alloc, text)?)
}
