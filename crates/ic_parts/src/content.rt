//! What cells show: so that it can be typed again, and by their formats.
ghost use Rattle.std.specs.Prelude.{◌≡◌, ◌<◌, Some, chars, option_and_then, option_map};
ghost use Rattle.std.specs.List.{slice_get};
ghost use Rattle.ic_cells.specs.Cell.{cell_formula_index, string_at};
ghost use Rattle.ic_machine.specs.InForce.{is_number, is_text};
ghost use Rattle.ic_parts.specs.Shown.{formula_number, number_kept, spill_number, spill_text, text_kept};

use ic_cells::{Cell, FormulaValue, SpillValue};
use ic_input::Typed;
use ic_laws::{Amount, Formula, Text};
use ic_sheets::Sheet;

/// Whether it is this number.
pub fn is_number(typed: &Typed, amount: Amount) -> bool
    ensures { result ≡ is_number amount typed.now }
{
    match typed {
        Typed::Number(typed, _) => typed.units() == amount.units(),
        _ => false,
    }
}

/// Whether it is a text.
pub fn is_text(typed: &Typed) -> bool
    ensures { result ≡ is_text typed.now }
{
    matches!(typed, Typed::Text(_))
}

/// The formula of a cell of a sheet.
pub fn formula_in<'s>(worksheet: &'s Sheet, cell: &Cell) -> Option<&'s Formula>
    ensures { option_map (λ f. f.now) result ≡ option_and_then
        (slice_get worksheet.entry.now.pool.formulas) (cell_formula_index cell.now) }
{
    worksheet.pool.get(cell.get_formula()?)
}

/// The text that a cell without a formula keeps.
pub fn text_kept<'c>(cell: &'c Cell, strings: &'c [Text]) -> Option<&'c str>
    ensures { option_map (λ t. chars t.now) result ≡ text_kept strings.entry.now cell.entry.now }
{
    match cell {
        Cell::SharedString { si, .. } => Some(string_at(strings, *si)),
        Cell::SpillCell { v, .. } => spill_text(v),
        _ => None,
    }
}

/// The number that a cell's value is.
pub fn number_kept(cell: &Cell) -> Option<Amount>
    ensures { result ≡ number_kept cell.now }
{
    match cell {
        Cell::NumberCell { v, .. } => Some(*v),
        Cell::CellFormula { v, .. } => formula_number(v),
        Cell::ArrayFormula { v, .. } => formula_number(v.kept()?),
        Cell::SpillCell { v, .. } => spill_number(v),
        _ => None,
    }
}

/// The text of a cell of a spill.
fn spill_text(value: &SpillValue) -> Option<&str>
    ensures { option_map (λ t. chars t.now) result ≡ spill_text value.entry.now }
{
    match value {
        SpillValue::Text(text) => Some(text.as_ref().as_str()),
        _ => None,
    }
}

/// The number that the value of a cell of a spill is.
fn spill_number(value: &SpillValue) -> Option<Amount>
    ensures { result ≡ spill_number value.now }
{
    match value {
        SpillValue::Number(amount) => Some(*amount),
        _ => None,
    }
}

/// The number that the value of a formula is.
fn formula_number(value: &FormulaValue) -> Option<Amount>
    ensures { result ≡ formula_number value.now }
{
    match value {
        FormulaValue::Number(amount) => Some(*amount),
        _ => None,
    }
}

/// The shared string at an index. There is none past the last, and then it is the empty text.
fn string_at(strings: &[Text], index: usize) -> &str
    ensures { chars result.now ≡ string_at strings.entry.now index }
{
    match strings.get(index) {
        Some(text) => text.as_str(),
        None => "",
    }
}
