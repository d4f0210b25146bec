//! The lines that write the formulas of cells.
ghost use Rattle.std.specs.Prelude.{◌≡◌, ◌++◌, ℕ, IfOk, OnOk, chars, map};
ghost use Rattle.std.specs.Fmt.{decimal};
ghost use Rattle.ic_parts.specs.Book.{core_of, notations_in};
ghost use Rattle.ic_parts.specs.Lent.{placed};
ghost use Rattle.ic_dump.specs.English.{IsEnglish};
ghost use Rattle.ic_dump.specs.Lines.{cell_line, cell_lines_from, english_formula, lines_of_cells};
ghost use Rattle.ic_dump.specs.Records.{core_seen};

use crate::english::english_formula;
use crate::lines::{digits_of, line_of, signed_digits_of};
use crate::sheets::SheetSeen;
use ic_book::{Model, Notation, PlacedFormula};
use ic_laws::OutOfMemory;
use ic_lines::Line;
use std::alloc::Global;

/// Puts the lines at the end that write the formulas of cells.
pub(crate) fn push_cells(
    alloc: Global,
    lines: &mut Vec<Line>,
    model: &Model<'_>,
    english: &Notation<'_>,
    sheets: &[SheetSeen<'_>],
) -> Result<(), OutOfMemory>
    requires { IsEnglish model.now.book english.now }
    ensures { OnOk result (lines.new.items ≡ lines.old.items
        ++ cell_lines_from (notations_in model.now.book) (core_of model.now.book) 0
        (map core_seen sheets.now)) }
{
    for (index, sheet) in sheets.iter().enumerate() {
        push_cells_of(alloc, lines, model, english, index, sheet)?;
    }
    Ok(())
}

/// Those of the sheet at an index.
fn push_cells_of(
    alloc: Global,
    lines: &mut Vec<Line>,
    model: &Model<'_>,
    english: &Notation<'_>,
    index: usize,
    sheet: &SheetSeen<'_>,
) -> Result<(), OutOfMemory>
    requires { IsEnglish model.now.book english.now }
    ensures { OnOk result (lines.new.items ≡ lines.old.items ++ lines_of_cells
        (notations_in model.now.book) (core_of model.now.book) index (core_seen sheet.now).cells) }
{
    let digits = digits_of(alloc, index as u64)?;
    let cells = sheet.cells.as_slice();
    push_each(alloc, lines, model, english, digits.as_str(), cells)
}

/// Those of these cells of the sheet at an index, of which these are the digits.
fn push_each(
    alloc: Global,
    lines: &mut Vec<Line>,
    model: &Model<'_>,
    english: &Notation<'_>,
    sheet: &str,
    cells: &[PlacedFormula<'_>],
) -> Result<(), OutOfMemory>
    requires { IsEnglish model.now.book english.now }
    ensures { (index : ℕ) → chars sheet.now ≡ decimal index → OnOk result
        (lines.new.items ≡ lines.old.items ++ lines_of_cells (notations_in model.now.book)
        (core_of model.now.book) index (map placed cells.now)) }
{
    for cell in cells {
        lines.push(line_of_cell(alloc, model, english, sheet, cell)?)?;
    }
    Ok(())
}

/// The line that writes the formula of a cell.
fn line_of_cell(
    alloc: Global,
    model: &Model<'_>,
    english: &Notation<'_>,
    sheet: &str,
    cell: &PlacedFormula<'_>,
) -> Result<Line, OutOfMemory>
    requires { IsEnglish model.now.book english.now }
    ensures { (index : ℕ) → chars sheet.now ≡ decimal index → IfOk result (λ line. line
        ≡ cell_line index (placed cell.now).0 (english_formula
        (notations_in model.now.book) (core_of model.now.book)
        (placed cell.now).0 (placed cell.now).1)) }
{
    let text = english_formula(model, english, cell.row, cell.column, cell.formula)?;
    cell_line(alloc, sheet, cell.row, cell.column, text.as_str())
}

/// The line that writes a text into a cell.
fn cell_line(
    alloc: Global,
    sheet: &str,
    row: i32,
    column: i32,
    text: &str,
) -> Result<Line, OutOfMemory>
    ensures { (index : ℕ) → chars sheet.now ≡ decimal index → IfOk result (λ line. line
        ≡ cell_line index (row, column) (chars text.now)) }
{
    let row = signed_digits_of(alloc, row)?;
    let column = signed_digits_of(alloc, column)?;
    line_of(
        alloc,
        &[
            "update_cell_with_formula",
            sheet,
            row.as_str(),
            column.as_str(),
            text,
        ],
    )
}
