//! The styles of one sheet by number, and copies of styles.
ghost use Rattle.std.specs.Prelude.{◌≡◌, ◌<◌, IfOk, length, option_map};
ghost use Rattle.std.specs.FinMap as finite;
ghost use Rattle.ic_cells.specs.Cell.{style_of};
ghost use Rattle.ic_cells.specs.Style.{style_at};
ghost use Rattle.ic_machine.specs.Line.{column_causes, row_causes};
ghost use Rattle.ic_machine.specs.Refusal.{first_refusal};
ghost use Rattle.ic_machine.specs.Valid.{IsStyleNumber};
ghost use Rattle.ic_parts.specs.Refused.{TellsOnly};
ghost use Rattle.ic_parts.specs.Styled.{StylesLine, line_causes, line_style};

use crate::BookError;
use ic_cells::{Style, Styles};
use ic_grid::Grid;
use ic_laws::{LAST_COLUMN, LAST_ROW, OutOfMemory};
use std::alloc::Global;

/// A row or a column of a sheet.
#[derive(Clone, Copy)]
pub enum Line {
    /// By number, from 1.
    Row(i32),
    /// By number, from 1.
    Column(i32),
}

/// Whether a sheet has it: Ok, or why not.
pub fn check_line(line: Line) -> Result<(), BookError>
    ensures { TellsOnly result (first_refusal (line_causes line)) }
{
    match line {
        Line::Row(row) => check_row(row),
        Line::Column(column) => check_column(column),
    }
}

/// Whether a sheet has a row of this number.
fn check_row(row: i32) -> Result<(), BookError>
    ensures { TellsOnly result (first_refusal (row_causes row)) }
{
    if row < 1 || row > LAST_ROW {
        return Err(BookError::InvalidRow);
    }
    Ok(())
}

/// Whether a sheet has a column of this number.
fn check_column(column: i32) -> Result<(), BookError>
    ensures { TellsOnly result (first_refusal (column_causes column)) }
{
    if column < 1 || column > LAST_COLUMN {
        return Err(BookError::InvalidColumn);
    }
    Ok(())
}

/// Gives a row or a column of a sheet the style of a number. Only memory can be missing, and then nothing has changed.
pub fn style_line(grid: &mut Grid, line: Line, number: usize) -> Result<(), OutOfMemory>
    ensures { StylesLine line number result grid.old grid.new }
{
    match line {
        Line::Row(row) => grid.set_row_style(row, number),
        Line::Column(column) => grid.set_column_style(column, number),
    }
}

/// The number of the style that was set for a row or a column of a sheet. None exactly where none was.
pub fn line_style(grid: &Grid, line: Line) -> Option<usize>
    ensures { result ≡ line_style line grid.now.rows grid.now.columns }
{
    match line {
        Line::Row(row) => grid.row_style(row),
        Line::Column(column) => grid.column_style(column),
    }
}

/// The number of the style of the cell at a place, if one stands there.
pub fn own_style(grid: &Grid, row: i32, column: i32) -> Option<usize>
    ensures { result ≡ option_map style_of (finite.get grid.now.cells (row, column)) }
{
    match grid.cells.get(row, column) {
        Some(cell) => Some(cell.get_style()),
        None => None,
    }
}

/// A copy of the style of a number.
pub fn copy_of(styles: &Styles, alloc: Global, number: usize) -> Result<Style, OutOfMemory>
    requires { number < length styles.now }
    ensures { IfOk result (λ style. style ≡ style_at styles.now number) }
{
    match styles.get_style(number) {
        Some(style) => style.copy(alloc),
        None => unreachable!(),
    }
}

/// A copy of the style of a number, where there is one.
pub fn copy_if_set(
    styles: &Styles,
    alloc: Global,
    number: Option<usize>,
) -> Result<Option<Style>, OutOfMemory>
    requires { IsStyleNumber (length styles.now) number }
    ensures { IfOk result (λ style. style ≡ option_map (style_at styles.now) number) }
{
    match number {
        Some(number) => Ok(Some(copy_of(styles, alloc, number)?)),
        None => Ok(None),
    }
}
