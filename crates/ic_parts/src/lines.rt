//! What is set for the rows and columns of one sheet: the steps of the machine on it.
ghost use Rattle.std.specs.Prelude.{◌≡◌, false, true};
ghost use Rattle.ic_laws.specs.Position.{is_column, is_row};
ghost use Rattle.ic_machine.specs.Reply.{bool_field, number_field};
ghost use Rattle.ic_machine.specs.subjects.Layout.{column_hidden_step, get_height_step, get_width_step, hide_column_step, hide_row_step, row_hidden_step, set_height_step, set_width_step};
ghost use Rattle.ic_machine.specs.subjects.Styles.{delete_column_step, delete_row_step};
ghost use Rattle.ic_parts.specs.Does.{DoesGrid};
ghost use Rattle.ic_parts.specs.Fields.{no_fields};
ghost use Rattle.ic_parts.specs.Parts.{StaysLaidOut};

use crate::BookError;
use ic_grid::Grid;
use ic_laws::{LAST_COLUMN, LAST_ROW};

/// Whether a sheet has a row with this number.
pub(crate) fn is_row(number: i32) -> bool
    ensures { result ≡ is_row number }
{
    1 <= number && number <= LAST_ROW
}

/// Whether it has a column with this number.
pub(crate) fn is_column(number: i32) -> bool
    ensures { result ≡ is_column number }
{
    1 <= number && number <= LAST_COLUMN
}

#[tactic(auto, unfolding(ic_machine::specs::subjects::Layout::set_height_step))]
pub fn set_height(grid: &mut Grid, row: i32, height: u32) -> Result<(), BookError>
    ensures does { DoesGrid true (set_height_step row height) no_fields result grid.old grid.new }
    ensures laid_out { StaysLaidOut grid.old grid.new }
{
    if !is_row(row) {
        return Err(BookError::InvalidRow);
    }
    grid.set_row_height(row, height)?;
    Ok(())
}

#[tactic(auto, unfolding(ic_machine::specs::subjects::Layout::set_width_step))]
pub fn set_width(grid: &mut Grid, column: i32, width: u32) -> Result<(), BookError>
    ensures does { DoesGrid true (set_width_step column width) no_fields result grid.old grid.new }
    ensures laid_out { StaysLaidOut grid.old grid.new }
{
    if !is_column(column) {
        return Err(BookError::InvalidColumn);
    }
    grid.set_column_width(column, width)?;
    Ok(())
}

#[tactic(auto, unfolding(ic_machine::specs::subjects::Layout::hide_row_step))]
pub fn hide_row(grid: &mut Grid, row: i32, hidden: bool) -> Result<(), BookError>
    ensures does { DoesGrid true (hide_row_step row hidden) no_fields result grid.old grid.new }
    ensures laid_out { StaysLaidOut grid.old grid.new }
{
    if !is_row(row) {
        return Err(BookError::InvalidRow);
    }
    grid.set_row_hidden(row, hidden)?;
    Ok(())
}

#[tactic(auto, unfolding(ic_machine::specs::subjects::Layout::hide_column_step))]
pub fn hide_column(grid: &mut Grid, column: i32, hidden: bool) -> Result<(), BookError>
    ensures does { DoesGrid true (hide_column_step column hidden) no_fields
        result grid.old grid.new }
    ensures laid_out { StaysLaidOut grid.old grid.new }
{
    if !is_column(column) {
        return Err(BookError::InvalidColumn);
    }
    grid.set_column_hidden(column, hidden)?;
    Ok(())
}

#[tactic(auto, unfolding(ic_machine::specs::subjects::Layout::get_height_step))]
pub fn height_of(grid: &Grid, row: i32) -> Result<u32, BookError>
    ensures { DoesGrid false (get_height_step row) number_field result grid.now grid.now }
{
    if !is_row(row) {
        return Err(BookError::InvalidRow);
    }
    Ok(grid.row_height(row))
}

#[tactic(auto, unfolding(ic_machine::specs::subjects::Layout::get_width_step))]
pub fn width_of(grid: &Grid, column: i32) -> Result<u32, BookError>
    ensures { DoesGrid false (get_width_step column) number_field result grid.now grid.now }
{
    if !is_column(column) {
        return Err(BookError::InvalidColumn);
    }
    Ok(grid.column_width(column))
}

#[tactic(auto, unfolding(ic_machine::specs::subjects::Layout::row_hidden_step))]
pub fn hides_row(grid: &Grid, row: i32) -> Result<bool, BookError>
    ensures { DoesGrid false (row_hidden_step row) bool_field result grid.now grid.now }
{
    if !is_row(row) {
        return Err(BookError::InvalidRow);
    }
    Ok(grid.is_row_hidden(row))
}

#[tactic(auto, unfolding(ic_machine::specs::subjects::Layout::column_hidden_step))]
pub fn hides_column(grid: &Grid, column: i32) -> Result<bool, BookError>
    ensures { DoesGrid false (column_hidden_step column) bool_field result grid.now grid.now }
{
    if !is_column(column) {
        return Err(BookError::InvalidColumn);
    }
    Ok(grid.is_column_hidden(column))
}

#[tactic(auto, unfolding(ic_machine::specs::subjects::Styles::delete_row_step))]
pub fn free_row(grid: &mut Grid, row: i32) -> Result<(), BookError>
    ensures does { DoesGrid false (delete_row_step row) no_fields result grid.old grid.new }
    ensures laid_out { StaysLaidOut grid.old grid.new }
{
    if !is_row(row) {
        return Err(BookError::InvalidRow);
    }
    grid.delete_row_style(row);
    Ok(())
}

#[tactic(auto, unfolding(ic_machine::specs::subjects::Styles::delete_column_step))]
pub fn free_column(grid: &mut Grid, column: i32) -> Result<(), BookError>
    ensures does { DoesGrid false (delete_column_step column) no_fields result grid.old grid.new }
    ensures laid_out { StaysLaidOut grid.old grid.new }
{
    if !is_column(column) {
        return Err(BookError::InvalidColumn);
    }
    grid.delete_column_style(column);
    Ok(())
}
