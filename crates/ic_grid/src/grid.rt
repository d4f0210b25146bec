ghost use Rattle.std.specs.Prelude.{◌≡◌, Err, IfErr, IfOk, None, Ok, OnOk, option_and_then, true};
ghost use Rattle.std.specs.FinMap as finite;
ghost use Rattle.ic_grid.specs.Block.{block_at, is_area};
ghost use Rattle.ic_grid.specs.Calls.{can_write, can_write_array};
ghost use Rattle.ic_grid.specs.Shape.{celled};
ghost use Rattle.ic_grid.specs.Style.{first_style, style_at};

use crate::arrays::{Sought, has_sought, is_fixed_cell};
use crate::merges::{is_covered, meets_merge};
use crate::{Block, GridError};
use ic_cells::{Cell, ColumnProps, LineMap, Merge, PlaceMap, RowProps};
use ic_laws::Items;

/// The cells of a sheet, what was set for its rows and columns, and its merged cells.
pub struct Grid {
    /// By row and column, from 1.
    pub cells: PlaceMap<Cell>,
    /// By number, from 1.
    pub rows: LineMap<RowProps>,
    /// By number, from 1.
    pub columns: LineMap<ColumnProps>,
    pub merged_cells: Items<Merge>,
}

impl Drop for Grid {
    fn drop(self) {
        let Self {
            cells,
            rows,
            columns,
            merged_cells,
        } = self;
        drop(cells);
        drop(rows);
        drop(columns);
        drop(merged_cells);
    }
}

impl Grid {
    /// The number of the style that a place shows: its cell's, else its row's, else its column's, else 0. The place may lie
    /// outside of the sheet. No memory is taken.
    pub fn style_at(&self, row: i32, column: i32) -> usize
        ensures { result
            ≡ style_at celled self.now.cells self.now.rows self.now.columns (row, column) }
    {
        match self.cells.get(row, column) {
            Some(cell) => cell.get_style(),
            None => self.line_style(row, column),
        }
    }

    /// The number of the style that a place without a cell shows.
    fn line_style(&self, row: i32, column: i32) -> usize
        ensures { result ≡ first_style None
            (option_and_then (λ props. props.style) (finite.get self.now.rows row))
            (option_and_then (λ props. props.style) (finite.get self.now.columns column)) }
    {
        match (self.row_style(row), self.column_style(column)) {
            (Some(style), _) => style,
            (None, Some(style)) => style,
            (None, None) => 0,
        }
    }

    /// The same, for a row and a column as one.
    pub(crate) fn style_of_place(&self, place: (i32, i32)) -> usize
        ensures { result
            ≡ style_at celled self.now.cells self.now.rows self.now.columns place }
    {
        self.style_at(place.0, place.1)
    }

    /// Whether a cell can be written: Ok, or why it can't. `MergedPart` comes exactly where merged cells cover the place, and
    /// then `ArrayPart` exactly where it belongs to a Cse array of more than one cell. No memory is taken.
    pub fn can_write(&self, row: i32, column: i32) -> Result<(), GridError>
        ensures { result ≡ can_write celled self.now.merged_cells self.now.cells (row, column) }
    {
        match self.style_to_write(row, column) {
            Ok(_) => Ok(()),
            Err(error) => Err(error),
        }
    }

    /// The number of the style that a place shows (`style_at`) where its cell can be written, else why it can't
    /// (`can_write`). The place is searched once. No memory is taken.
    pub fn style_to_write(&self, row: i32, column: i32) -> Result<usize, GridError>
        ensures style { IfOk result (λ n. n
            ≡ style_at celled self.now.cells self.now.rows self.now.columns (row, column)) }
        ensures allowed { OnOk result
            (can_write celled self.now.merged_cells self.now.cells (row, column) ≡ Ok tt) }
        ensures refused { IfErr result (λ e.
            can_write celled self.now.merged_cells self.now.cells (row, column) ≡ Err e) }
    {
        if is_covered(self.merged_cells.as_slice(), row, column) {
            return Err(GridError::MergedPart);
        }
        match self.cells.get_from_last(row, column) {
            Some(cell) => {
                if is_fixed_cell(&self.cells, (row, column), cell) {
                    return Err(GridError::ArrayPart);
                }
                Ok(cell.get_style())
            }
            None => Ok(self.line_style(row, column)),
        }
    }

    /// Whether an array can be written into a block of the sheet, from a place on: Ok, or why it can't. `MergedPart` comes
    /// exactly where the block meets merged cells, and then `ArrayPart` exactly where one of its places belongs to a Cse
    /// array of more than one cell. No memory is taken.
    pub fn can_write_array(
        &self,
        row: i32,
        column: i32,
        width: i32,
        height: i32,
    ) -> Result<(), GridError>
        requires { is_area (block_at (row, column) width height) ≡ true }
        ensures { result
            ≡ can_write_array celled self.now.merged_cells self.now.cells
            (block_at (row, column) width height) }
    {
        let block = Block::at((row, column), width, height);
        if meets_merge(self.merged_cells.as_slice(), &block) {
            return Err(GridError::MergedPart);
        }
        if has_sought(Sought::Fixed, &self.cells, &block) {
            return Err(GridError::ArrayPart);
        }
        Ok(())
    }
}
