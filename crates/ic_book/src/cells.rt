//! What cells hold: their values, their types, and which there are.
ghost use Rattle.ic_grid.specs.Shape.{is_empty};
ghost use Rattle.ic_machine.specs.Fields.{places_fields, type_field};
ghost use Rattle.ic_machine.specs.Reply.{bool_field};
ghost use Rattle.ic_machine.specs.subjects.Reading.{GetAllCells, GetCellType, GetCellValueByIndex, IsEmptyCell, reading_step, value_fields};
ghost use Rattle.ic_parts.specs.Book.{IsValidBook};
ghost use Rattle.ic_parts.specs.Cells.{FindsCell};
ghost use Rattle.ic_parts.specs.Does.{Does, DoesOnly};

use crate::{BookError, Model};
use ic_cells::{Cell, CellIndex, CellType, CellValue};
use ic_parts::cells::{all_places, is_empty, type_in, value_in};

impl<'a> Model<'a> {
    /// The value of the cell at a row and a column, both from 1, of the sheet at an index, from 0: a number, a boolean or
    /// a text; an error value is the text of its word in the language in force, and a formula without a value the text
    /// `#ERROR!`. `CellValue::None` exactly where no cell stands or an empty one, also outside the sheet.
    ///
    /// `InvalidSheet` exactly where no sheet stands at the index; `OutOfMemory` only where one does.
    pub fn get_cell_value_by_index(
        &self,
        sheet_index: u32,
        row: i32,
        column: i32,
    ) -> Result<CellValue, BookError>
        ensures does { Does reading_step (GetCellValueByIndex sheet_index row column) value_fields
            result self.now self.now }
    {
        let cell = self.cell_at(sheet_index, row, column)?;
        let strings = self.lists.strings.as_items();
        Ok(value_in(self.alloc, cell, strings, self.notation.language())?)
    }

    /// The type of the value of the cell at a row and a column, both from 1, of the sheet at an index, from 0. `Number`
    /// where no cell stands, also outside the sheet; an empty cell and a formula without a value are numbers too.
    ///
    /// `InvalidSheet` exactly where no sheet stands at the index. It takes no memory.
    pub fn get_cell_type(&self, sheet: u32, row: i32, column: i32) -> Result<CellType, BookError>
        ensures does { DoesOnly reading_step (GetCellType sheet row column) type_field
            result self.now self.now }
    {
        Ok(type_in(self.cell_at(sheet, row, column)?))
    }

    /// Whether the place at a row and a column, both from 1, of the sheet at an index, from 0, holds nothing but a style:
    /// no cell, or an empty one. So it is at each place outside the sheet.
    ///
    /// `InvalidSheet` exactly where no sheet stands at the index. It takes no memory.
    pub fn is_empty_cell(&self, sheet: u32, row: i32, column: i32) -> Result<bool, BookError>
        ensures does { DoesOnly reading_step (IsEmptyCell sheet row column) bool_field
            result self.now self.now }
    {
        Ok(is_empty(self.cell_at(sheet, row, column)?))
    }

    /// The places of all cells, empty ones too, by the indexes of their sheets, from 0, and by rows and columns, from 1.
    /// Only memory can be missing.
    pub fn get_all_cells(&self) -> Result<Vec<CellIndex>, BookError>
        ensures does { Does reading_step GetAllCells places_fields result self.now self.now }
    {
        Ok(all_places(self.alloc, &self.contents.sheets)?)
    }

    /// The cell at a place, which may lie outside of its sheet.
    fn cell_at(&self, sheet: u32, row: i32, column: i32) -> Result<Option<&Cell>, BookError>
        ensures finds { FindsCell sheet row column result self.now }
        ensures valid { IsValidBook self.now.book }
    {
        match self.contents.sheets.get(sheet as usize) {
            Some(sheet) => Ok(sheet.grid.cells.get(row, column)),
            None => Err(BookError::InvalidSheet),
        }
    }
}
