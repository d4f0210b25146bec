//! The widths of columns, the heights of rows, and which of them are hidden.
ghost use Rattle.std.specs.Prelude.{◌≡◌};
ghost use Rattle.ic_machine.specs.Reply.{bool_field, number_field};
ghost use Rattle.ic_machine.specs.subjects.Layout.{GetColumnWidth, GetRowHeight, IsColumnHidden, IsRowHidden, SetColumnHidden, SetColumnWidth, SetRowHeight, SetRowHidden, layout_step};
ghost use Rattle.ic_parts.specs.Does.{Does, DoesOnly};
ghost use Rattle.ic_parts.specs.Fields.{no_fields};

use crate::{BookError, Model};
use ic_parts::lines::{
    height_of, hide_column, hide_row, hides_column, hides_row, set_height, set_width, width_of,
};

impl<'a> Model<'a> {
    /// Gives a column, by its number from 1, of the sheet at an index, from 0, a width, in hundredths. What else is set
    /// for the column stays.
    ///
    /// `InvalidSheet` exactly where no sheet stands at the index, then `InvalidColumn` where the column isn't 1 to 16,384;
    /// `OutOfMemory` only where neither holds. An error changes nothing.
    pub fn set_column_width(&mut self, sheet: u32, column: i32, width: u32) -> Result<(), BookError>
        ensures does { Does layout_step (SetColumnWidth sheet column width) no_fields
            result self.old self.new }
        ensures looks_up { self.new.has_all ≡ self.old.has_all }
    {
        self.on_grid(sheet, |grid| set_width(grid, column, width))
    }

    /// Gives a row, by its number from 1, of the sheet at an index, from 0, a height, in hundredths. What else is set for
    /// the row stays.
    ///
    /// `InvalidSheet` exactly where no sheet stands at the index, then `InvalidRow` where the row isn't 1 to 1,048,576;
    /// `OutOfMemory` only where neither holds. An error changes nothing.
    pub fn set_row_height(&mut self, sheet: u32, row: i32, height: u32) -> Result<(), BookError>
        ensures does { Does layout_step (SetRowHeight sheet row height) no_fields
            result self.old self.new }
        ensures looks_up { self.new.has_all ≡ self.old.has_all }
    {
        self.on_grid(sheet, |grid| set_height(grid, row, height))
    }

    /// The width of a column, by its number from 1, of the sheet at an index, from 0, in hundredths: 12,500 where none was
    /// set. A hidden column keeps its width.
    ///
    /// `InvalidSheet` exactly where no sheet stands at the index, then `InvalidColumn` where the column isn't 1 to 16,384.
    /// It takes no memory.
    pub fn get_column_width(&self, sheet: u32, column: i32) -> Result<u32, BookError>
        ensures does { DoesOnly layout_step (GetColumnWidth sheet column) number_field
            result self.now self.now }
    {
        self.of_grid(sheet, |grid| width_of(grid, column))
    }

    /// The height of a row, by its number from 1, of the sheet at an index, from 0, in hundredths: 2,800 where none was
    /// set. A hidden row keeps its height.
    ///
    /// `InvalidSheet` exactly where no sheet stands at the index, then `InvalidRow` where the row isn't 1 to 1,048,576. It
    /// takes no memory.
    pub fn get_row_height(&self, sheet: u32, row: i32) -> Result<u32, BookError>
        ensures does { DoesOnly layout_step (GetRowHeight sheet row) number_field
            result self.now self.now }
    {
        self.of_grid(sheet, |grid| height_of(grid, row))
    }

    /// Hides a column, by its number from 1, of the sheet at an index, from 0, or shows it. Its width stays.
    ///
    /// `InvalidSheet` exactly where no sheet stands at the index, then `InvalidColumn` where the column isn't 1 to 16,384;
    /// `OutOfMemory` only where neither holds. An error changes nothing.
    pub fn set_column_hidden(
        &mut self,
        sheet: u32,
        column: i32,
        hidden: bool,
    ) -> Result<(), BookError>
        ensures does { Does layout_step (SetColumnHidden sheet column hidden) no_fields
            result self.old self.new }
        ensures looks_up { self.new.has_all ≡ self.old.has_all }
    {
        self.on_grid(sheet, |grid| hide_column(grid, column, hidden))
    }

    /// Hides a row, by its number from 1, of the sheet at an index, from 0, or shows it. Its height stays.
    ///
    /// `InvalidSheet` exactly where no sheet stands at the index, then `InvalidRow` where the row isn't 1 to 1,048,576;
    /// `OutOfMemory` only where neither holds. An error changes nothing.
    pub fn set_row_hidden(&mut self, sheet: u32, row: i32, hidden: bool) -> Result<(), BookError>
        ensures does { Does layout_step (SetRowHidden sheet row hidden) no_fields
            result self.old self.new }
        ensures looks_up { self.new.has_all ≡ self.old.has_all }
    {
        self.on_grid(sheet, |grid| hide_row(grid, row, hidden))
    }

    /// Whether a column, by its number from 1, of the sheet at an index, from 0, is hidden.
    ///
    /// `InvalidSheet` exactly where no sheet stands at the index, then `InvalidColumn` where the column isn't 1 to 16,384.
    /// It takes no memory.
    pub fn is_column_hidden(&self, sheet: u32, column: i32) -> Result<bool, BookError>
        ensures does { DoesOnly layout_step (IsColumnHidden sheet column) bool_field
            result self.now self.now }
    {
        self.of_grid(sheet, |grid| hides_column(grid, column))
    }

    /// Whether a row, by its number from 1, of the sheet at an index, from 0, is hidden.
    ///
    /// `InvalidSheet` exactly where no sheet stands at the index, then `InvalidRow` where the row isn't 1 to 1,048,576. It
    /// takes no memory.
    pub fn is_row_hidden(&self, sheet: u32, row: i32) -> Result<bool, BookError>
        ensures does { DoesOnly layout_step (IsRowHidden sheet row) bool_field
            result self.now self.now }
    {
        self.of_grid(sheet, |grid| hides_row(grid, row))
    }
}
