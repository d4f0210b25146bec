//! The styles of rows and columns, taken away.
ghost use Rattle.std.specs.Prelude.{◌≡◌};
ghost use Rattle.ic_machine.specs.subjects.Styles.{DeleteColumnStyle, DeleteRowStyle, style_step};
ghost use Rattle.ic_parts.specs.Does.{DoesOnly};
ghost use Rattle.ic_parts.specs.Fields.{no_fields};

use crate::{BookError, Model};
use ic_parts::lines::{free_column, free_row};

impl<'a> Model<'a> {
    /// Takes the style of a column, by its number from 1, of the sheet at an index, from 0, away, if one was set. Its width
    /// stays, and whether it is hidden.
    ///
    /// `InvalidSheet` exactly where no sheet stands at the index, then `InvalidColumn` where the column isn't 1 to 16,384;
    /// an error changes nothing. It takes no memory.
    pub fn delete_column_style(&mut self, sheet: u32, column: i32) -> Result<(), BookError>
        ensures does { DoesOnly style_step (DeleteColumnStyle sheet column) no_fields
            result self.old self.new }
        ensures looks_up { self.new.has_all ≡ self.old.has_all }
    {
        self.on_grid(sheet, |grid| free_column(grid, column))
    }

    /// Takes the style of a row, by its number from 1, of the sheet at an index, from 0, away, if one was set. Its height
    /// stays, and whether it is hidden.
    ///
    /// `InvalidSheet` exactly where no sheet stands at the index, then `InvalidRow` where the row isn't 1 to 1,048,576; an
    /// error changes nothing. It takes no memory.
    pub fn delete_row_style(&mut self, sheet: u32, row: i32) -> Result<(), BookError>
        ensures does { DoesOnly style_step (DeleteRowStyle sheet row) no_fields
            result self.old self.new }
        ensures looks_up { self.new.has_all ≡ self.old.has_all }
    {
        self.on_grid(sheet, |grid| free_row(grid, row))
    }
}
