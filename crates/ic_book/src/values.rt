//! Values that are written into cells.
ghost use Rattle.std.specs.Prelude.{◌≡◌, ◌<◌, IfOk, None, Some, false};
ghost use Rattle.ic_machine.specs.subjects.Writing.{UpdateCellWithBool, UpdateCellWithNumber, writing_step};
ghost use Rattle.ic_parts.specs.Book.{IsValidBook};
ghost use Rattle.ic_parts.specs.Does.{Does, DoesStep, Wanted};
ghost use Rattle.ic_parts.specs.Fields.{no_fields};
ghost use Rattle.ic_parts.specs.Refused.{TellsOnly};
ghost use Rattle.ic_parts.specs.Values.{Shows, put_step, style_change, value_content, value_refusal};
ghost use Rattle.ic_parts.specs.Whole.{whole_of};

use crate::{BookError, Model};
use ic_laws::Amount;
use ic_parts::values::{Restyle, Value, new_cell, style_in};

impl<'a> Model<'a> {
    /// Writes a boolean into the cell at a row and a column, both from 1, of the sheet at an index, from 0. The array that
    /// the cell belongs to is released; the cell keeps the style that it shows, without its quote flag.
    ///
    /// `InvalidSheet`, `InvalidRow`, `InvalidColumn`, `MergedPart` (merged cells cover the cell), `ArrayPart` (it belongs to
    /// a Cse array of more than one cell), in this order, each exactly where it holds; `OutOfMemory` only where none of them
    /// does. An error changes nothing.
    pub fn update_cell_with_bool(
        &mut self,
        sheet: u32,
        row: i32,
        column: i32,
        value: bool,
    ) -> Result<(), BookError>
        ensures does { Does writing_step (UpdateCellWithBool sheet row column value) no_fields
            result self.old self.new }
        ensures looks_up { self.new.has_all ≡ self.old.has_all }
    {
        let value = Value::Boolean(value);
        let change = Restyle::Quote(false);
        self.write_value(sheet, row, column, &value, &change)
    }

    /// Writes a number into the cell at a row and a column, both from 1, of the sheet at an index, from 0. The array that
    /// the cell belongs to is released; the cell keeps the style that it shows, without its quote flag.
    ///
    /// `InvalidSheet`, `InvalidRow`, `InvalidColumn`, `MergedPart` (merged cells cover the cell), `ArrayPart` (it belongs to
    /// a Cse array of more than one cell), in this order, each exactly where it holds; `OutOfMemory` only where none of them
    /// does. An error changes nothing.
    pub fn update_cell_with_number(
        &mut self,
        sheet: u32,
        row: i32,
        column: i32,
        value: Amount,
    ) -> Result<(), BookError>
        ensures does { Does writing_step (UpdateCellWithNumber sheet row column value) no_fields
            result self.old self.new }
        ensures looks_up { self.new.has_all ≡ self.old.has_all }
    {
        let value = Value::Number(value);
        let change = Restyle::Quote(false);
        self.write_value(sheet, row, column, &value, &change)
    }

    /// Writes a value into a cell, whose style is changed.
    pub(crate) fn write_value(
        &mut self,
        sheet: u32,
        row: i32,
        column: i32,
        value: &Value<'_>,
        change: &Restyle<'_>,
    ) -> Result<(), BookError>
        ensures does { DoesStep Wanted
            (put_step (whole_of self.old.book) sheet row column (style_change change.now)
            (value_content value.now)) no_fields result self.old self.new }
        ensures looks_up { self.new.has_all ≡ self.old.has_all }
    {
        let shown = self.style_to_write(sheet, row, column)?;
        self.put_value(sheet, row, column, value, change, shown)
    }

    /// Writes a value into a cell that may be written, given the number of the style that it shows (`style_to_write`), which
    /// is changed.
    pub(crate) fn put_value(
        &mut self,
        sheet: u32,
        row: i32,
        column: i32,
        value: &Value<'_>,
        change: &Restyle<'_>,
        shown: usize,
    ) -> Result<(), BookError>
        requires shows { Shows self.old.book sheet row column shown }
        requires allowed { value_refusal self.old.book sheet row column ≡ None }
        ensures does { DoesStep Wanted
            (put_step (whole_of self.old.book) sheet row column (style_change change.now)
            (value_content value.now)) no_fields result self.old self.new }
        ensures looks_up { self.new.has_all ≡ self.old.has_all }
    {
        let count = self.lists.styles.len();
        let texts = self.lists.strings.len();
        let cell = new_cell(self.alloc, &mut self.lists, shown, value, change)?;
        match self
            .contents
            .sheets
            .write_cell(sheet as usize, row, column, cell)
        {
            Ok(()) => Ok(()),
            Err(error) => {
                self.lists.styles.truncate(count);
                self.lists.strings.truncate(texts);
                Err(BookError::from(error))
            }
        }
    }

    /// The number of the style that a cell shows which may be written.
    pub(crate) fn style_to_write(
        &self,
        sheet: u32,
        row: i32,
        column: i32,
    ) -> Result<usize, BookError>
        ensures shows { IfOk result (λ n. Shows self.now.book sheet row column n) }
        ensures refused { TellsOnly result (value_refusal self.now.book sheet row column) }
        ensures valid { IsValidBook self.now.book }
    {
        match self.contents.sheets.get(sheet as usize) {
            Some(sheet) => style_in(&sheet.grid, row, column),
            None => Err(BookError::InvalidSheet),
        }
    }
}
