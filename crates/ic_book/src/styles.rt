//! The styles of cells, rows and columns.
ghost use Rattle.std.specs.Prelude.{◌≡◌};
ghost use Rattle.ic_machine.specs.Fields.{optional_style_fields};
ghost use Rattle.ic_machine.specs.Reply.{number_field};
ghost use Rattle.ic_machine.specs.Styling.{style_fields};
ghost use Rattle.ic_machine.specs.subjects.Styles.{GetCellStyleIndex, GetCellStyleOrNone, GetColumnStyle, GetRowStyle, GetStyleForCell, SetColumnStyle, SetRowStyle, style_step};
ghost use Rattle.ic_parts.specs.Does.{Does, DoesOnly, DoesStep, Wanted};
ghost use Rattle.ic_parts.specs.Fields.{no_fields};
ghost use Rattle.ic_parts.specs.Styled.{line_style_step, set_line_step};
ghost use Rattle.ic_parts.specs.Whole.{whole_of};

use crate::{BookError, Model};
use ic_cells::Style;
use ic_parts::styled::{Line, check_line, copy_if_set, copy_of, line_style, own_style, style_line};

impl<'a> Model<'a> {
    /// The number, from 0, of the style that is shown at a row and a column, both from 1, of the sheet at an index, from 0:
    /// its cell's, else its row's, else its column's, else 0. The place may lie outside of the sheet.
    ///
    /// `InvalidSheet` exactly where no sheet stands at the index. It takes no memory.
    pub fn get_cell_style_index(
        &self,
        sheet: u32,
        row: i32,
        column: i32,
    ) -> Result<usize, BookError>
        ensures does { DoesOnly style_step (GetCellStyleIndex sheet row column) number_field
            result self.now self.now }
    {
        // What always holds of a model is known from here on.
        let _ = &self.contents;
        let worksheet = self.sheet_at(sheet)?;
        Ok(worksheet.grid.style_at(row, column))
    }

    /// The style that is shown at a row and a column, both from 1, of the sheet at an index, from 0: its cell's, else its
    /// row's, else its column's, else the default one. The place may lie outside of the sheet.
    ///
    /// `InvalidSheet` exactly where no sheet stands at the index; `OutOfMemory` only where one does.
    pub fn get_style_for_cell(&self, sheet: u32, row: i32, column: i32) -> Result<Style, BookError>
        ensures does { Does style_step (GetStyleForCell sheet row column) style_fields
            result self.now self.now }
    {
        let styles = &self.lists.styles;
        let worksheet = self.sheet_at(sheet)?;
        let number = worksheet.grid.style_at(row, column);
        Ok(copy_of(styles, self.alloc, number)?)
    }

    /// The style of the cell at a row and a column, both from 1, of the sheet at an index, from 0. None exactly where no
    /// cell is there, also outside of the sheet.
    ///
    /// `InvalidSheet` exactly where no sheet stands at the index; `OutOfMemory` only where one does.
    pub fn get_cell_style_or_none(
        &self,
        sheet: u32,
        row: i32,
        column: i32,
    ) -> Result<Option<Style>, BookError>
        ensures does { Does style_step (GetCellStyleOrNone sheet row column) optional_style_fields
            result self.now self.now }
    {
        let styles = &self.lists.styles;
        let worksheet = self.sheet_at(sheet)?;
        let number = own_style(&worksheet.grid, row, column);
        Ok(copy_if_set(styles, self.alloc, number)?)
    }

    /// Gives a column, from 1, of the sheet at an index, from 0, a style. Its cells keep theirs.
    ///
    /// `InvalidSheet` exactly where no sheet stands at the index, then `InvalidColumn` where the column isn't 1 to 16,384;
    /// `OutOfMemory` only where neither holds. An error changes nothing.
    pub fn set_column_style(
        &mut self,
        sheet: u32,
        column: i32,
        style: &Style,
    ) -> Result<(), BookError>
        ensures does { Does style_step (SetColumnStyle sheet column style.now) no_fields
            result self.old self.new }
        ensures looks_up { self.new.has_all ≡ self.old.has_all }
    {
        self.give_style(sheet, Line::Column(column), style)
    }

    /// Gives a row, from 1, of the sheet at an index, from 0, a style. Its cells keep theirs.
    ///
    /// `InvalidSheet` exactly where no sheet stands at the index, then `InvalidRow` where the row isn't 1 to 1,048,576;
    /// `OutOfMemory` only where neither holds. An error changes nothing.
    pub fn set_row_style(&mut self, sheet: u32, row: i32, style: &Style) -> Result<(), BookError>
        ensures does { Does style_step (SetRowStyle sheet row style.now) no_fields
            result self.old self.new }
        ensures looks_up { self.new.has_all ≡ self.old.has_all }
    {
        self.give_style(sheet, Line::Row(row), style)
    }

    /// The style that was set for a column, from 1, of the sheet at an index, from 0. None exactly where none was.
    ///
    /// `InvalidSheet` exactly where no sheet stands at the index, then `InvalidColumn` where the column isn't 1 to 16,384;
    /// `OutOfMemory` only where neither holds.
    pub fn get_column_style(&self, sheet: u32, column: i32) -> Result<Option<Style>, BookError>
        ensures does { Does style_step (GetColumnStyle sheet column) optional_style_fields
            result self.now self.now }
    {
        self.style_set_for(sheet, Line::Column(column))
    }

    /// The style that was set for a row, from 1, of the sheet at an index, from 0. None exactly where none was.
    ///
    /// `InvalidSheet` exactly where no sheet stands at the index, then `InvalidRow` where the row isn't 1 to 1,048,576;
    /// `OutOfMemory` only where neither holds.
    pub fn get_row_style(&self, sheet: u32, row: i32) -> Result<Option<Style>, BookError>
        ensures does { Does style_step (GetRowStyle sheet row) optional_style_fields
            result self.now self.now }
    {
        self.style_set_for(sheet, Line::Row(row))
    }

    /// Gives a row or a column of a sheet a style.
    fn give_style(&mut self, sheet: u32, line: Line, style: &Style) -> Result<(), BookError>
        ensures does { DoesStep Wanted
            (set_line_step sheet line style.now (whole_of self.old.book)) no_fields
            result self.old self.new }
        ensures looks_up { self.new.has_all ≡ self.old.has_all }
    {
        if sheet as usize >= self.contents.sheets.len() {
            return Err(BookError::InvalidSheet);
        }
        check_line(line)?;
        let count = self.lists.styles.len();
        let number = self.lists.styles.get_style_index_or_create(style)?;
        match self
            .contents
            .sheets
            .change_grid(sheet as usize, |grid| style_line(grid, line, number))
        {
            Ok(()) => Ok(()),
            Err(error) => {
                self.lists.styles.truncate(count);
                Err(BookError::from(error))
            }
        }
    }

    /// The style that was set for a row or a column of a sheet.
    fn style_set_for(&self, sheet: u32, line: Line) -> Result<Option<Style>, BookError>
        ensures does { DoesStep Wanted (line_style_step sheet line (whole_of self.now.book))
            optional_style_fields result self.now self.now }
    {
        let styles = &self.lists.styles;
        let worksheet = self.sheet_at(sheet)?;
        check_line(line)?;
        let number = line_style(&worksheet.grid, line);
        Ok(copy_if_set(styles, self.alloc, number)?)
    }
}
