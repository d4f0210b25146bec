//! A sheet as a table of texts.
ghost use Rattle.std.specs.Prelude.{◌≡◌, ◌<◌, ◌≤◌, ◌++◌, [], ◌∷◌, IfOk, OnOk, None, Some, chars, length, option_map, string_bytes, true};
ghost use Rattle.std.specs.FinMap as finite;
ghost use Rattle.std.specs.List.{join_by, range_with_len, slice_get};
ghost use Rattle.ic_cells.specs.Style.{style_at};
ghost use Rattle.ic_laws.specs.Character.{line_feed};
ghost use Rattle.ic_laws.specs.Lines.{escaped};
ghost use Rattle.ic_laws.specs.Position.{column_count, row_count};
ghost use Rattle.ic_machine.specs.subjects.Reading.{GetSheetMarkup, reading_step};
ghost use Rattle.ic_sheets.specs.Sheet.{sheet_of};
ghost use Rattle.ic_parts.specs.Does.{Does, DoesOnly};
ghost use Rattle.ic_parts.specs.Fields.{string_only};
ghost use Rattle.ic_parts.specs.Markup.{last_of, place_shown, plain_shown, row_behind, row_shown, sheet_shown, shows_bold};
ghost use Rattle.ic_parts.specs.Shown.{StandsIn};
ghost use Rattle.ic_book.specs.Markup.{markup_at, markup_fields};

use crate::{BookError, Model};
use ic_cells::Cell;
use ic_laws::scan::{push_char, push_text};
use ic_laws::{OutOfMemory, Text};
use ic_lines::{escape, push_escaped};
use ic_parts::content::formula_in;
use ic_parts::markup::{ROW_BEHIND, is_blank_row, last_of, push_marked, separators_in};
use ic_sheets::Sheet;
use ic_words::Fields;

/// A sheet of a book, by its index from 0, as a table that is written into a reply row by row.
#[derive(Drop)]
pub struct Markup<'m, 'a> {
    model: &'m Model<'a>,
    sheet: u32,
}

impl Fields for Markup<'_, '_> {
    ghost fields = { λ m. markup_fields m.model.now.book m.sheet };

    ghost memory = { true };

    fn write(&self, reply: &mut String) -> Result<(), OutOfMemory> {
        push_char(reply, '\t')?;
        self.model.push_word_at(reply, self.sheet)
    }
}

impl<'a> Model<'a> {
    /// The sheet at an index, from 0, as a table: the cells of a row with `|` between them, and the rows with line feeds, up
    /// to the last row and the last column that hold a cell, which are the first ones where none does. A cell is its formula
    /// as `get_cell_formula` shows it, or else its value as `get_formatted_cell_value` does; between `**` where its style is
    /// bold.
    ///
    /// `InvalidSheet` exactly where no sheet stands at the index; `OutOfMemory` only where one does.
    pub fn get_sheet_markup(&self, sheet: u32) -> Result<String, BookError>
        ensures does { Does reading_step (GetSheetMarkup sheet) string_only
            result self.now self.now }
    {
        // What always holds of a model is known from here on.
        let _ = &self.contents;
        let worksheet = self.sheet_at(sheet)?;
        Ok(self.markup(worksheet)?)
    }

    /// The same table, to be written into a reply. It takes no memory itself.
    pub fn sheet_markup(&self, sheet: u32) -> Result<Markup<'_, 'a>, BookError>
        ensures does { DoesOnly reading_step (GetSheetMarkup sheet)
            (λ m. markup_fields m.model.now.book m.sheet) result self.now self.now }
    {
        // What always holds of a model is known from here on.
        let _ = &self.contents;
        let _ = self.sheet_at(sheet)?;
        Ok(Markup { model: self, sheet })
    }

    /// A sheet of the book as a table.
    fn markup(&self, worksheet: &Sheet) -> Result<String, OutOfMemory>
        requires { StandsIn (sheet_of worksheet.now) self.now.book }
        ensures { IfOk result (λ s. chars (string_bytes s)
            ≡ sheet_shown self.now.book (sheet_of worksheet.now)) }
    {
        // What always holds of a model is known from here on.
        let _ = &self.contents;
        let (rows, columns) = last_of(worksheet.grid.cells.as_map());
        let blank = self.row_text(worksheet, ROW_BEHIND, columns)?;
        let mut text = String::with_capacity(self.alloc, separators_in(rows, columns))?;
        self.push_rows(&mut text, worksheet, rows, columns, blank.as_str())?;
        Ok(text)
    }

    /// What is shown of a row up to this column. Each row in which no cell stands and that has no style shows what the one
    /// behind the sheet does.
    fn row_text(&self, worksheet: &Sheet, row: u32, columns: u32) -> Result<String, OutOfMemory>
        requires stands { StandsIn (sheet_of worksheet.now) self.now.book }
        requires row { row ≤ row_behind }
        requires columns { (1 ≤ columns) × (columns ≤ column_count) }
        ensures { IfOk result (λ s. chars (string_bytes s)
            ≡ row_shown self.now.book (sheet_of worksheet.now) columns row) }
    {
        let mut text = String::new(self.alloc);
        self.push_row_places(&mut text, worksheet, row, columns)?;
        Ok(text)
    }

    /// The sheet at an index, from 0, if there is one.
    fn sheet_there(&self, sheet: u32) -> Option<&Sheet>
        ensures { option_map (λ s. sheet_of s.now) result ≡ slice_get self.now.book.sheets sheet }
    {
        self.sheet_at(sheet).ok()
    }

    /// Appends the sheet at an index as a table, as it is written in a word; nothing where there is none.
    fn push_word_at(&self, text: &mut String, sheet: u32) -> Result<(), OutOfMemory>
        ensures { OnOk result (chars (string_bytes text.new) ≡ chars (string_bytes text.old)
            ++ escaped (markup_at self.now.book sheet)) }
    {
        match self.sheet_there(sheet) {
            Some(worksheet) => self.push_word(text, worksheet),
            None => Ok(()),
        }
    }

    /// Appends a sheet of the book as a table, as it is written in a word.
    fn push_word(&self, text: &mut String, worksheet: &Sheet) -> Result<(), OutOfMemory>
        requires { StandsIn (sheet_of worksheet.now) self.now.book }
        ensures { OnOk result (chars (string_bytes text.new) ≡ chars (string_bytes text.old)
            ++ escaped (sheet_shown self.now.book (sheet_of worksheet.now))) }
    {
        // What always holds of a model is known from here on.
        let _ = &self.contents;
        let (rows, columns) = last_of(worksheet.grid.cells.as_map());
        let blank = self.row_word(worksheet, ROW_BEHIND, columns)?;
        // A line feed takes two bytes there.
        text.reserve(separators_in(rows, columns + 1))?;
        self.push_row_words(text, worksheet, rows, columns, blank.as_str())
    }

    /// What is shown of a row up to this column, as it is written in a word.
    fn row_word(&self, worksheet: &Sheet, row: u32, columns: u32) -> Result<Text, OutOfMemory>
        requires stands { StandsIn (sheet_of worksheet.now) self.now.book }
        requires row { row ≤ row_behind }
        requires columns { (1 ≤ columns) × (columns ≤ column_count) }
        ensures { IfOk result (λ word. word
            ≡ escaped (row_shown self.now.book (sheet_of worksheet.now) columns row)) }
    {
        let shown = self.row_text(worksheet, row, columns)?;
        escape(self.alloc, shown.as_str())
    }

    /// Appends the rows of a sheet up to this row and this column as they are written in a word, given how one is that is
    /// blank.
    fn push_row_words(
        &self,
        text: &mut String,
        worksheet: &Sheet,
        rows: u32,
        columns: u32,
        blank: &str,
    ) -> Result<(), OutOfMemory>
        requires stands { StandsIn (sheet_of worksheet.now) self.now.book }
        requires rows { (1 ≤ rows) × (rows ≤ row_count) }
        requires columns { (1 ≤ columns) × (columns ≤ column_count) }
        requires blank { chars blank.now
            ≡ escaped (row_shown self.now.book (sheet_of worksheet.now) columns row_behind) }
        ensures { OnOk result (chars (string_bytes text.new) ≡ chars (string_bytes text.old)
            ++ escaped (join_by (row_shown self.now.book (sheet_of worksheet.now) columns)
            (line_feed ∷ []) (range_with_len 1 rows))) }
    {
        self.push_row_word(text, worksheet, 1, columns, blank)?;
        let mut row = 1;
        'rows: while row < rows {
            row += 1;
            push_text(text, "\\n")?;
            self.push_row_word(text, worksheet, row, columns, blank)?;
        }
        Ok(())
    }

    /// Appends a row of a sheet up to this column as it is written in a word, given how one is that is blank.
    fn push_row_word(
        &self,
        text: &mut String,
        worksheet: &Sheet,
        row: u32,
        columns: u32,
        blank: &str,
    ) -> Result<(), OutOfMemory>
        requires stands { StandsIn (sheet_of worksheet.now) self.now.book }
        requires row { row ≤ row_count }
        requires columns { (1 ≤ columns) × (columns ≤ column_count) }
        requires blank { chars blank.now
            ≡ escaped (row_shown self.now.book (sheet_of worksheet.now) columns row_behind) }
        ensures { OnOk result (chars (string_bytes text.new) ≡ chars (string_bytes text.old)
            ++ escaped (row_shown self.now.book (sheet_of worksheet.now) columns row)) }
    {
        // What always holds of a model is known from here on.
        let _ = &self.contents;
        if is_blank_row(&worksheet.grid, row as i32) {
            return push_text(text, blank);
        }
        let shown = self.row_text(worksheet, row, columns)?;
        push_escaped(text, shown.as_str())
    }

    /// Appends the rows of a sheet up to this row and this column, given what is shown of one that is blank.
    fn push_rows(
        &self,
        text: &mut String,
        worksheet: &Sheet,
        rows: u32,
        columns: u32,
        blank: &str,
    ) -> Result<(), OutOfMemory>
        requires stands { StandsIn (sheet_of worksheet.now) self.now.book }
        requires rows { (1 ≤ rows) × (rows ≤ row_count) }
        requires columns { (1 ≤ columns) × (columns ≤ column_count) }
        requires blank { chars blank.now
            ≡ row_shown self.now.book (sheet_of worksheet.now) columns row_behind }
        ensures { OnOk result (chars (string_bytes text.new) ≡ chars (string_bytes text.old)
            ++ join_by (row_shown self.now.book (sheet_of worksheet.now) columns)
            (line_feed ∷ []) (range_with_len 1 rows)) }
    {
        self.push_row(text, worksheet, 1, columns, blank)?;
        let mut row = 1;
        'rows: while row < rows {
            row += 1;
            push_char(text, '\n')?;
            self.push_row(text, worksheet, row, columns, blank)?;
        }
        Ok(())
    }

    /// Appends a row of a sheet up to this column, given what is shown of one that is blank.
    fn push_row(
        &self,
        text: &mut String,
        worksheet: &Sheet,
        row: u32,
        columns: u32,
        blank: &str,
    ) -> Result<(), OutOfMemory>
        requires stands { StandsIn (sheet_of worksheet.now) self.now.book }
        requires row { row ≤ row_count }
        requires columns { (1 ≤ columns) × (columns ≤ column_count) }
        requires blank { chars blank.now
            ≡ row_shown self.now.book (sheet_of worksheet.now) columns row_behind }
        ensures { OnOk result (chars (string_bytes text.new) ≡ chars (string_bytes text.old)
            ++ row_shown self.now.book (sheet_of worksheet.now) columns row) }
    {
        // What always holds of a model is known from here on.
        let _ = &self.contents;
        if is_blank_row(&worksheet.grid, row as i32) {
            return push_text(text, blank);
        }
        self.push_row_places(text, worksheet, row, columns)
    }

    /// Appends the places of a row up to this column.
    fn push_row_places(
        &self,
        text: &mut String,
        worksheet: &Sheet,
        row: u32,
        columns: u32,
    ) -> Result<(), OutOfMemory>
        requires stands { StandsIn (sheet_of worksheet.now) self.now.book }
        requires row { row ≤ row_behind }
        requires columns { (1 ≤ columns) × (columns ≤ column_count) }
        ensures { OnOk result (chars (string_bytes text.new) ≡ chars (string_bytes text.old)
            ++ row_shown self.now.book (sheet_of worksheet.now) columns row) }
    {
        self.push_place(text, worksheet, row as i32, 1)?;
        let mut column = 1;
        'columns: while column < columns {
            column += 1;
            push_char(text, '|')?;
            self.push_place(text, worksheet, row as i32, column as i32)?;
        }
        Ok(())
    }

    /// Appends what is shown of a place of a sheet.
    fn push_place(
        &self,
        text: &mut String,
        worksheet: &Sheet,
        row: i32,
        column: i32,
    ) -> Result<(), OutOfMemory>
        requires { StandsIn (sheet_of worksheet.now) self.now.book }
        ensures { OnOk result (chars (string_bytes text.new) ≡ chars (string_bytes text.old)
            ++ place_shown self.now.book (sheet_of worksheet.now) row column) }
    {
        let shown = self.plain_in(worksheet, row, column)?;
        push_marked(text, shown.as_str(), self.is_bold(worksheet, row, column))
    }

    /// What is shown of a place of a sheet, without stars.
    fn plain_in(&self, worksheet: &Sheet, row: i32, column: i32) -> Result<String, OutOfMemory>
        requires { StandsIn (sheet_of worksheet.now) self.now.book }
        ensures { IfOk result (λ s. chars (string_bytes s)
            ≡ plain_shown self.now.book (sheet_of worksheet.now) (row, column)) }
    {
        // What always holds of a model is known from here on.
        let _ = &self.contents;
        match worksheet.grid.cells.get(row, column) {
            Some(cell) => self.cell_plain(worksheet, row, column, cell),
            None => Ok(String::new(self.alloc)),
        }
    }

    /// The same of the cell that stands there.
    fn cell_plain(
        &self,
        worksheet: &Sheet,
        row: i32,
        column: i32,
        cell: &Cell,
    ) -> Result<String, OutOfMemory>
        requires stands { StandsIn (sheet_of worksheet.now) self.now.book }
        requires there { finite.get worksheet.now.grid.cells (row, column) ≡ Some cell.now }
        ensures { IfOk result (λ s. chars (string_bytes s)
            ≡ plain_shown self.now.book (sheet_of worksheet.now) (row, column)) }
    {
        // What always holds of a model is known from here on.
        let _ = &self.contents;
        match formula_in(worksheet, cell) {
            Some(formula) => self.show(row, column, formula),
            None => self.formatted(cell),
        }
    }

    /// Whether a place of a sheet shows a bold style.
    fn is_bold(&self, worksheet: &Sheet, row: i32, column: i32) -> bool
        requires { StandsIn (sheet_of worksheet.now) self.now.book }
        ensures { result ≡ shows_bold self.now.book (sheet_of worksheet.now) (row, column) }
    {
        // What always holds of a model is known from here on.
        let _ = &self.contents;
        self.bold_at(worksheet.grid.style_at(row, column))
    }

    /// Whether the style of a number is bold.
    fn bold_at(&self, number: usize) -> bool
        requires { number < length self.now.book.styles }
        ensures { result ≡ (style_at self.now.book.styles number).bold }
    {
        match self.lists.styles.get_style(number) {
            Some(style) => style.bold,
            None => unreachable!(),
        }
    }
}
