//! What cells show: so that it can be typed again, and by their formats.
ghost use Rattle.std.specs.Prelude.{◌≡◌, ◌<◌, IfOk, Some, chars, length, option_map, string_bytes};
ghost use Rattle.std.specs.FinMap as finite;
ghost use Rattle.ic_cells.specs.Cell.{style_of};
ghost use Rattle.ic_input.specs.Typed.{needs_quoting};
ghost use Rattle.ic_machine.specs.InForce.{formatted_in, is_number, is_text, shown_number, shown_words, typed_in};
ghost use Rattle.ic_machine.specs.subjects.Reading.{GetFormattedCellValue, GetLocalizedCellContent, reading_step};
ghost use Rattle.ic_sheets.specs.Sheet.{sheet_of};
ghost use Rattle.ic_parts.specs.Does.{Does};
ghost use Rattle.ic_parts.specs.Fields.{string_only};
ghost use Rattle.ic_parts.specs.Shown.{StandsIn, cell_formatted, code_at, content_formatted, content_shown, date_shown, localized, number_kept, text_kept, value_shown};
ghost use Rattle.ic_parts.specs.Whole.{whole_of};

use crate::{BookError, Model};
use ic_cells::Cell;
use ic_input::{amount_text, format_amount, is_date_code, value_needs_quoting};
use ic_laws::scan::is_nothing;
use ic_laws::{Amount, OutOfMemory};
use ic_parts::content::{formula_in, is_number, is_text, number_kept, text_kept};
use ic_parts::formulas::after_sign;
use ic_sheets::Sheet;

impl<'a> Model<'a> {
    /// What is shown of the cell at a row and a column, both from 1, of the sheet at an index, from 0, so that typing it
    /// there gives the same: a formula as `get_cell_formula` shows it; a number as its shortest decimal, or as its date
    /// where its code is one of dates and that date, typed, is the number; the word of a boolean or an error value in the
    /// language in force; a text, with a quote before it where it would be something else without one. Nothing of a cell
    /// that is empty or isn't there, also outside the sheet.
    ///
    /// `InvalidSheet` exactly where no sheet stands at the index; `OutOfMemory` only where one does.
    pub fn get_localized_cell_content(
        &self,
        sheet: u32,
        row: i32,
        column: i32,
    ) -> Result<String, BookError>
        ensures does { Does reading_step (GetLocalizedCellContent sheet row column) string_only
            result self.now self.now }
    {
        // What always holds of a model is known from here on.
        let _ = &self.contents;
        let worksheet = self.sheet_at(sheet)?;
        Ok(self.content_in(worksheet, row, column)?)
    }

    /// The value of the cell at a row and a column, both from 1, of the sheet at an index, from 0, as its format shows it:
    /// a number by the code of its style; the word of a boolean or an error value in the language in force, `#ERROR!` for
    /// a formula without a value; a text as it is. Nothing of a cell that is empty or isn't there, also outside the sheet.
    ///
    /// `InvalidSheet` exactly where no sheet stands at the index; `OutOfMemory` only where one does.
    pub fn get_formatted_cell_value(
        &self,
        sheet: u32,
        row: i32,
        column: i32,
    ) -> Result<String, BookError>
        ensures does { Does reading_step (GetFormattedCellValue sheet row column) string_only
            result self.now self.now }
    {
        // What always holds of a model is known from here on.
        let _ = &self.contents;
        let worksheet = self.sheet_at(sheet)?;
        Ok(self.formatted_in(worksheet, row, column)?)
    }

    /// What is shown of a place of a sheet of the book.
    fn content_in(&self, worksheet: &Sheet, row: i32, column: i32) -> Result<String, OutOfMemory>
        requires { StandsIn (sheet_of worksheet.now) self.now.book }
        ensures { IfOk result (λ s. chars (string_bytes s)
            ≡ content_shown self.now.book (sheet_of worksheet.now) (row, column)) }
    {
        // What always holds of a model is known from here on.
        let _ = &self.contents;
        match worksheet.grid.cells.get(row, column) {
            Some(cell) => self.cell_shown(worksheet, row, column, cell),
            None => Ok(String::new(self.alloc)),
        }
    }

    /// What is shown of the cell at a place of a sheet of the book.
    fn cell_shown(
        &self,
        worksheet: &Sheet,
        row: i32,
        column: i32,
        cell: &Cell,
    ) -> Result<String, OutOfMemory>
        requires stands { StandsIn (sheet_of worksheet.now) self.now.book }
        requires there { finite.get worksheet.now.grid.cells (row, column) ≡ Some cell.now }
        ensures { IfOk result (λ s. chars (string_bytes s)
            ≡ content_shown self.now.book (sheet_of worksheet.now) (row, column)) }
    {
        // What always holds of a model is known from here on.
        let _ = &self.contents;
        match formula_in(worksheet, cell) {
            Some(formula) => self.show(row, column, formula),
            None => self.value_shown(cell),
        }
    }

    /// What its format shows of a place of a sheet of the book.
    fn formatted_in(&self, worksheet: &Sheet, row: i32, column: i32) -> Result<String, OutOfMemory>
        requires { StandsIn (sheet_of worksheet.now) self.now.book }
        ensures { IfOk result (λ s. chars (string_bytes s)
            ≡ content_formatted self.now.book (sheet_of worksheet.now) (row, column)) }
    {
        // What always holds of a model is known from here on.
        let _ = &self.contents;
        match worksheet.grid.cells.get(row, column) {
            Some(cell) => self.formatted(cell),
            None => Ok(String::new(self.alloc)),
        }
    }

    /// What is shown of a cell without a formula.
    fn value_shown(&self, cell: &Cell) -> Result<String, OutOfMemory>
        requires { style_of cell.now < length self.now.book.styles }
        ensures { IfOk result (λ s. chars (string_bytes s)
            ≡ value_shown self.now.book cell.now) }
    {
        if let Some(text) = text_kept(cell, self.lists.strings.as_items().as_slice()) {
            return self.words_shown(text);
        }
        match number_kept(cell) {
            Some(amount) => self.number_shown(self.code_at(cell.get_style()), amount),
            None => self.localized(cell),
        }
    }

    /// A cell as its format shows it.
    pub(crate) fn formatted(&self, cell: &Cell) -> Result<String, OutOfMemory>
        requires { style_of cell.now < length self.now.book.styles }
        ensures { IfOk result (λ s. chars (string_bytes s)
            ≡ cell_formatted self.now.book cell.now) }
    {
        match number_kept(cell) {
            Some(amount) => self.number_formatted(self.code_at(cell.get_style()), amount),
            None => self.localized(cell),
        }
    }

    /// The text of a cell's value in the notation in force.
    fn localized(&self, cell: &Cell) -> Result<String, OutOfMemory>
        ensures { IfOk result (λ s. chars (string_bytes s) ≡ localized self.now.book cell.now) }
    {
        let strings = self.lists.strings.as_items();
        cell.get_localized_text(
            self.alloc,
            strings,
            &self.notation.locale().locale,
            self.notation.language(),
        )
    }

    /// The code of the style of a number.
    fn code_at(&self, number: usize) -> &str
        requires { number < length self.now.book.styles }
        ensures { chars result.now ≡ code_at self.now.book number }
    {
        match self.lists.styles.get_style(number) {
            Some(style) => style.num_fmt.as_str(),
            None => unreachable!(),
        }
    }

    /// A number by a code.
    fn number_formatted(&self, code: &str, amount: Amount) -> Result<String, OutOfMemory>
        ensures { IfOk result (λ s. chars (string_bytes s)
            ≡ formatted_in (whole_of self.now.book) (chars code.now) amount) }
    {
        format_amount(self.alloc, amount, code, &self.notation.locale().locale)
    }

    /// A number so that it can be typed again: by its date, or as its shortest decimal.
    fn number_shown(&self, code: &str, amount: Amount) -> Result<String, OutOfMemory>
        ensures { IfOk result (λ s. chars (string_bytes s)
            ≡ shown_number (whole_of self.now.book) (chars code.now) amount) }
    {
        match self.date_shown(code, amount)? {
            Some(date) => Ok(date),
            None => amount_text(
                self.alloc,
                amount,
                self.notation.locale().locale.decimal_separator(),
            ),
        }
    }

    /// A number by a code of dates, where that, typed, is the number.
    fn date_shown(&self, code: &str, amount: Amount) -> Result<Option<String>, OutOfMemory>
        ensures { IfOk result (λ o. option_map (λ s. chars (string_bytes s)) o
            ≡ date_shown (whole_of self.now.book) (chars code.now) amount) }
    {
        if !is_date_code(code) {
            return Ok(None);
        }
        let date = self.number_formatted(code, amount)?;
        match self.is_typed_as(date.as_str(), amount) {
            Ok(true) => Ok(Some(date)),
            Ok(false) => Ok(None),
            Err(error) => Err(error),
        }
    }

    /// A text so that it can be typed again: with a quote before it where it would be something else without one.
    fn words_shown(&self, text: &str) -> Result<String, OutOfMemory>
        ensures { IfOk result (λ s. chars (string_bytes s)
            ≡ shown_words (whole_of self.now.book) (chars text.now)) }
    {
        if self.is_typed_text(text)? {
            return after_sign(self.alloc, "", text);
        }
        after_sign(self.alloc, "'", text)
    }

    /// Whether a text is typed as this number.
    fn is_typed_as(&self, text: &str, amount: Amount) -> Result<bool, OutOfMemory>
        ensures { IfOk result (λ b. b
            ≡ is_number amount (typed_in (whole_of self.now.book) (chars text.now))) }
    {
        Ok(is_number(&self.typed(text)?, amount))
    }

    /// Whether a text is typed as a text.
    fn is_typed_text(&self, text: &str) -> Result<bool, OutOfMemory>
        ensures { IfOk result (λ b. b
            ≡ is_text (typed_in (whole_of self.now.book) (chars text.now))) }
    {
        // What always holds of a model is known from here on.
        let _ = &self.contents;
        if self.needs_quoting(text)? {
            return Ok(is_text(&self.typed(text)?));
        }
        Ok(!is_nothing(text))
    }

    /// Whether a text has to be typed after a quote to stay a text.
    fn needs_quoting(&self, text: &str) -> Result<bool, OutOfMemory>
        ensures { IfOk result (λ b. b ≡ needs_quoting (chars text.now)
            (typed_in (whole_of self.now.book) (chars text.now))) }
    {
        let english = self.notation.get_default_language();
        value_needs_quoting(
            self.alloc,
            text,
            &self.notation.locale().locale,
            self.notation.language(),
            english,
        )
    }
}
