//! Cells that a text names: by its sheet, the letters of its column and its row.
ghost use Rattle.std.specs.Prelude.{◌≡◌, chars, option_map};
ghost use Rattle.ic_machine.specs.Parsed.{parsed_reference};
ghost use Rattle.ic_machine.specs.subjects.Extending.{ParseReference, extending_step};
ghost use Rattle.ic_machine.specs.subjects.Reading.{GetCellValueByRef, reading_step, value_fields};
ghost use Rattle.ic_parts.specs.Book.{IsValidBook, core_of};
ghost use Rattle.ic_parts.specs.Does.{Does, DoesOnly};
ghost use Rattle.ic_parts.specs.References.{parsed_of, reference_fields};

use crate::{BookError, Model};
use ic_cells::CellValue;
use ic_laws::scan::front_of;
use ic_parts::references::{past_name, place_after};
use ic_refs::CellReferenceIndex;

impl<'a> Model<'a> {
    /// The cell that a text names, as `Sheet1!D40`: what stands before the first `!` agrees with the sheet's name,
    /// without quotes; then come the letters of the column, in upper case, and the digits of the row, after a `+` or
    /// without one. The sheet is an index from 0, the row and the column are from 1. None exactly where the text is no
    /// such thing, no sheet has the name, or the column or the row lies outside of a sheet. It takes no memory.
    pub fn parse_reference(&self, s: &str) -> Result<Option<CellReferenceIndex>, BookError>
        ensures does { DoesOnly extending_step (ParseReference (chars s.now)) reference_fields
            result self.now self.now }
    {
        Ok(self.parsed(s))
    }

    /// The value of the cell that a text names by `parse_reference`, as `get_cell_value_by_index` gives it.
    ///
    /// `BadReference` exactly where the text names none; `OutOfMemory` only where it names one.
    pub fn get_cell_value_by_ref(&self, cell_ref: &str) -> Result<CellValue, BookError>
        ensures does { Does reading_step (GetCellValueByRef (chars cell_ref.now)) value_fields
            result self.now self.now }
    {
        match self.parsed(cell_ref) {
            Some(cell) => self.get_cell_value_by_index(cell.sheet, cell.row, cell.column),
            None => Err(BookError::BadReference),
        }
    }

    /// The cell that a text names.
    fn parsed(&self, text: &str) -> Option<CellReferenceIndex>
        ensures parsed { option_map parsed_of result
            ≡ parsed_reference (core_of self.now.book) (chars text.now) }
        ensures valid { IsValidBook self.now.book }
    {
        let rest = past_name(text);
        let index = self
            .contents
            .sheets
            .index_of_name(&self.names.sheets, front_of(text, rest))?;
        place_after(index as u32, rest)
    }
}
