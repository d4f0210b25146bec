//! What a book lends to those who go over its formulas, and what its sheets and definitions are.
ghost use Rattle.std.specs.Prelude.{◌≡◌, ◌∷◌, [], IfOk, Some, chars, map, nat_eq, option_map, position, string_bytes};
ghost use Rattle.std.specs.List.{slice_get};
ghost use Rattle.ic_laws.specs.Character.{equals};
ghost use Rattle.ic_laws.specs.CoreStep.{formula_of, lacks_sheet};
ghost use Rattle.ic_laws.specs.Refusal as core;
ghost use Rattle.ic_laws.specs.Refusal.{InvalidSheet};
ghost use Rattle.ic_parts.specs.Book.{core_of, scene_in};
ghost use Rattle.ic_parts.specs.Lent.{placed};
ghost use Rattle.ic_parts.specs.Refused.{Refuses, RefusesOnly};
ghost use Rattle.ic_parts.specs.Translated.{shown_in};
ghost use Rattle.ic_parts.specs.Whole.{whole_of};
ghost use Rattle.ic_workbooks.specs.Workbook.{defined_name_of};

use crate::{BookError, Model, Notation};
use ic_cells::DefinedName;
use ic_laws::{Formula, OutOfMemory, SheetName};
use ic_parts::PlacedFormula;
use ic_parts::formulas::formula_at;
use ic_parts::lent::{formulas_of, names_of};

impl<'a> Model<'a> {
    /// The formula in the cell at a row and a column, both from 1, of the sheet at an index, from 0, as the book keeps it. None
    /// exactly where the cell has no formula, also outside the sheet. It takes no memory.
    ///
    /// `InvalidSheet` exactly where no sheet stands at the index.
    pub fn formula_at(
        &self,
        sheet: u32,
        row: i32,
        column: i32,
    ) -> Result<Option<&Formula>, BookError>
        ensures formula { IfOk result (λ found. option_map (λ f. f.now) found
            ≡ formula_of (core_of self.now.book) sheet row column) }
        ensures refused { RefusesOnly result (core.first_refusal ((
          lacks_sheet
              (core_of self.now.book) sheet,
          InvalidSheet,
        ) ∷ [])) }
    {
        let Some(worksheet) = self.contents.sheets.get(sheet as usize) else {
            return Err(BookError::InvalidSheet);
        };
        Ok(formula_at(worksheet, row, column))
    }

    /// The formulas of the cells of the sheet at an index, from 0, by rows and columns, as the book keeps them: each cell
    /// that has one.
    ///
    /// `InvalidSheet` exactly where no sheet stands at the index; `OutOfMemory` only where one does.
    pub fn formulas_in(&self, sheet: u32) -> Result<Vec<PlacedFormula<'_>>, BookError>
        ensures formulas { IfOk result (λ cells. option_map (λ s. s.cells)
            (slice_get (core_of self.now.book).sheets sheet) ≡ Some (map placed cells.items)) }
        ensures refused { Refuses result (core.first_refusal ((
          lacks_sheet
              (core_of self.now.book) sheet,
          InvalidSheet,
        ) ∷ [])) }
    {
        let Some(worksheet) = self.contents.sheets.get(sheet as usize) else {
            return Err(BookError::InvalidSheet);
        };
        Ok(formulas_of(self.alloc, worksheet)?)
    }

    /// The index of the sheet with this id, from 0. None exactly where no sheet has it. It takes no memory.
    pub fn sheet_index(&self, id: u32) -> Option<u32>
        ensures { result ≡ position (λ s. nat_eq s.id id) (core_of self.now.book).sheets }
    {
        let index = self.contents.sheets.index_of_id(id)?;
        Some(index as u32)
    }

    /// The id and the name of each sheet, in their order. Only memory can be missing.
    pub fn sheet_names(&self) -> Result<Vec<SheetName>, OutOfMemory>
        ensures { IfOk result (λ names. names.items ≡ (scene_in self.now.book).sheets) }
    {
        names_of(self.alloc, self.contents.sheets.as_slice())
    }

    /// The records of the definitions in their order, as `workbook` has them: the text of a body is English. Only memory can
    /// be missing.
    pub fn defined_names(&self) -> Result<Vec<DefinedName>, OutOfMemory>
        ensures { IfOk result (λ names. names.items
            ≡ map (defined_name_of self.now.book) self.now.book.definitions) }
    {
        self.records_of(self.contents.definitions.as_slice())
    }

    /// `=` and a formula as it is shown in a notation by the book's tables, in the cell at a row and a column, both from 1, with
    /// the names that things have now. A text that didn't read stands as it was typed. Only memory can be missing.
    pub fn formula_text(
        &self,
        row: i32,
        column: i32,
        formula: &Formula,
        target: &Notation<'_>,
    ) -> Result<String, OutOfMemory>
        requires { target.now.tables ≡ self.now.book.tables }
        ensures { IfOk result (λ text. chars (string_bytes text) ≡ equals
            ∷ shown_in target.now (whole_of self.now.book) row column formula.now) }
    {
        self.show_in(target, "=", row, column, formula)
    }
}
