//! Formulas and values of one cell, written out for another.
ghost use Rattle.std.specs.Prelude.{◌≡◌, IfOk, Some, chars, option_map, string_bytes};
ghost use Rattle.std.specs.List.{slice_get};
ghost use Rattle.ic_laws.specs.Notations.{english};
ghost use Rattle.ic_machine.specs.Refusal.{InvalidFormula, first_refusal};
ghost use Rattle.ic_machine.specs.subjects.Extending.{ExtendCopiedValue, ExtendTo, cell_of, extending_step};
ghost use Rattle.ic_parts.specs.Book.{notations_in};
ghost use Rattle.ic_parts.specs.Does.{Does, DoesOrWhole};
ghost use Rattle.ic_parts.specs.Extended.{CopiesFormula, bound_formula, cell_at, cells_causes, tree_at, tree_shown};
ghost use Rattle.ic_parts.specs.Fields.{string_only};
ghost use Rattle.ic_parts.specs.Refused.{TellsOnly};

use crate::{BookError, Model};
use ic_input::formula_without_prefix;
use ic_laws::{Dialect, Formula, OutOfMemory, Spelled};
use ic_parts::extend::{check_cells, same_text, text_in};
use ic_parts::formulas::formula_at;
use ic_refs::CellReferenceIndex;
use ic_tree::{Shown, read};

impl<'a> Model<'a> {
    /// What is shown in another cell of the formula in the cell at a row and a column, all from 1, of the sheet at an
    /// index, from 0: `=` and the formula with each reference as far from the other cell as it is from its own; a position
    /// after `$` stays, and a reference that leaves the sheet is the word of the error for lost references. Where the cell
    /// has no formula, the text of its value in the notation in force; the empty text where there is no cell.
    ///
    /// `InvalidSheet` exactly where no sheet stands at the index; `OutOfMemory` only where one does.
    pub fn extend_to(
        &self,
        sheet: u32,
        row: i32,
        column: i32,
        target_row: i32,
        target_column: i32,
    ) -> Result<String, BookError>
        ensures does { Does extending_step
            (ExtendTo (cell_of sheet row column) target_row target_column) string_only
            result self.now self.now }
    {
        let strings = self.lists.strings.as_items();
        let worksheet = self.sheet_at(sheet)?;
        if let Some(formula) = formula_at(worksheet, row, column) {
            return Ok(self.show(target_row, target_column, formula)?);
        }
        let cell = worksheet.grid.cells.get(row, column);
        Ok(text_in(
            self.alloc,
            cell,
            strings,
            &self.notation.locale().locale,
            self.notation.language(),
        )?)
    }

    /// A text that was copied from one cell, as it stands in another. A formula, after `=` or a sign, is read in the first
    /// cell, in the notation in force or else in English, and written out for the other as `extend_to` does it; any other
    /// text stays as it is.
    ///
    /// `InvalidSheet`, `InvalidRow`, `InvalidColumn`, of the first cell before the other in each, then `InvalidFormula`
    /// where the formula reads in neither notation, each exactly where it holds; `OutOfMemory` only where none of the first
    /// three does.
    pub fn extend_copied_value(
        &self,
        value: &str,
        source: &CellReferenceIndex,
        target: &CellReferenceIndex,
    ) -> Result<String, BookError>
        ensures does { DoesOrWhole InvalidFormula extending_step
            (ExtendCopiedValue (chars value.now) (cell_at source.now) (cell_at target.now))
            string_only result self.now self.now }
    {
        let locale = &self.notation.locale().locale;
        let id = self.copied_from(source, target)?;
        match formula_without_prefix(value, locale) {
            Some(formula) => self.formula_copied(id, source, target, formula),
            None => Ok(same_text(self.alloc, value)?),
        }
    }

    /// The id of the sheet of a cell that is copied from, where that and the cell to copy to are there.
    fn copied_from(
        &self,
        source: &CellReferenceIndex,
        target: &CellReferenceIndex,
    ) -> Result<u32, BookError>
        ensures id { IfOk result (λ id. option_map (λ s. s.id)
            (slice_get self.now.book.sheets source.now.sheet) ≡ Some id) }
        ensures refused { TellsOnly result
            (first_refusal (cells_causes self.now.book source.now target.now)) }
    {
        let id = self.sheet_at(source.sheet)?.id;
        self.sheet_at(target.sheet)?;
        check_cells(source, target)?;
        Ok(id)
    }

    /// A formula's text in a cell of the sheet with this id, written out for another cell.
    fn formula_copied(
        &self,
        id: u32,
        source: &CellReferenceIndex,
        target: &CellReferenceIndex,
        text: &str,
    ) -> Result<String, BookError>
        ensures { CopiesFormula self.now.book id source.now target.now (chars text.now) result }
    {
        match self.read_at(source, text)? {
            Some(tree) => Ok(self.show_tree(id, target, &tree)?),
            None => Err(BookError::InvalidFormula),
        }
    }

    /// The tree of a formula's text in a cell.
    pub(crate) fn read_at(
        &self,
        cell: &CellReferenceIndex,
        text: &str,
    ) -> Result<Option<Spelled>, OutOfMemory>
        ensures { IfOk result (λ t. t
            ≡ tree_at self.now.book cell.now.row cell.now.column (chars text.now)) }
    {
        match read(self.alloc, &self.shown(cell.row, cell.column), text)? {
            Some(tree) => Ok(Some(tree)),
            None => read(self.alloc, &self.english_at(cell.row, cell.column), text),
        }
    }

    /// A tree that belongs to the sheet with this id, as a formula that is shown in a cell.
    fn show_tree(
        &self,
        id: u32,
        cell: &CellReferenceIndex,
        tree: &Spelled,
    ) -> Result<String, OutOfMemory>
        ensures { IfOk result (λ s. chars (string_bytes s)
            ≡ tree_shown self.now.book id cell.now.row cell.now.column tree.now) }
    {
        let formula = self.bound_formula(id, tree)?;
        self.show(cell.row, cell.column, &formula)
    }

    /// A tree that belongs to the sheet with this id, bound to what it finds in the book.
    fn bound_formula(&self, id: u32, tree: &Spelled) -> Result<Formula, OutOfMemory>
        ensures { IfOk result (λ f. f ≡ bound_formula self.now.book id tree.now) }
    {
        Ok(Formula::Tree(self.bound(id, tree)?))
    }

    /// How formulas are written in English in the cell at a row and a column.
    pub(crate) fn english_at(&self, row: i32, column: i32) -> Shown<'a>
        ensures { ⟦<Shown<'a> as Dialect>⟧.meaning result ≡
            (notations_in self.now.book).shown english english row column }
    {
        let locale = self.notation.get_default_locale();
        let language = self.notation.get_default_language();
        Shown::new(self.notation.tables(), locale, language, row, column)
    }
}
