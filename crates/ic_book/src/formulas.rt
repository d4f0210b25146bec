ghost use Rattle.std.specs.Prelude.{◌≡◌, ◌+◌, ◌≤◌, ◌<◌, List, [], ◌∷◌, None, Some, true, chars, length, option_map, string_bytes, IfOk, IfSome, OnErr, OnOk, ◌++◌};
ghost use Rattle.std.specs.List.{slice_get};
ghost use Rattle.ic_laws.specs.Binding.{bound};
ghost use Rattle.ic_laws.specs.Character.{equals};
ghost use Rattle.ic_laws.specs.CoreBook.{formula_at};
ghost use Rattle.ic_laws.specs.CoreStep.{formula_of, lacks_sheet, updated_at};
ghost use Rattle.ic_laws.specs.FormulaReading.{cell_formula, shown_at, shown_body, shown_formula};
ghost use Rattle.ic_laws.specs.Notations.{english_function};
ghost use Rattle.ic_laws.specs.Refusal as core;
ghost use Rattle.ic_laws.specs.Refusal.{InvalidSheet};
ghost use Rattle.ic_laws.specs.ValidCore.{IsPooled};
ghost use Rattle.ic_laws.specs.declared.tree.Formula as kept;
ghost use Rattle.ic_pool.specs.Pool.{IsPlaced};
ghost use Rattle.ic_tree.specs.Typed.{as_typed};
ghost use Rattle.ic_machine.specs.subjects.Reading.{GetCellFormula, reading_step};
ghost use Rattle.ic_machine.specs.subjects.Writing.{UpdateCellWithFormula, writing_step};
ghost use Rattle.ic_parts.specs.Book.{IsValidBook, core_of, notations_in, scene_in};
ghost use Rattle.ic_parts.specs.Does.{Does, DoesIn};
ghost use Rattle.ic_parts.specs.Fields.{no_fields, string_field};
ghost use Rattle.ic_changes.specs.LookUps.{LooksUpAsBefore};
ghost use Rattle.ic_parts.specs.Refused.{Refuses, Tells};
ghost use Rattle.ic_parts.specs.Values.{Shows};
ghost use Rattle.ic_parts.specs.Written.{WritesFormula, kind_of, pool_at, value_refusal, with_pool};

use crate::{BookError, Model};
use ic_definitions::Definition;
use ic_input::formula_without_prefix;
use ic_laws::{Bound, Dialect, Formula, OutOfMemory, Spelled, Text};
use ic_parts::formulas::{after_sign, formula_at, kind_of, read_cell, without_quote};
use ic_pool::Steps;
use ic_tree::{Shown, bind, print_bound, settle};
use std::sync::ledger::Ledger;

impl<'a> Model<'a> {
    /// Writes a formula into the cell at a row and a column, both from 1, of the sheet at an index, from 0. The text is
    /// `=` and a formula in the notation in force, or a formula that begins with `+` or `-`; where it doesn't read, it is
    /// read with a `)` added, and else kept as it is. Sheets that it names are found now, and found again under every later
    /// name.
    ///
    /// The array that the cell belongs to is released. A formula that may have several values gets the area of its own
    /// cell; the cell keeps the style that it shows, without its quote flag.
    ///
    /// `InvalidSheet`, `InvalidRow`, `InvalidColumn`, `MergedPart` (merged cells cover the cell), `ArrayPart` (it belongs to
    /// a Cse array of more than one cell), `NotAFormula` (the text begins neither with `=` nor with a sign, nothing follows
    /// that, or a number follows the sign), in this order, each exactly where it holds; `OutOfMemory` only where none of
    /// them does. An error leaves the book, and a refusal all that a model is.
    pub fn update_cell_with_formula(
        &mut self,
        sheet: u32,
        row: i32,
        column: i32,
        formula: String,
    ) -> Result<(), BookError>
        ensures does { DoesIn writing_step
            (UpdateCellWithFormula sheet row column (chars (string_bytes formula))) no_fields
            result self.old self.new }
        ensures looks_up { OnOk result
            (self.new.has_all ≡ updated_at (λ _. true) sheet self.old.has_all) }
        ensures whole { OnOk result (slice_get self.new.has_all sheet ≡ Some true) }

        // After an error the look-up of this sheet may be there; the others are as before.
        ensures left { OnErr result (LooksUpAsBefore sheet self.old self.new) }
    {
        self.type_formula(sheet, row, column, formula.as_str())
    }

    /// The same with a formula that is lent.
    pub fn type_formula(
        &mut self,
        sheet: u32,
        row: i32,
        column: i32,
        formula: &str,
    ) -> Result<(), BookError>
        ensures does { DoesIn writing_step
            (UpdateCellWithFormula sheet row column (chars formula.now)) no_fields
            result self.old self.new }
        ensures looks_up { OnOk result
            (self.new.has_all ≡ updated_at (λ _. true) sheet self.old.has_all) }
        ensures whole { OnOk result (slice_get self.new.has_all sheet ≡ Some true) }

        // After an error the look-up of this sheet may be there; the others are as before.
        ensures left { OnErr result (LooksUpAsBefore sheet self.old self.new) }
    {
        let shown = self.style_to_write(sheet, row, column)?;
        let locale = &self.notation.locale().locale;
        let Some(body) = formula_without_prefix(formula, locale) else {
            return Err(BookError::NotAFormula);
        };
        self.write_formula(sheet, row, column, body, shown)
    }

    /// What is shown of the formula in the cell at a row and a column, both from 1, of the sheet at an index, from 0: `=`
    /// and the formula with the names that things have now, in the notation in force; a text that didn't read as it was
    /// typed. None exactly where the cell has no formula, also outside the sheet.
    ///
    /// `InvalidSheet` exactly where no sheet stands at the index.
    pub fn get_cell_formula(
        &self,
        sheet: u32,
        row: i32,
        column: i32,
    ) -> Result<Option<String>, BookError>
        ensures does { Does reading_step (GetCellFormula sheet row column) string_field
            result self.now self.now }
    {
        self.formula_shown(sheet, row, column)
    }

    /// The place of a formula among those that the sheet at an index keeps, both from 0: the first place of an equal one;
    /// where there is none, a copy is put at the end. Where the look-up of that sheet's formulas has all of them, it takes
    /// no step; otherwise it is made anew, in one step for each formula, and has all of them from then on.
    ///
    /// The formula is a text that didn't read, or a tree that is well-formed, whose functions are those of the tables, and
    /// which written out and bound again for that sheet is the same.
    ///
    /// `InvalidSheet` exactly where no sheet stands at the index. An error leaves the book.
    pub fn shared_formula_index<L: Ledger>(
        &mut self,
        sheet: u32,
        tree: &Formula,
        steps: &mut Steps<L>,
    ) -> Result<usize, BookError>
        requires { IfSome (slice_get self.old.book.sheets sheet) (λ s. IsPooled
            (notations_in self.old.book) (scene_in self.old.book) (Some s.id) tree.now) }
        ensures placed { IfOk result (λ at. (pool : List kept.Formula) × IsPlaced tree.now at
            (pool_at self.old.book sheet) pool × (self.new.book
            ≡ with_pool sheet pool self.old.book)) }
        ensures core { core_of self.new.book ≡ core_of self.old.book }
        ensures looks_up { OnOk result (self.new.has_all ≡ updated_at
            (λ _. true) sheet self.old.has_all) }
        ensures whole { OnOk result (slice_get self.new.has_all sheet ≡ Some true) }
        ensures still { slice_get self.old.has_all sheet ≡ Some true → steps.new ≡ steps.old }
        ensures cost { steps.new ≤ steps.old + length (pool_at self.old.book sheet) }
        ensures grows { steps.old ≤ steps.new }
        ensures refused { Refuses result (core.first_refusal ((
          lacks_sheet
              (core_of self.old.book) sheet,
          InvalidSheet,
        ) ∷ [])) }
        ensures untouched { (refusal : core.Refusal) → core.first_refusal ((
          lacks_sheet
              (core_of self.old.book) sheet,
          InvalidSheet,
        ) ∷ []) ≡ Some refusal → self.new
            ≡ self.old }
        ensures err { OnErr result (self.new.book ≡ self.old.book) }

        // After an error the look-up of this sheet may be there; the others are as before.
        ensures left { OnErr result (LooksUpAsBefore sheet self.old self.new) }
    {
        let index = sheet as usize;
        if index >= self.contents.sheets.len() {
            return Err(BookError::InvalidSheet);
        }
        Ok(self.contents.sheets.place_copy(index, tree, steps)?)
    }

    /// Writes the formula of a body, which stands after `=`, into a cell that may be written, given the number of the style
    /// that it shows (`style_to_write`).
    pub(crate) fn write_formula(
        &mut self,
        sheet: u32,
        row: i32,
        column: i32,
        body: &str,
        shown: usize,
    ) -> Result<(), BookError>
        requires shows { Shows self.old.book sheet row column shown }
        requires allowed { value_refusal self.old.book sheet row column ≡ None }
        ensures written { OnOk result (IfSome (slice_get self.old.book.sheets sheet) (λ s.
            WritesFormula sheet s (row, column) (chars body.now) self.old.book self.new.book)) }
        ensures looks_up { OnOk result
            (self.new.has_all ≡ updated_at (λ _. true) sheet self.old.has_all) }
        ensures whole { OnOk result (slice_get self.new.has_all sheet ≡ Some true) }
        ensures lacks { Tells result None }
        ensures err { OnErr result (self.new.book ≡ self.old.book) }
        ensures valid { IsValidBook self.old.book }

        // After an error the look-up of this sheet may be there; the others are as before.
        ensures left { OnErr result (LooksUpAsBefore sheet self.old self.new) }
    {
        let worksheet = self.contents.sheets.as_slice()[sheet as usize].as_ref();
        let formula = self.formula_of_text(worksheet.id, row, column, body)?;
        let kind = kind_of(&formula, self.notation.tables());
        let count = self.lists.styles.len();
        let style = without_quote(&mut self.lists.styles, shown)?;
        match self
            .contents
            .sheets
            .write(sheet as usize, row, column, formula, kind, style)
        {
            Ok(()) => Ok(()),
            Err(error) => {
                self.lists.styles.truncate(count);
                Err(BookError::from(error))
            }
        }
    }

    /// What is shown of the formula in a cell.
    fn formula_shown(&self, sheet: u32, row: i32, column: i32) -> Result<Option<String>, BookError>
        ensures shown { IfOk result (λ text. option_map (λ s. chars (string_bytes s)) text
            ≡ option_map (λ f. equals ∷ shown_formula (notations_in self.now.book)
            (core_of self.now.book) row column f) (formula_of
            (core_of self.now.book) sheet row column)) }
        ensures refused { Refuses result (core.first_refusal ((
          lacks_sheet
              (core_of self.now.book) sheet,
          InvalidSheet,
        ) ∷ [])) }
        ensures valid { IsValidBook self.now.book }
    {
        // What always holds of a model is known from here on.
        let _ = &self.contents;
        match self.formula_at(sheet, row, column)? {
            Some(formula) => Ok(Some(self.show(row, column, formula)?)),
            None => Ok(None),
        }
    }

    /// The formula of a text in a cell of the sheet with this id.
    pub(crate) fn formula_of_text(
        &self,
        id: u32,
        row: i32,
        column: i32,
        body: &str,
    ) -> Result<Formula, OutOfMemory>
        ensures { IfOk result (λ f. f ≡ cell_formula (notations_in self.now.book)
            (core_of self.now.book) id row column (chars body.now)) }
    {
        match read_cell(self.alloc, &self.shown(row, column), body)? {
            Some(tree) => Ok(Formula::Tree(self.settled(id, tree)?)),
            None => Ok(Formula::Raw(Text::from_str(self.alloc, body)?)),
        }
    }

    /// A formula of the sheet with this id, bound to what it finds in the book.
    pub(crate) fn bound(&self, id: u32, tree: &Spelled) -> Result<Bound, OutOfMemory>
        ensures { IfOk result (λ t. t ≡ bound (english_function (notations_in self.now.book))
            (scene_in self.now.book) (Some id) tree.now) }
    {
        let english = self.notation.get_default_language();
        bind(self.alloc, &self.scene(), english, Some(id), tree)
    }

    /// The same of a formula that was only read, which is bound where it stands.
    fn settled(&self, id: u32, tree: Bound) -> Result<Bound, OutOfMemory>
        ensures { IfOk result (λ t. t ≡ bound (english_function (notations_in self.now.book))
            (scene_in self.now.book) (Some id) (as_typed tree)) }
    {
        let mut tree = tree;
        let english = self.notation.get_default_language();
        settle(self.alloc, &self.scene(), english, Some(id), &mut tree)?;
        Ok(tree)
    }

    /// How formulas are written now, in the cell at a row and a column.
    pub(crate) fn shown(&self, row: i32, column: i32) -> Shown<'a>
        ensures { ⟦<Shown<'a> as Dialect>⟧.meaning result ≡ shown_at (notations_in self.now.book)
            (core_of self.now.book) row column }
    {
        let notation = &self.notation;
        let locale = &notation.locale().locale;
        Shown::new(notation.tables(), locale, notation.language(), row, column)
    }

    /// `=` and a formula as it is shown in the cell at a row and a column.
    pub(crate) fn show(
        &self,
        row: i32,
        column: i32,
        formula: &Formula,
    ) -> Result<String, OutOfMemory>
        ensures { IfOk result (λ text. chars (string_bytes text) ≡ equals ∷ shown_formula
            (notations_in self.now.book) (core_of self.now.book) row column formula.now) }
    {
        self.show_after("=", row, column, formula)
    }

    /// The body of a definition as it is shown, with its equals sign.
    pub(crate) fn show_body(&self, definition: &Definition) -> Result<String, OutOfMemory>
        ensures { IfOk result (λ text. chars (string_bytes text) ≡ shown_body
            (notations_in self.now.book)
            (core_of self.now.book) definition.now.has_equals definition.now.body) }
    {
        if definition.has_equals() {
            return self.show_after("=", 1, 1, definition.body());
        }
        self.show_after("", 1, 1, definition.body())
    }

    /// A formula as it is shown in the cell at a row and a column, after a sign.
    fn show_after(
        &self,
        sign: &str,
        row: i32,
        column: i32,
        formula: &Formula,
    ) -> Result<String, OutOfMemory>
        ensures { IfOk result (λ text. chars (string_bytes text) ≡ chars sign.now ++ shown_formula
            (notations_in self.now.book) (core_of self.now.book) row column formula.now) }
    {
        match formula {
            Formula::Tree(tree) => {
                let shown = self.shown(row, column);
                print_bound(self.alloc, &shown, &self.scene(), sign, tree)
            }
            Formula::Raw(text) => after_sign(self.alloc, sign, text.as_str()),
        }
    }
}
