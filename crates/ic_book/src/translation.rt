//! What commands write by texts of their own, and how that is written in a notation which isn't in force.
ghost use Rattle.std.specs.Prelude.{◌≡◌, ◌++◌, IfOk, None, chars, string_bytes};
ghost use Rattle.ic_grid.specs.Block.{block_at};
ghost use Rattle.ic_machine.specs.Command.{OnArrays, OnDefinitions, OnWriting};
ghost use Rattle.ic_machine.specs.Translation.{in_notation};
ghost use Rattle.ic_machine.specs.subjects.Arrays.{SetUserArrayFormula};
ghost use Rattle.ic_machine.specs.subjects.Definitions.{NewDefinedName, UpdateDefinedName, update_of};
ghost use Rattle.ic_machine.specs.subjects.Sheets.{new_sheet_name};
ghost use Rattle.ic_machine.specs.subjects.Writing.{SetUserInput, UpdateCellWithFormula};
ghost use Rattle.ic_parts.specs.Book.{IsValidBook};
ghost use Rattle.ic_parts.specs.Refused.{RefusesOnly};
ghost use Rattle.ic_parts.specs.Translated.{IsToldAsked, IsToldOf, IsToldWhere, IsWrittenIn, formula_own, notation_refusal, shown_in};
ghost use Rattle.ic_parts.specs.Whole.{whole_of};
ghost use Rattle.ic_parts.specs.Written.{value_refusal};

use crate::{BookError, Model, Notation, OwnText};
use ic_changes::definitions::remaking::{keys_of_update, updated_definition};
use ic_grid::Block;
use ic_input::formula_without_prefix;
use ic_laws::{Formula, OutOfMemory};
use ic_parts::arrays::after_equals;
use ic_parts::formulas::after_sign;
use ic_parts::input::typed_formula;
use ic_parts::translation::{dialect_in, none_unless_memory, sign_of};
use ic_parts::written::typed_text;
use ic_tree::print_bound;

impl<'a> Model<'a> {
    /// The notation of a locale and a language of the tables, whichever is in force. It takes no memory.
    ///
    /// `InvalidLocale`, `InvalidLanguage`, in this order, exactly where the tables lack the locale or the language.
    pub fn notation_named(
        &self,
        locale_id: &str,
        language_id: &str,
    ) -> Result<Notation<'a>, BookError>
        ensures named { IfOk result (λ n. n ≡ record {
          tables = self.now.book.tables;
          locale = chars locale_id.now;
          language = chars language_id.now;
        }) }
        ensures refused { RefusesOnly result (notation_refusal (chars locale_id.now)
            (chars language_id.now) self.now.book.tables) }

        // What the laws on translation ask of the book.
        ensures valid { IsValidBook self.now.book }
    {
        let tables = self.notation.tables();
        let Ok(locale) = tables.get_named_locale(locale_id) else {
            return Err(BookError::InvalidLocale);
        };
        let Ok(language) = tables.get_language(language_id) else {
            return Err(BookError::InvalidLanguage);
        };
        Ok(Notation::new(tables, locale, language))
    }

    /// The name that `new_sheet` would give. Only memory can be missing.
    pub fn new_sheet_name(&self) -> Result<String, OutOfMemory>
        ensures { IfOk result (λ name. chars (string_bytes name)
            ≡ new_sheet_name (whole_of self.now.book)) }
    {
        self.seen_new_name()
    }

    /// What `set_user_input` would type with these words; None exactly where it would be refused. Only memory can be missing.
    pub fn input_to_write(
        &self,
        sheet: u32,
        row: i32,
        column: i32,
        text: &str,
    ) -> Result<Option<OwnText>, OutOfMemory>
        ensures { IfOk result (IsToldOf (whole_of self.now.book)
            (OnWriting (SetUserInput sheet row column (chars text.now)))) }
    {
        match self.style_to_write(sheet, row, column) {
            Ok(_) => self.input_there(sheet, row, column, text),
            Err(_) => Ok(None),
        }
    }

    /// What `update_cell_with_formula` would write with these words; None exactly where it would be refused. Only memory can
    /// be missing.
    pub fn formula_to_write(
        &self,
        sheet: u32,
        row: i32,
        column: i32,
        text: &str,
    ) -> Result<Option<OwnText>, OutOfMemory>
        ensures { IfOk result (IsToldOf (whole_of self.now.book)
            (OnWriting (UpdateCellWithFormula sheet row column (chars text.now)))) }
    {
        match self.style_to_write(sheet, row, column) {
            Ok(_) => self.formula_there(sheet, row, column, text),
            Err(_) => Ok(None),
        }
    }

    /// What `set_user_array_formula` would write with these words; None exactly where it would be refused. Only memory can
    /// be missing.
    pub fn array_to_write(
        &self,
        sheet: u32,
        row: i32,
        column: i32,
        width: i32,
        height: i32,
        text: &str,
    ) -> Result<Option<OwnText>, OutOfMemory>
        ensures { IfOk result (IsToldOf (whole_of self.now.book) (OnArrays
            (SetUserArrayFormula sheet (block_at (row, column) width height) (chars text.now)))) }
    {
        let block = Block {
            row,
            column,
            width,
            height,
        };
        match self.may_write_array(sheet, block) {
            Ok(()) => match after_equals(text) {
                Some(body) => self.own_formula(sheet, row, column, body),
                None => Ok(None),
            },
            Err(_) => Ok(None),
        }
    }

    /// The definition that `new_defined_name` would add with these words; None exactly where it would be refused. Only memory
    /// can be missing.
    pub fn definition_to_add(
        &self,
        name: &str,
        scope: Option<u32>,
        formula: &str,
    ) -> Result<Option<OwnText>, OutOfMemory>
        ensures { IfOk result (IsToldOf (whole_of self.now.book)
            (OnDefinitions (NewDefinedName (chars name.now) scope (chars formula.now)))) }
    {
        match self.checked_definition(name, scope, formula) {
            Ok((id, body)) => {
                let definition = self.definition_of(name, id, &body)?;
                Ok(Some(OwnText::Definition(definition)))
            }
            Err(e) => none_unless_memory(&e),
        }
    }

    /// The definition that `update_defined_name` would leave with these words. None only where it would be refused; where it
    /// would, and there is one, that can be written in this notation. Only memory can be missing.
    pub fn definition_to_leave(
        &self,
        name: &str,
        scope: Option<u32>,
        new_name: &str,
        new_scope: Option<u32>,
        formula: &str,
        target: &Notation<'_>,
    ) -> Result<Option<OwnText>, OutOfMemory>
        ensures { IfOk result (IsToldWhere target.now (whole_of self.now.book) (OnDefinitions
            (UpdateDefinedName (update_of (chars name.now) scope (chars new_name.now) new_scope
            (chars formula.now))))) }
    {
        match self.definition_left(name, scope, new_name, new_scope, formula)? {
            Some(own) => {
                if own.why_not(target).is_none() {
                    return Ok(Some(own));
                }
                match self.captures(name, scope, new_name, new_scope, formula) {
                    Ok(false) => Ok(Some(own)),
                    Ok(true) => Ok(None),
                    Err(e) => none_unless_memory(&e),
                }
            }
            None => Ok(None),
        }
    }

    /// What the own text of a command is in a notation by the book's tables: a formula with its equals sign, the body of a
    /// definition with the one that it had, a typed text so that it is the same there. Only memory can be missing.
    pub fn own_text(&self, own: &OwnText, target: &Notation<'_>) -> Result<String, OutOfMemory>
        requires { target.now.tables ≡ self.now.book.tables }
        ensures { IfOk result (λ text. IsWrittenIn
            (in_notation target.now.locale target.now.language (whole_of self.now.book)) own.now
            (chars (string_bytes text))) }
    {
        // What always holds of a model is known from here on.
        let _ = &self.contents;
        match own {
            OwnText::Value(typed) => typed_text(self.alloc, typed, target),
            OwnText::Formula {
                row,
                column,
                formula,
            } => self.show_in(target, "=", *row, *column, formula),
            OwnText::Definition(definition) => {
                let sign = sign_of(definition.has_equals());
                self.show_in(target, sign, 1, 1, definition.body())
            }
        }
    }

    /// The same of a cell that may be written.
    fn input_there(
        &self,
        sheet: u32,
        row: i32,
        column: i32,
        text: &str,
    ) -> Result<Option<OwnText>, OutOfMemory>
        requires { value_refusal self.now.book sheet row column ≡ None }
        ensures { IfOk result (IsToldOf (whole_of self.now.book)
            (OnWriting (SetUserInput sheet row column (chars text.now)))) }
    {
        // What always holds of a model is known from here on.
        let _ = &self.contents;
        let typed = self.typed(text)?;
        match typed_formula(&typed) {
            Some(body) => self.own_formula(sheet, row, column, body),
            None => Ok(Some(OwnText::Value(typed))),
        }
    }

    /// The same of a text that is written as a formula.
    fn formula_there(
        &self,
        sheet: u32,
        row: i32,
        column: i32,
        text: &str,
    ) -> Result<Option<OwnText>, OutOfMemory>
        requires { value_refusal self.now.book sheet row column ≡ None }
        ensures { IfOk result (IsToldOf (whole_of self.now.book)
            (OnWriting (UpdateCellWithFormula sheet row column (chars text.now)))) }
    {
        let locale = &self.notation.locale().locale;
        match formula_without_prefix(text, locale) {
            Some(body) => self.own_formula(sheet, row, column, body),
            None => Ok(None),
        }
    }

    /// The formula of a body, which stands after `=`, in a cell; None exactly where there is no such sheet.
    fn own_formula(
        &self,
        sheet: u32,
        row: i32,
        column: i32,
        body: &str,
    ) -> Result<Option<OwnText>, OutOfMemory>
        ensures { IfOk result (λ own. own
            ≡ formula_own self.now.book sheet row column (chars body.now)) }
    {
        let Some(worksheet) = self.contents.sheets.get(sheet as usize) else {
            return Ok(None);
        };
        let formula = self.formula_of_text(worksheet.id, row, column, body)?;
        Ok(Some(OwnText::Formula {
            row,
            column,
            formula,
        }))
    }

    /// The definition that an update would leave; None where the question is refused whether it would capture.
    fn definition_left(
        &self,
        name: &str,
        scope: Option<u32>,
        new_name: &str,
        new_scope: Option<u32>,
        formula: &str,
    ) -> Result<Option<OwnText>, OutOfMemory>
        ensures { IfOk result (IsToldAsked (whole_of self.now.book)
            (update_of (chars name.now) scope (chars new_name.now) new_scope
            (chars formula.now))) }
    {
        match self.checked_update(name, scope, new_name, new_scope, formula) {
            Ok(checked) => {
                let english = self.notation.get_default_language();
                let change = keys_of_update(self.alloc, name, new_name, &checked)?;
                let definition = updated_definition(
                    self.alloc,
                    &self.contents,
                    &self.names,
                    english,
                    new_name,
                    &change.new,
                    &checked,
                )?;
                Ok(Some(OwnText::Definition(definition)))
            }
            Err(e) => none_unless_memory(&e),
        }
    }

    /// A formula as it is shown in a notation in the cell at a row and a column, after a sign.
    pub(crate) fn show_in(
        &self,
        target: &Notation<'_>,
        sign: &str,
        row: i32,
        column: i32,
        formula: &Formula,
    ) -> Result<String, OutOfMemory>
        requires { target.now.tables ≡ self.now.book.tables }
        ensures { IfOk result (λ text. chars (string_bytes text) ≡ chars sign.now
            ++ shown_in target.now (whole_of self.now.book) row column formula.now) }
    {
        match formula {
            Formula::Tree(tree) => {
                let dialect = dialect_in(target, row, column);
                print_bound(self.alloc, &dialect, &self.scene(), sign, tree)
            }
            Formula::Raw(text) => after_sign(self.alloc, sign, text.as_str()),
        }
    }
}
