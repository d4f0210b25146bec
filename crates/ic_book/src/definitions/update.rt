//! A definition gets another name, another scope and another body.
ghost use Rattle.std.specs.Prelude.{◌≡◌, IfOk, OnErr, OnOk, chars, option_map};
ghost use Rattle.ic_machine.specs.Refusal.{first_refusal};
ghost use Rattle.ic_machine.specs.Binds.{UpdatesWords};
ghost use Rattle.ic_machine.specs.Reply.{bool_field};
ghost use Rattle.ic_machine.specs.subjects.Definitions.{UpdateDefinedName, WouldCaptureName, captures, definition_step, question_causes, update_body, update_causes, update_of, updated_book};
ghost use Rattle.ic_parts.specs.Book.{IsValidBook, core_of, notations_in};
ghost use Rattle.ic_parts.specs.Definitions.{body_of_typed};
ghost use Rattle.ic_parts.specs.Does.{DoesWhere};
ghost use Rattle.ic_parts.specs.Fields.{no_fields};
ghost use Rattle.ic_changes.specs.LookUps.{LooksUpUpdated};
ghost use Rattle.ic_parts.specs.Refused.{TellsWhere};
ghost use Rattle.ic_changes.specs.Updated.{IsChecked, is_late_question, is_late_update};
ghost use Rattle.ic_parts.specs.Whole.{whole_of};

use crate::{BookError, Model};
use ic_changes::definitions::remaking::{
    keys_of_update, may_capture, prepare_update, updated_definition,
};
use ic_changes::definitions::update::{CheckedUpdate, FIRST_CELL, meets_other};
use ic_definitions::NamedDefinitions;
use ic_laws::OutOfMemory;
use ic_parts::definitions::body::{TypedBody, past_equals};
use ic_refs::{is_valid_identifier, trimmed};

impl<'a> Model<'a> {
    /// Gives the definition of an agreeing name that is local to the sheet at an index, from 0, or to none, another name,
    /// another scope and another body; it keeps its place among the others. The body is any formula, with or without blanks
    /// around it and `=` before it, in the notation in force or else in English; what it mentions is found for the new
    /// scope, the definition by its new name too. Every word that meant the definition means it by its new name, and every
    /// word that meant another one means that; words that dangled by a name that agrees with the new one may find it.
    ///
    /// `InvalidName` (the new name is none), `InvalidScope` (no sheet stands at the old index, or at the new one),
    /// `NameExists` (another definition has the new name and scope), `InvalidFormula` (the body reads in neither
    /// notation), `NameNotFound`, `WouldCapture` (a word that means a definition wouldn't mean the same one), in this
    /// order, each exactly where it holds; `OutOfMemory` only where none of those before `InvalidFormula` does. An error
    /// changes nothing.
    pub fn update_defined_name(
        &mut self,
        name: &str,
        scope: Option<u32>,
        new_name: &str,
        new_scope: Option<u32>,
        new_formula: &str,
    ) -> Result<(), BookError>
        ensures does { DoesWhere is_late_update definition_step (UpdateDefinedName
            (update_of (chars name.now) scope (chars new_name.now) new_scope
            (chars new_formula.now))) no_fields result self.old self.new }

        // What was bound to a definition is bound to the same one, and nothing else changes but what dangled.
        ensures means { OnOk result (UpdatesWords (whole_of self.old.book) (whole_of self.new.book)
            (update_of (chars name.now) scope (chars new_name.now) new_scope
            (chars new_formula.now))) }

        // A sheet's look-up of formulas is there as before where no word of its formulas means the definition, or has its
        // new name.
        ensures looks_up { OnOk result (LooksUpUpdated (update_of (chars name.now) scope
            (chars new_name.now) new_scope (chars new_formula.now)) self.old self.new) }
    {
        self.update(name, scope, new_name, new_scope, new_formula)
    }

    /// Whether such an update would capture: whether some word that means a definition wouldn't mean the same one.
    ///
    /// `InvalidName`, `InvalidScope`, `NameExists`, `InvalidFormula`, `NameNotFound`, as `update_defined_name` answers them,
    /// in this order, each exactly where it holds; `OutOfMemory` only where none of those before `InvalidFormula` does.
    pub fn would_capture(
        &self,
        name: &str,
        scope: Option<u32>,
        new_name: &str,
        new_scope: Option<u32>,
        new_formula: &str,
    ) -> Result<bool, BookError>
        ensures does { DoesWhere is_late_question definition_step (WouldCaptureName
            (update_of (chars name.now) scope (chars new_name.now) new_scope
            (chars new_formula.now))) bool_field result self.now self.now }
    {
        self.captures(name, scope, new_name, new_scope, new_formula)
    }

    /// Updates a definition.
    fn update(
        &mut self,
        name: &str,
        scope: Option<u32>,
        new_name: &str,
        new_scope: Option<u32>,
        formula: &str,
    ) -> Result<(), BookError>
        ensures ok { OnOk result (whole_of self.new.book ≡ updated_book (whole_of self.old.book)
            (update_of (chars name.now) scope (chars new_name.now) new_scope
            (chars formula.now))) }
        ensures looks_up { OnOk result (LooksUpUpdated (update_of (chars name.now) scope
            (chars new_name.now) new_scope (chars formula.now)) self.old self.new) }
        ensures refused { TellsWhere is_late_update result (first_refusal
            (update_causes (whole_of self.old.book)
            (update_of (chars name.now) scope (chars new_name.now) new_scope
            (chars formula.now)))) }
        ensures err { OnErr result (self.new ≡ self.old) }
        ensures before { IsValidBook self.old.book }
        ensures after { IsValidBook self.new.book }
    {
        let checked = self.checked_update(name, scope, new_name, new_scope, formula)?;
        let change = keys_of_update(self.alloc, name, new_name, &checked)?;
        let english = self.notation.get_default_language();
        let index = checked.index;
        let prepared = prepare_update(
            self.alloc,
            &self.contents,
            &self.names,
            english,
            new_name,
            &change,
            index,
        )?;
        if prepared.captures() {
            return Err(BookError::WouldCapture(prepared.into_sites()));
        }
        let definition = updated_definition(
            self.alloc,
            &self.contents,
            &self.names,
            english,
            new_name,
            &change.new,
            &checked,
        )?;
        prepared.apply(&mut self.contents, &mut self.names.names, index, definition)?;
        Ok(())
    }

    /// Whether an update of a definition would capture.
    pub(crate) fn captures(
        &self,
        name: &str,
        scope: Option<u32>,
        new_name: &str,
        new_scope: Option<u32>,
        formula: &str,
    ) -> Result<bool, BookError>
        ensures ok { IfOk result (λ answer. answer ≡ captures (whole_of self.now.book)
            (update_of (chars name.now) scope (chars new_name.now) new_scope
            (chars formula.now))) }
        ensures refused { TellsWhere is_late_question result (first_refusal
            (question_causes (whole_of self.now.book)
            (update_of (chars name.now) scope (chars new_name.now) new_scope
            (chars formula.now)))) }
        ensures valid { IsValidBook self.now.book }
    {
        let english = self.notation.get_default_language();
        let checked = self.checked_update(name, scope, new_name, new_scope, formula)?;
        let change = keys_of_update(self.alloc, name, new_name, &checked)?;
        let index = checked.index;
        let may = may_capture(
            &self.contents,
            &self.names,
            english,
            new_name,
            &change,
            index,
        )?;
        if !may {
            return Ok(false);
        }
        let prepared = prepare_update(
            self.alloc,
            &self.contents,
            &self.names,
            english,
            new_name,
            &change,
            index,
        )?;
        Ok(prepared.captures())
    }

    /// What an update of a definition comes to, where nothing refuses the question whether it would capture.
    pub(crate) fn checked_update(
        &self,
        name: &str,
        scope: Option<u32>,
        new_name: &str,
        new_scope: Option<u32>,
        formula: &str,
    ) -> Result<CheckedUpdate, BookError>
        ensures checked { IfOk result (IsChecked (whole_of self.now.book)
            (update_of (chars name.now) scope (chars new_name.now) new_scope (chars formula.now))) }
        ensures refused { TellsWhere is_late_question result (first_refusal
            (question_causes (whole_of self.now.book)
            (update_of (chars name.now) scope (chars new_name.now) new_scope
            (chars formula.now)))) }
    {
        // What always holds of a model is known from here on.
        let definitions = NamedDefinitions {
            definitions: &self.contents.definitions,
            places: &self.names.names,
        };
        if !is_valid_identifier(new_name) {
            return Err(BookError::InvalidName);
        }
        let Some(old_scope) = self.scope_id(scope) else {
            return Err(BookError::InvalidScope);
        };
        let Some(new_scope) = self.scope_id(new_scope) else {
            return Err(BookError::InvalidScope);
        };
        if meets_other(&definitions, name, old_scope, new_name, new_scope) {
            return Err(BookError::NameExists);
        }
        let found = definitions.index_of(name, old_scope);
        let Some(body) = self.updated_body(formula)? else {
            return Err(BookError::InvalidFormula);
        };
        match found {
            Some(index) => Ok(CheckedUpdate {
                old_scope,
                new_scope,
                index,
                body,
            }),
            None => Err(BookError::NameNotFound),
        }
    }

    /// The body that a text is: any formula, with or without blanks around it, with or without an equals sign before it, in
    /// the notation in force or else in English. None exactly where it reads in neither.
    fn updated_body(&self, text: &str) -> Result<Option<TypedBody>, OutOfMemory>
        ensures { IfOk result (λ body. option_map body_of_typed body ≡ update_body
            (notations_in self.now.book) (core_of self.now.book) (chars text.now)) }
    {
        let (has_equals, formula) = past_equals(trimmed(text));
        match self.read_at(&FIRST_CELL, formula)? {
            Some(tree) => Ok(Some(TypedBody { has_equals, tree })),
            None => Ok(None),
        }
    }
}
