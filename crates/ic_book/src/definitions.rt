//! Definitions come and go, and are listed.
ghost use Rattle.std.specs.Prelude.{◌≡◌, IfOk, None, OnErr, OnOk, Some, chars, map};
ghost use Rattle.ic_laws.specs.CoreStep.{changed_by, delete_definition_refusal, index_of_definition, listed_scope, new_definition, new_definition_refusal, scope_of, scope_or_none, with_new_definition, without_definition};
ghost use Rattle.ic_laws.specs.FormulaReading.{Body, body_of, shown_body};
ghost use Rattle.ic_laws.specs.Refusal.{InvalidNameFormula};
ghost use Rattle.ic_machine.specs.subjects.Definitions.{DeleteDefinedName, GetDefinedNameList, IsValidDefinedName, NewDefinedName, definition_step};
ghost use Rattle.ic_parts.specs.Book.{IsValidBook, core_of, notations_in};
ghost use Rattle.ic_parts.specs.Change.{book_changed_by, with_added_definition, with_removed_definition};
ghost use Rattle.ic_parts.specs.Does.{Does, DoesOr};
ghost use Rattle.ic_parts.specs.Fields.{listed_fields, no_fields, scope_field};
ghost use Rattle.ic_changes.specs.LookUps.{LooksUpDefined, LooksUpUndefined};
ghost use Rattle.ic_parts.specs.Mentioned.{BindsDefined, DanglesUndefined};
ghost use Rattle.ic_parts.specs.Definitions.{body_of_typed, listed, listed_definitions};
ghost use Rattle.ic_parts.specs.Refused.{Refuses, RefusesOr};

mod body;
mod update;

use crate::{BookError, Model};
use ic_changes::definitions::parts::{add_definition, delete_at};
use ic_definitions::{Definition, NamedDefinitions};
use ic_laws::OutOfMemory;
use ic_laws::scan::push_text;
use ic_parts::definitions::body::TypedBody;
use ic_refs::is_valid_identifier;

impl<'a> Model<'a> {
    /// Adds a definition of this name at the end, local to the sheet at an index, from 0, or to none. Its body is a
    /// reference with the name of a sheet of the book, or a LAMBDA with or without `=` before it, in the notation in force
    /// or else in English; what it mentions is found for that sheet, the definition itself too. Words that could mean the
    /// definition do from then on: a local one takes over those of its sheet that meant one of an agreeing name, and words
    /// with that sheet that meant none.
    ///
    /// `InvalidName`, `InvalidScope`, `NameExists`, `InvalidNameFormula`, in this order, each exactly where it holds;
    /// `OutOfMemory` only where none of the first three does. An error changes nothing.
    pub fn new_defined_name(
        &mut self,
        name: &str,
        scope: Option<u32>,
        formula: &str,
    ) -> Result<(), BookError>
        ensures does { DoesOr InvalidNameFormula definition_step
            (NewDefinedName (chars name.now) scope (chars formula.now)) no_fields
            result self.old self.new }

        // What is bound by it is bound to it, and each other mention is what it was.
        ensures binds { OnOk result (BindsDefined (chars name.now) scope (chars formula.now)
            self.old.book self.new.book) }

        // A sheet's look-up of formulas is there as before where no mention of its formulas changed.
        ensures looks_up { OnOk result (LooksUpDefined (chars name.now) scope self.old self.new) }
    {
        self.define(name, scope, formula)
    }

    /// Whether such a definition could be added: the id of the sheet that it would be local to, if there is one.
    ///
    /// `InvalidName`, `InvalidScope`, `NameExists`, `InvalidNameFormula`, in this order, each exactly where it holds;
    /// `OutOfMemory` only where none of the first three does.
    pub fn is_valid_defined_name(
        &self,
        name: &str,
        scope: Option<u32>,
        formula: &str,
    ) -> Result<Option<u32>, BookError>
        ensures does { DoesOr InvalidNameFormula definition_step
            (IsValidDefinedName (chars name.now) scope (chars formula.now)) scope_field
            result self.now self.now }
    {
        self.scope_to_define(name, scope, formula)
    }

    /// Takes the definition of an agreeing name that is local to the sheet at an index, from 0, or to none, out of the book.
    /// Words that meant it mean the one of an agreeing name that is local to none, where there is one; else they dangle,
    /// keep its name, and find a definition again when one of an agreeing name comes.
    ///
    /// `InvalidSheet` exactly where no sheet stands at the index, then `NameNotFound` where there is no such definition;
    /// `OutOfMemory` only where neither holds. An error changes nothing.
    pub fn delete_defined_name(&mut self, name: &str, scope: Option<u32>) -> Result<(), BookError>
        ensures does { Does definition_step (DeleteDefinedName (chars name.now) scope) no_fields
            result self.old self.new }

        // What meant it means the one for all sheets, or dangles by its name, and each other mention is what it was.
        ensures dangles { OnOk result
            (DanglesUndefined (chars name.now) scope self.old.book self.new.book) }

        // A sheet's look-up of formulas is there as before where no mention of its formulas changed.
        ensures looks_up { OnOk result
            (LooksUpUndefined (chars name.now) scope self.old self.new) }
    {
        self.undefine(name, scope)
    }

    /// The definitions in their order, but for those that are local to a sheet which is gone: each with its name as it was
    /// given, the index of the sheet that it is local to, from 0, if there is one, and its body in the notation in force.
    ///
    /// Nothing refuses it; `OutOfMemory` is its only error.
    pub fn get_defined_name_list(&self) -> Result<Vec<(String, Option<u32>, String)>, BookError>
        ensures does { Does definition_step GetDefinedNameList listed_fields
            result self.now self.now }
    {
        self.listed_definitions()
    }

    /// Adds a definition at the end.
    fn define(&mut self, name: &str, scope: Option<u32>, formula: &str) -> Result<(), BookError>
        ensures ok { OnOk result ((body : Body) → body_of (notations_in self.old.book)
            (core_of self.old.book) (chars formula.now) ≡ Some body
            → self.new.book ≡ book_changed_by (with_added_definition (new_definition
            (notations_in self.old.book) (core_of self.old.book) (chars name.now) (scope_or_none
            (core_of self.old.book) scope) body)) self.old.book) }
        ensures core { OnOk result (core_of self.new.book ≡ with_new_definition
            (notations_in self.old.book) (core_of self.old.book) (chars name.now) (scope_or_none
            (core_of self.old.book) scope)
            (body_of (notations_in self.old.book) (core_of self.old.book) (chars formula.now))) }
        ensures binds { OnOk result (BindsDefined (chars name.now) scope (chars formula.now)
            self.old.book self.new.book) }
        ensures looks_up { OnOk result (LooksUpDefined (chars name.now) scope self.old self.new) }
        ensures refused { RefusesOr InvalidNameFormula result (new_definition_refusal
            (notations_in self.old.book) (core_of self.old.book) (chars name.now) scope
            (chars formula.now)) }
        ensures err { OnErr result (self.new ≡ self.old) }
        ensures valid { IsValidBook self.old.book }
    {
        let (id, body) = self.checked_definition(name, scope, formula)?;
        let definition = self.definition_of(name, id, &body)?;
        add_definition(&mut self.contents, &mut self.names.names, definition)?;
        Ok(())
    }

    /// The id of the sheet that such a definition would be local to, if there is one.
    fn scope_to_define(
        &self,
        name: &str,
        scope: Option<u32>,
        formula: &str,
    ) -> Result<Option<u32>, BookError>
        ensures id { IfOk result (λ id. id ≡ scope_or_none (core_of self.now.book) scope) }
        ensures refused { RefusesOr InvalidNameFormula result (new_definition_refusal
            (notations_in self.now.book) (core_of self.now.book) (chars name.now) scope
            (chars formula.now)) }
        ensures valid { IsValidBook self.now.book }
    {
        let (id, _) = self.checked_definition(name, scope, formula)?;
        Ok(id)
    }

    /// Takes a definition out of the book.
    fn undefine(&mut self, name: &str, scope: Option<u32>) -> Result<(), BookError>
        ensures ok { OnOk result (self.new.book ≡ book_changed_by (with_removed_definition
            (index_of_definition (core_of self.old.book) (chars name.now) (scope_or_none
            (core_of self.old.book) scope))) self.old.book) }
        ensures core { OnOk result (core_of self.new.book ≡ changed_by (notations_in self.old.book)
            (without_definition (index_of_definition (core_of self.old.book) (chars name.now)
            (scope_or_none (core_of self.old.book) scope))) (core_of self.old.book)) }
        ensures dangles { OnOk result
            (DanglesUndefined (chars name.now) scope self.old.book self.new.book) }
        ensures looks_up { OnOk result
            (LooksUpUndefined (chars name.now) scope self.old self.new) }
        ensures refused { Refuses result
            (delete_definition_refusal (core_of self.old.book) (chars name.now) scope) }
        ensures err { OnErr result (self.new ≡ self.old) }
        ensures valid { IsValidBook self.old.book }
    {
        let Some(id) = self.scope_id(scope) else {
            return Err(BookError::InvalidSheet);
        };
        let definitions = NamedDefinitions {
            definitions: &self.contents.definitions,
            places: &self.names.names,
        };
        let Some(index) = definitions.index_of(name, id) else {
            return Err(BookError::NameNotFound);
        };
        delete_at(&mut self.contents, &mut self.names.names, index)?;
        Ok(())
    }

    /// The definitions that are listed.
    fn listed_definitions(&self) -> Result<Vec<(String, Option<u32>, String)>, BookError>
        ensures list { IfOk result (λ names. map listed names.items ≡ listed_definitions
            (notations_in self.now.book) (core_of self.now.book)) }
        ensures refused { Refuses result None }
        ensures valid { IsValidBook self.now.book }
    {
        let mut names = Vec::new(self.alloc);
        let definitions = self.contents.definitions.as_slice();
        for definition in definitions {
            if let Some(scope) = self.listed_scope(definition.scope()) {
                names.push(self.listed(definition, scope)?)?;
            }
        }
        Ok(names)
    }

    /// The id of the sheet that a new definition is to be local to, and its body.
    pub(crate) fn checked_definition(
        &self,
        name: &str,
        scope: Option<u32>,
        formula: &str,
    ) -> Result<(Option<u32>, TypedBody), BookError>
        ensures id { IfOk result (λ found. scope_of (core_of self.now.book) scope ≡ Some found.0) }
        ensures body { IfOk result (λ found. body_of (notations_in self.now.book)
            (core_of self.now.book) (chars formula.now) ≡ Some (body_of_typed found.1)) }
        ensures refused { RefusesOr InvalidNameFormula result (new_definition_refusal
            (notations_in self.now.book) (core_of self.now.book) (chars name.now) scope
            (chars formula.now)) }
        ensures valid { IsValidBook self.now.book }
    {
        // What always holds of a model is known from here on.
        let _ = &self.contents;
        if !is_valid_identifier(name) {
            return Err(BookError::InvalidName);
        }
        let Some(id) = self.scope_id(scope) else {
            return Err(BookError::InvalidScope);
        };
        let definitions = NamedDefinitions {
            definitions: &self.contents.definitions,
            places: &self.names.names,
        };
        if definitions.index_of(name, id).is_some() {
            return Err(BookError::NameExists);
        }
        match self.typed_body(formula)? {
            Some(body) => Ok((id, body)),
            None => Err(BookError::InvalidNameFormula),
        }
    }

    /// The id of the sheet at an index, or none for none. None exactly where no sheet stands at the index.
    pub(crate) fn scope_id(&self, scope: Option<u32>) -> Option<Option<u32>>
        ensures { result ≡ scope_of (core_of self.now.book) scope }
    {
        match scope {
            None => Some(None),
            Some(index) => {
                let sheet = self.contents.sheets.get(index as usize)?;
                Some(Some(sheet.id))
            }
        }
    }

    /// The index of the sheet with this id, or none for none. None exactly where no sheet has the id.
    fn listed_scope(&self, scope: Option<u32>) -> Option<Option<u32>>
        ensures { result ≡ listed_scope (core_of self.now.book) scope }
    {
        match scope {
            None => Some(None),
            Some(id) => {
                let index = self.contents.sheets.index_of_id(id)?;
                Some(Some(index as u32))
            }
        }
    }

    /// A definition as it is listed.
    fn listed(
        &self,
        definition: &Definition,
        scope: Option<u32>,
    ) -> Result<(String, Option<u32>, String), OutOfMemory>
        ensures { IfOk result (λ item. listed item ≡ (
          definition.now.name,
          scope,
          shown_body
              (notations_in self.now.book)
              (core_of self.now.book) definition.now.has_equals definition.now.body,
        )) }
    {
        let mut name = String::new(self.alloc);
        push_text(&mut name, definition.name())?;
        let body = self.show_body(definition)?;
        Ok((name, scope, body))
    }
}
