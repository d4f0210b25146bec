//! Sheets that come with a name that is made.
ghost use Rattle.std.specs.Prelude.{◌≡◌, IfOk, chars, length, string_bytes, true};
ghost use Rattle.ic_laws.specs.Name.{is_sheet_name};
ghost use Rattle.ic_machine.specs.subjects.Sheets as sheets;
ghost use Rattle.ic_machine.specs.subjects.Sheets.{new_sheet_name, numbered_name, sheet_step};
ghost use Rattle.ic_parts.specs.Does.{Does};
ghost use Rattle.ic_parts.specs.Fields.{named_sheet_fields};
ghost use Rattle.ic_changes.specs.LookUps.{LooksUpAdded};
ghost use Rattle.ic_parts.specs.Mentioned.{BindsAdded};
ghost use Rattle.ic_parts.specs.SheetNames.{IsNumbered};
ghost use Rattle.ic_parts.specs.Whole.{whole_of};

use crate::{BookError, Model};
use ic_laws::OutOfMemory;
use ic_parts::sheet_names::{NumberedName, base_name, free_name, seen_free_name};

impl<'a> Model<'a> {
    /// Adds a sheet at the end, as `add_sheet` does, and answers its name and its index, from 0. The name is the word for a
    /// sheet in the language in force, and the least number from 1 with which no sheet has it.
    ///
    /// `IdsUsedUp` exactly where the last id is in use; `OutOfMemory` only where it isn't. An error changes nothing.
    pub fn new_sheet(&mut self) -> Result<(String, u32), BookError>
        ensures does { Does sheet_step sheets.NewSheet named_sheet_fields
            result self.old self.new }

        // It is a name that a sheet may have, with a number that is at most one more than there were sheets.
        ensures named { IfOk result (λ r. is_sheet_name (chars (string_bytes r.0)) ≡ true) }
        ensures numbered { IfOk result (λ r. IsNumbered (length self.old.book.sheets)
            (numbered_name (whole_of self.old.book)) (chars (string_bytes r.0))) }

        // What is bound by it is bound to it, and each other mention is what it was.
        ensures binds { IfOk result
            (λ r. BindsAdded (chars (string_bytes r.0)) self.old.book self.new.book) }

        // A sheet's look-up of formulas is there as before where no mention of its formulas changed.
        ensures looks_up { IfOk result
            (λ r. LooksUpAdded (chars (string_bytes r.0)) self.old self.new) }
    {
        if self.get_new_sheet_id().is_none() {
            return Err(BookError::IdsUsedUp);
        }
        let index = self.contents.sheets.len() as u32;
        let name = self.new_name()?;
        self.append_sheet(name.as_str())?;
        Ok((name, index))
    }

    /// The name that a new sheet gets.
    fn new_name(&mut self) -> Result<String, OutOfMemory>
        ensures named { IfOk result (λ name. chars (string_bytes name)
            ≡ new_sheet_name (whole_of self.old.book)) }
        ensures same { self.new ≡ self.old }
    {
        // What always holds of a model is known from here on.
        let _ = &self.contents;
        let base = NumberedName::Word(base_name(&self.notation.language().code));
        let sheets = &self.contents.sheets;
        let taken = &mut self.names.numbers;
        free_name(self.alloc, sheets, &self.names.sheets, taken, &base)
    }

    /// The same, and notes nothing.
    pub(crate) fn seen_new_name(&self) -> Result<String, OutOfMemory>
        ensures { IfOk result (λ name. chars (string_bytes name)
            ≡ new_sheet_name (whole_of self.now.book)) }
    {
        // What always holds of a model is known from here on.
        let _ = &self.contents;
        let base = NumberedName::Word(base_name(&self.notation.language().code));
        let sheets = &self.contents.sheets;
        let taken = &self.names.numbers;
        seen_free_name(self.alloc, sheets, &self.names.sheets, taken, &base)
    }
}
