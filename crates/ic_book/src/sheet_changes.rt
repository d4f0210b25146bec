ghost use Rattle.std.specs.Prelude.{◌≡◌, chars, OnErr, OnOk, Some};
ghost use Rattle.ic_laws.specs.BookTrees.{BookKeepsFound, IsMoved};
ghost use Rattle.ic_laws.specs.CoreStep.{add_sheet_refusal, changed_by, delete_refusal, index_of_id, index_of_name, move_refusal, moved, rename_refusal, with_new_sheet, with_sheet_name, without_sheet};
ghost use Rattle.ic_machine.specs.subjects.Sheets as sheets;
ghost use Rattle.ic_machine.specs.subjects.Sheets.{sheet_step};
ghost use Rattle.ic_parts.specs.Book.{IsValidBook, core_of, notations_in};
ghost use Rattle.ic_parts.specs.Change.{book_changed_by, with_added_sheet, with_moved_sheet, with_removed_sheet, with_renamed_sheet};
ghost use Rattle.ic_parts.specs.Does.{Does, DoesOnly};
ghost use Rattle.ic_parts.specs.Fields.{no_fields};
ghost use Rattle.ic_changes.specs.LookUps.{LooksUpAdded, LooksUpNamed, LooksUpWithout};
ghost use Rattle.ic_parts.specs.Mentioned.{AtId, AtName, BindsAdded, BindsNamed, DanglesWithout};
ghost use Rattle.ic_parts.specs.Refused.{Refuses, RefusesOnly};

use crate::{BookError, Model};
use ic_changes::definitions::parts::bodies_without;
use ic_definitions::NamedDefinitions;
use ic_pool::SheetNamed;
use ic_refs::is_valid_sheet_name;

impl<'a> Model<'a> {
    /// Adds a sheet of this name at the end, with a fresh id and no cells. References that named no sheet, and whose name
    /// agrees, are references to it from then on.
    ///
    /// `InvalidSheetName`, `SheetExists`, `IdsUsedUp`, in this order, each exactly where it holds; `OutOfMemory` only
    /// where none of them does. An error changes nothing.
    pub fn add_sheet(&mut self, sheet_name: &str) -> Result<(), BookError>
        ensures does { Does sheet_step (sheets.AddSheet (chars sheet_name.now)) no_fields
            result self.old self.new }

        // What is bound by it is bound to it, and each other mention is what it was.
        ensures binds { OnOk result
            (BindsAdded (chars sheet_name.now) self.old.book self.new.book) }

        // A sheet's look-up of formulas is there as before where no mention of its formulas changed.
        ensures looks_up { OnOk result (LooksUpAdded (chars sheet_name.now) self.old self.new) }
    {
        self.append_sheet(sheet_name)
    }

    /// Gives the sheet at an index, from 0, another name. It keeps its id, and what refers to it refers to it under the new
    /// name. References that named no sheet, and whose name agrees with the new one, are references to it from then on.
    ///
    /// `InvalidSheetName`, `SheetExists` (another sheet's name agrees), `InvalidSheet`, in this order, each exactly where
    /// it holds; `OutOfMemory` only where none of them does. An error changes nothing.
    pub fn rename_sheet_by_index(
        &mut self,
        sheet_index: u32,
        new_name: &str,
    ) -> Result<(), BookError>
        ensures does { Does sheet_step
            (sheets.RenameSheetByIndex sheet_index (chars new_name.now)) no_fields
            result self.old self.new }

        // Each mention that found a sheet or a definition finds the same one, at the same place of the same formula.
        ensures found { OnOk result
            (BookKeepsFound (core_of self.old.book) (core_of self.new.book)) }

        // What is bound by it is bound to that sheet, and each other mention is what it was.
        ensures binds { OnOk result
            (BindsNamed sheet_index (chars new_name.now) self.old.book self.new.book) }

        // A sheet's look-up of formulas is there as before where no mention of its formulas changed.
        ensures looks_up { OnOk result
            (LooksUpNamed sheet_index (chars new_name.now) self.old self.new) }
    {
        self.rename_at(sheet_index as usize, new_name)
    }

    /// Gives the sheet whose name agrees another name, as `rename_sheet_by_index` does.
    ///
    /// `SheetNotFound` exactly where no sheet's name agrees with the old one; then `InvalidSheetName` and `SheetExists`
    /// (another sheet's name agrees), in this order; `OutOfMemory` only where none of them holds. An error changes nothing.
    pub fn rename_sheet(&mut self, old_name: &str, new_name: &str) -> Result<(), BookError>
        ensures does { Does sheet_step
            (sheets.RenameSheet (chars old_name.now) (chars new_name.now)) no_fields
            result self.old self.new }

        // Each mention that found a sheet or a definition finds the same one, at the same place of the same formula.
        ensures found { OnOk result
            (BookKeepsFound (core_of self.old.book) (core_of self.new.book)) }

        // What is bound by it is bound to that sheet, and each other mention is what it was.
        ensures binds { OnOk result (AtName (chars old_name.now) self.old.book
            (λ index. BindsNamed index (chars new_name.now) self.old.book self.new.book)) }

        // A sheet's look-up of formulas is there as before where no mention of its formulas changed.
        ensures looks_up { OnOk result (AtName (chars old_name.now) self.old.book
            (λ index. LooksUpNamed index (chars new_name.now) self.old self.new)) }
    {
        let Some(index) = self
            .contents
            .sheets
            .index_of_name(&self.names.sheets, old_name)
        else {
            return Err(BookError::SheetNotFound);
        };
        self.rename_at(index, new_name)
    }

    /// Puts the sheet at an index at another, both from 0; the others keep their order. Formulas stay as they are.
    ///
    /// `SheetIndexTooLarge` exactly where no sheet stands at the first index, then `TargetTooLarge` where none stands at
    /// the second; an error changes nothing. It takes no memory.
    pub fn move_sheet(&mut self, sheet_index: u32, new_index: u32) -> Result<(), BookError>
        ensures does { DoesOnly sheet_step (sheets.MoveSheet sheet_index new_index) no_fields
            result self.old self.new }
        ensures looks_up { OnOk result
            (self.new.has_all ≡ moved sheet_index new_index self.old.has_all) }

        // Each mention finds what it found.
        ensures found { OnOk result
            (IsMoved sheet_index new_index (core_of self.old.book) (core_of self.new.book)) }
    {
        self.move_at(sheet_index, new_index)
    }

    /// Takes the sheet at an index, from 0, out of the book. References to it name no sheet from then on: they keep its
    /// name, and find a sheet again when one of an agreeing name comes.
    ///
    /// `OnlySheet` exactly where there is one sheet, then `SheetIndexTooLarge` where none stands at the index;
    /// `OutOfMemory` only where neither holds. An error changes nothing.
    pub fn delete_sheet(&mut self, sheet_index: u32) -> Result<(), BookError>
        ensures does { Does sheet_step (sheets.DeleteSheet sheet_index) no_fields
            result self.old self.new }

        // What meant it dangles by its name, and each other mention is what it was.
        ensures dangles { OnOk result
            (DanglesWithout sheet_index self.old.book self.new.book) }

        // A sheet's look-up of formulas is there as before where no mention of its formulas changed.
        ensures looks_up { OnOk result (LooksUpWithout sheet_index self.old self.new) }
    {
        self.delete_at(sheet_index as usize)
    }

    /// Takes the sheet whose name agrees out of the book, as `delete_sheet` does.
    ///
    /// `SheetNotFound` exactly where no sheet's name agrees, then `OnlySheet` where there is one sheet; `OutOfMemory` only
    /// where neither holds. An error changes nothing.
    pub fn delete_sheet_by_name(&mut self, name: &str) -> Result<(), BookError>
        ensures does { Does sheet_step (sheets.DeleteSheetByName (chars name.now)) no_fields
            result self.old self.new }

        // What meant it dangles by its name, and each other mention is what it was.
        ensures dangles { OnOk result (AtName (chars name.now) self.old.book
            (λ index. DanglesWithout index self.old.book self.new.book)) }

        // A sheet's look-up of formulas is there as before where no mention of its formulas changed.
        ensures looks_up { OnOk result (AtName (chars name.now) self.old.book
            (λ index. LooksUpWithout index self.old self.new)) }
    {
        let Some(index) = self.contents.sheets.index_of_name(&self.names.sheets, name) else {
            return Err(BookError::SheetNotFound);
        };
        self.delete_at(index)
    }

    /// Takes the sheet with this id out of the book, as `delete_sheet` does.
    ///
    /// `SheetNotFound` exactly where no sheet has the id, then `OnlySheet` where there is one sheet; `OutOfMemory` only
    /// where neither holds. An error changes nothing.
    pub fn delete_sheet_by_sheet_id(&mut self, sheet_id: u32) -> Result<(), BookError>
        ensures does { Does sheet_step (sheets.DeleteSheetBySheetId sheet_id) no_fields
            result self.old self.new }

        // What meant it dangles by its name, and each other mention is what it was.
        ensures dangles { OnOk result (AtId sheet_id self.old.book
            (λ index. DanglesWithout index self.old.book self.new.book)) }

        // A sheet's look-up of formulas is there as before where no mention of its formulas changed.
        ensures looks_up { OnOk result (AtId sheet_id self.old.book
            (λ index. LooksUpWithout index self.old self.new)) }
    {
        let Some(index) = self.contents.sheets.index_of_id(sheet_id) else {
            return Err(BookError::SheetNotFound);
        };
        self.delete_at(index)
    }

    /// Adds a sheet of this name at the end.
    pub(crate) fn append_sheet(&mut self, sheet_name: &str) -> Result<(), BookError>
        ensures ok { OnOk result
            (self.new.book ≡ book_changed_by (with_added_sheet
            (chars sheet_name.now)) self.old.book) }
        ensures core { OnOk result (core_of self.new.book
            ≡ changed_by (notations_in self.old.book) (with_new_sheet (chars sheet_name.now))
            (core_of self.old.book)) }
        ensures binds { OnOk result
            (BindsAdded (chars sheet_name.now) self.old.book self.new.book) }
        ensures looks_up { OnOk result (LooksUpAdded (chars sheet_name.now) self.old self.new) }
        ensures refused { Refuses result
            (add_sheet_refusal (core_of self.old.book) (chars sheet_name.now)) }
        ensures err { OnErr result (self.new ≡ self.old) }
        ensures valid { IsValidBook self.old.book }
    {
        // What always holds of a model is known from here on.
        let _ = &self.contents;
        if !is_valid_sheet_name(sheet_name) {
            return Err(BookError::InvalidSheetName);
        }
        if self
            .contents
            .sheets
            .is_taken(&self.names.sheets, sheet_name)
        {
            return Err(BookError::SheetExists);
        }
        let Some(id) = self.get_new_sheet_id() else {
            return Err(BookError::IdsUsedUp);
        };
        let definitions = NamedDefinitions {
            definitions: &self.contents.definitions,
            places: &self.names.names,
        };
        let named = SheetNamed {
            id,
            name: sheet_name,
            definitions: &definitions,
        };
        let bodies = self.contents.definitions.prepare_dangling(&named)?;
        self.contents
            .sheets
            .add_sheet(&mut self.names.sheets, id, sheet_name, &definitions)?;
        self.contents.definitions.apply(bodies);
        Ok(())
    }

    /// Puts the sheet at an index at another.
    fn move_at(&mut self, sheet_index: u32, new_index: u32) -> Result<(), BookError>
        ensures ok { OnOk result
            (self.new.book ≡ with_moved_sheet sheet_index new_index self.old.book) }
        ensures looks_up { OnOk result
            (self.new.has_all ≡ moved sheet_index new_index self.old.has_all) }
        ensures core { OnOk result (core_of self.new.book ≡ record (core_of self.old.book) {
          sheets = moved sheet_index new_index (core_of self.old.book).sheets;
        }) }
        ensures found { OnOk result
            (IsMoved sheet_index new_index (core_of self.old.book) (core_of self.new.book)) }
        ensures refused { RefusesOnly result
            (move_refusal (core_of self.old.book) sheet_index new_index) }
        ensures err { OnErr result (self.new ≡ self.old) }
        ensures valid { IsValidBook self.old.book }
    {
        if sheet_index as usize >= self.contents.sheets.len() {
            return Err(BookError::SheetIndexTooLarge);
        }
        if new_index as usize >= self.contents.sheets.len() {
            return Err(BookError::TargetTooLarge);
        }
        self.contents
            .sheets
            .move_to(sheet_index as usize, new_index as usize);
        Ok(())
    }

    /// Renames the sheet at an index.
    fn rename_at(&mut self, index: usize, new_name: &str) -> Result<(), BookError>
        ensures ok { OnOk result (self.new.book ≡ book_changed_by (with_renamed_sheet index
            (chars new_name.now)) self.old.book) }
        ensures core { OnOk result (core_of self.new.book ≡ changed_by
            (notations_in self.old.book) (with_sheet_name index (chars new_name.now))
            (core_of self.old.book)) }
        ensures found { OnOk result (BookKeepsFound (core_of self.old.book)
            (core_of self.new.book)) }
        ensures binds { OnOk result
            (BindsNamed index (chars new_name.now) self.old.book self.new.book) }
        ensures looks_up { OnOk result (LooksUpNamed index (chars new_name.now) self.old self.new) }
        ensures refused { Refuses result (rename_refusal (core_of self.old.book) index
            (chars new_name.now)) }
        ensures err { OnErr result (self.new ≡ self.old) }
        ensures valid { IsValidBook self.old.book }
    {
        // What always holds of a model is known from here on.
        let _ = &self.contents;
        if !is_valid_sheet_name(new_name) {
            return Err(BookError::InvalidSheetName);
        }
        let ids = &self.names.sheets;
        if self.contents.sheets.is_taken_by_other(ids, index, new_name) {
            return Err(BookError::SheetExists);
        }
        if index >= self.contents.sheets.len() {
            return Err(BookError::InvalidSheet);
        }
        let definitions = NamedDefinitions {
            definitions: &self.contents.definitions,
            places: &self.names.names,
        };
        let named = SheetNamed {
            id: self.contents.sheets.as_slice()[index].as_ref().id,
            name: new_name,
            definitions: &definitions,
        };
        let bodies = self.contents.definitions.prepare_dangling(&named)?;
        self.names
            .numbers
            .lose_sheet(self.alloc, &self.contents.sheets, index);
        self.contents
            .sheets
            .rename_sheet(&mut self.names.sheets, index, new_name, &definitions)?;
        self.contents.definitions.apply(bodies);
        Ok(())
    }

    /// Takes the sheet at an index out.
    fn delete_at(&mut self, index: usize) -> Result<(), BookError>
        ensures ok { OnOk result (self.new.book ≡ book_changed_by
            (with_removed_sheet index) self.old.book) }
        ensures core { OnOk result (core_of self.new.book ≡ changed_by
            (notations_in self.old.book) (without_sheet index) (core_of self.old.book)) }
        ensures dangles { OnOk result (DanglesWithout index self.old.book self.new.book) }
        ensures looks_up { OnOk result (LooksUpWithout index self.old self.new) }
        ensures refused { Refuses result (delete_refusal (core_of self.old.book) index) }
        ensures err { OnErr result (self.new ≡ self.old) }
        ensures valid { IsValidBook self.old.book }
    {
        if self.contents.sheets.len() == 1 {
            return Err(BookError::OnlySheet);
        }
        if index >= self.contents.sheets.len() {
            return Err(BookError::SheetIndexTooLarge);
        }
        let bodies = bodies_without(&self.contents, &self.names.names, index)?;
        self.names
            .numbers
            .lose_sheet(self.alloc, &self.contents.sheets, index);
        let definitions = NamedDefinitions {
            definitions: &self.contents.definitions,
            places: &self.names.names,
        };
        self.contents
            .sheets
            .delete_sheet(&mut self.names.sheets, index, &definitions)?;
        self.contents.definitions.apply(bodies);
        Ok(())
    }
}
