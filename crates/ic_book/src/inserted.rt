//! Sheets are put in among the others.
ghost use Rattle.std.specs.Prelude.{◌≡◌, [], ◌∷◌, IfOk, None, OnErr, OnOk, Some, chars, is_none};
ghost use Rattle.ic_machine.specs.Refusal.{IdLive, IdsUsedUp, first_refusal};
ghost use Rattle.ic_machine.specs.subjects.Sheets as sheets;
ghost use Rattle.ic_machine.specs.subjects.Sheets.{chosen_id, insert_causes, is_live, sheet_step};
ghost use Rattle.ic_parts.specs.Book.{IsValidBook, core_of};
ghost use Rattle.ic_parts.specs.Change.{book_changed_by, with_inserted_sheet};
ghost use Rattle.ic_parts.specs.Does.{Does};
ghost use Rattle.ic_parts.specs.Fields.{no_fields};
ghost use Rattle.ic_changes.specs.LookUps.{LooksUpInserted};
ghost use Rattle.ic_parts.specs.Mentioned.{AtChosen, BindsInserted};
ghost use Rattle.ic_parts.specs.Refused.{TellsOnly};
ghost use Rattle.ic_parts.specs.Whole.{whole_of};

use crate::{BookError, Model};
use ic_definitions::NamedDefinitions;
use ic_laws::OutOfMemory;
use ic_pool::SheetNamed;
use ic_refs::is_valid_sheet_name;

impl<'a> Model<'a> {
    /// Puts a sheet of this name and without cells in at an index, from 0 and at most the number of sheets, so that those
    /// from there on stand one further. It has the id that is given, else a fresh one. References that named no sheet, and
    /// whose name agrees, are references to it from then on.
    ///
    /// `InvalidSheetName`, `SheetExists`, `OutOfRange` (the index is past the end), `IdLive` (the id is 0 or a sheet's),
    /// `IdsUsedUp`, in this order, each exactly where it holds; `OutOfMemory` only where none of them does. An error changes
    /// nothing.
    pub fn insert_sheet(
        &mut self,
        sheet_name: &str,
        sheet_index: u32,
        sheet_id: Option<u32>,
    ) -> Result<(), BookError>
        ensures does { Does sheet_step
            (sheets.InsertSheet (chars sheet_name.now) sheet_index sheet_id) no_fields
            result self.old self.new }

        // What is bound by it is bound to it, and each other mention is what it was.
        ensures binds { OnOk result (AtChosen sheet_id self.old.book
            (λ id. BindsInserted sheet_index id (chars sheet_name.now)
            self.old.book self.new.book)) }

        // A sheet's look-up of formulas is there as before where no mention of its formulas changed.
        ensures looks_up { OnOk result (AtChosen sheet_id self.old.book
            (λ id. LooksUpInserted sheet_index id (chars sheet_name.now) self.old self.new)) }
    {
        let index = sheet_index as usize;
        let id = self.id_to_insert(sheet_name, index, sheet_id)?;
        self.insert_at(index, id, sheet_name)?;
        Ok(())
    }

    /// The id that a sheet of this name gets which is put in at an index, or why none is.
    fn id_to_insert(&self, name: &str, index: usize, given: Option<u32>) -> Result<u32, BookError>
        ensures id { IfOk result (λ id. chosen_id (core_of self.now.book) given ≡ Some id) }
        ensures refused { TellsOnly result (first_refusal
            (insert_causes (whole_of self.now.book) (chars name.now) index given)) }
        ensures valid { IsValidBook self.now.book }
    {
        // What always holds of a model is known from here on.
        let _ = &self.contents;
        if !is_valid_sheet_name(name) {
            return Err(BookError::InvalidSheetName);
        }
        if self.contents.sheets.is_taken(&self.names.sheets, name) {
            return Err(BookError::SheetExists);
        }
        if index > self.contents.sheets.len() {
            return Err(BookError::OutOfRange);
        }
        self.id_for(given)
    }

    /// The id that a new sheet gets: the one that is given, which must be above 0 and no sheet's, else a fresh one.
    fn id_for(&self, given: Option<u32>) -> Result<u32, BookError>
        ensures id { IfOk result (λ id. chosen_id (core_of self.now.book) given ≡ Some id) }
        ensures refused { TellsOnly result (first_refusal
            ((is_live (core_of self.now.book) given, IdLive)
            ∷ (is_none (chosen_id (core_of self.now.book) given), IdsUsedUp) ∷ [])) }
    {
        let Some(id) = given else {
            let Some(fresh) = self.get_new_sheet_id() else {
                return Err(BookError::IdsUsedUp);
            };
            return Ok(fresh);
        };
        if self.is_live(id) {
            return Err(BookError::IdLive);
        }
        Ok(id)
    }

    /// Whether an id is 0 or a sheet's.
    fn is_live(&self, id: u32) -> bool
        ensures { result ≡ is_live (core_of self.now.book) (Some id) }
    {
        id == 0 || self.contents.sheets.has_id(id)
    }

    /// Puts a sheet of this name and with this id in at an index, which nothing must refuse.
    fn insert_at(&mut self, index: usize, id: u32, name: &str) -> Result<(), OutOfMemory>
        requires { first_refusal (insert_causes (whole_of self.old.book) (chars name.now) index
            (Some id)) ≡ None }
        ensures ok { OnOk result (self.new.book ≡ book_changed_by
            (with_inserted_sheet index id (chars name.now)) self.old.book) }
        ensures binds { OnOk result
            (BindsInserted index id (chars name.now) self.old.book self.new.book) }
        ensures looks_up { OnOk result
            (LooksUpInserted index id (chars name.now) self.old self.new) }
        ensures err { OnErr result (self.new ≡ self.old) }
    {
        // What always holds of a model is known from here on.
        let _ = &self.contents;
        let definitions = NamedDefinitions {
            definitions: &self.contents.definitions,
            places: &self.names.names,
        };
        let named = SheetNamed {
            id,
            name,
            definitions: &definitions,
        };
        let bodies = self.contents.definitions.prepare_dangling(&named)?;
        self.contents
            .sheets
            .insert_sheet(&mut self.names.sheets, index, id, name, &definitions)?;
        self.contents.definitions.apply(bodies);
        Ok(())
    }
}
