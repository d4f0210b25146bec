//! Copies of sheets.
ghost use Rattle.std.specs.Prelude.{◌≡◌, ◌<◌, IfOk, IfSome, OnErr, OnOk, Some, chars, length, string_bytes, true};
ghost use Rattle.std.specs.List.{slice_get};
ghost use Rattle.ic_laws.specs.CoreBook.{fresh_id};
ghost use Rattle.ic_laws.specs.Name.{is_sheet_name};
ghost use Rattle.ic_sheets.specs.Sheet.{Sheet};
ghost use Rattle.ic_machine.specs.subjects.Sheets as sheets;
ghost use Rattle.ic_machine.specs.subjects.Sheets.{copy_name, name_of_copy, sheet_step};
ghost use Rattle.ic_parts.specs.Book.{IsValidBook, core_of};
ghost use Rattle.ic_parts.specs.Change.{book_changed_by};
ghost use Rattle.ic_changes.specs.Copied.{BindsCopied, LooksUpCopied, MeansCopied, definitions_copied, sheet_copied, with_copied_sheet};
ghost use Rattle.ic_parts.specs.Does.{Does};
ghost use Rattle.ic_parts.specs.Fields.{named_sheet_fields};
ghost use Rattle.ic_parts.specs.SheetNames.{IsNumbered};
ghost use Rattle.ic_parts.specs.Whole.{whole_of};

use crate::{BookError, Model};
use ic_changes::sheet_copies::copy_sheet;
use ic_laws::OutOfMemory;
use ic_parts::sheet_names::{NumberedName, free_name};

impl<'a> Model<'a> {
    /// Puts a copy of the sheet at an index, from 0, in directly after it, and answers its name and its index, from 0. The
    /// name is that of the sheet and the least number, in brackets, with which no sheet has it, and is cut before the number
    /// so that it has at most 31 characters.
    ///
    /// The copy has a fresh id, the sheet's cells, formulas, rows, columns and merged cells, and its tab. The definitions
    /// that are local to the sheet are copied with it, and so are those that are local to none and mention it, where it has
    /// none of an agreeing name: all are local to the copy. What mentioned the sheet in a copied formula or body mentions
    /// the copy, and a word there means the copied definition of an agreeing name, where there is one. References that named
    /// no sheet, and whose name agrees with that of the copy, are references to it from then on.
    ///
    /// `InvalidSheet`, `IdsUsedUp`, in this order, each exactly where it holds; `OutOfMemory` only where neither does. An
    /// error changes nothing.
    pub fn duplicate_sheet(&mut self, source_index: u32) -> Result<(String, u32), BookError>
        ensures does { Does sheet_step (sheets.DuplicateSheet source_index) named_sheet_fields
            result self.old self.new }

        // It is a name that a sheet may have, with a number that is at most one more than there were sheets.
        ensures named { IfOk result (λ r. is_sheet_name (chars (string_bytes r.0)) ≡ true) }
        ensures numbered { IfOk result (λ r. IfSome (slice_get self.old.book.sheets source_index)
            (λ source. IsNumbered (length self.old.book.sheets) (copy_name source.name)
            (chars (string_bytes r.0)))) }

        // What is bound by it is bound to it, and each other mention is what it was.
        ensures binds { OnOk result (BindsCopied source_index self.old.book self.new.book) }

        // The copied formulas mean what they meant, but that they mean the copy and what was copied with it.
        ensures means { OnOk result (MeansCopied source_index self.old.book self.new.book) }

        // A sheet's look-up of formulas is there as before where no mention of its formulas changed; that of the copy isn't.
        ensures looks_up { OnOk result (LooksUpCopied source_index self.old self.new) }
    {
        let index = source_index as usize;
        if index >= self.contents.sheets.len() {
            return Err(BookError::InvalidSheet);
        }
        let Some(id) = self.get_new_sheet_id() else {
            return Err(BookError::IdsUsedUp);
        };
        let name = self.name_of_copy(index)?;
        self.copy_at(index, id, name.as_str())?;
        Ok((name, source_index + 1))
    }

    /// The name that a copy of the sheet at an index gets.
    fn name_of_copy(&mut self, index: usize) -> Result<String, OutOfMemory>
        requires { index < length self.old.book.sheets }
        ensures named { IfOk result (λ name. (source : Sheet)
            → slice_get self.old.book.sheets index ≡ Some source
            → chars (string_bytes name) ≡ name_of_copy (whole_of self.old.book) source.name) }
        ensures same { self.new ≡ self.old }
    {
        // What always holds of a model is known from here on.
        let _ = &self.contents;
        let source = self.contents.sheets.as_slice()[index].as_ref();
        let name = NumberedName::Copy(source.name.as_str());
        let sheets = &self.contents.sheets;
        let taken = &mut self.names.numbers;
        free_name(self.alloc, sheets, &self.names.sheets, taken, &name)
    }

    /// Puts a copy of the sheet at an index in, with this id, which is the fresh one, and this name.
    fn copy_at(&mut self, index: usize, id: u32, name: &str) -> Result<(), OutOfMemory>
        requires within { index < length self.old.book.sheets }
        requires fresh { fresh_id (core_of self.old.book) ≡ Some id }
        requires named { (source : Sheet) → slice_get self.old.book.sheets index ≡ Some source
            → chars name.now ≡ name_of_copy (whole_of self.old.book) source.name }
        ensures ok { OnOk result ((source : Sheet)
            → slice_get self.old.book.sheets index ≡ Some source
            → self.new.book ≡ book_changed_by (with_copied_sheet index
            (sheet_copied self.old.book index source)
            (definitions_copied self.old.book index source)) self.old.book) }
        ensures looks_up { OnOk result (LooksUpCopied index self.old self.new) }
        ensures err { OnErr result (self.new ≡ self.old) }
        ensures valid { IsValidBook self.old.book }
    {
        // What always holds of a model is known from here on.
        let _ = &self.contents;
        let english = self.notation.get_default_language();
        copy_sheet(
            self.alloc,
            &mut self.contents,
            &mut self.names,
            english,
            index,
            id,
            name,
        )?;
        Ok(())
    }
}
