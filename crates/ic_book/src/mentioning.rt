//! Where a sheet or a definition is mentioned: in which cells, and in the bodies of which definitions.
ghost use Rattle.std.specs.Prelude.{◌≡◌, chars, is_some, map, option_map, IfOk, IfSome};
ghost use Rattle.std.specs.List.{slice_get};
ghost use Rattle.ic_laws.specs.CoreStep.{has_definition, index_of_name};
ghost use Rattle.ic_laws.specs.Name.{fold};
ghost use Rattle.ic_machine.specs.Sites.{name_sites_refusal, passing_sites, sheet_sites_refusal, sites_of_name_in, sites_of_sheet_at};
ghost use Rattle.ic_parts.specs.Book.{core_of, whole_of};
ghost use Rattle.ic_changes.specs.Mentioning.{mentions};
ghost use Rattle.ic_parts.specs.Refused.{Refuses};
ghost use Rattle.ic_parts.specs.Sites.{site_of};

use crate::{BookError, MentionSite, Model};
use ic_changes::mentioning::{Sought, sites_in};
use ic_definitions::NamedDefinitions;
use ic_laws::{NameKey, OutOfMemory};
use ic_sheets::Sheet;

impl<'a> Model<'a> {
    /// The cells and the definitions that mention the sheet at an index, from 0: in a reference, or before a word that is
    /// looked up there. Cells come by the order of sheets, rows and columns, then definitions in the order of the book, those
    /// too that are local to a sheet which is gone; each comes once.
    ///
    /// `InvalidSheet` exactly where no sheet stands at the index; `OutOfMemory` only where one does.
    pub fn sites_of_sheet(&self, sheet: u32) -> Result<Vec<MentionSite>, BookError>
        ensures sites { IfOk result (λ sites. map site_of sites.items
            ≡ sites_of_sheet_at sheet (whole_of self.now.book)) }
        ensures refused { Refuses result (sheet_sites_refusal (core_of self.now.book) sheet) }
    {
        let Some(id) = self.id_at(sheet) else {
            return Err(BookError::InvalidSheet);
        };
        Ok(self.sites_where(&Sought::Sheet(id))?)
    }

    /// The cells and the definitions that mention the definition of an agreeing name that is local to the sheet at an index,
    /// from 0, or to none, by words that mean it, in the same order. One for all sheets isn't found by an index.
    ///
    /// `InvalidScope` exactly where no sheet stands at the index, then `NameNotFound` where there is no such definition;
    /// `OutOfMemory` only where neither holds.
    pub fn sites_of_name(
        &self,
        name: &str,
        scope: Option<u32>,
    ) -> Result<Vec<MentionSite>, BookError>
        ensures sites { IfOk result (λ sites. map site_of sites.items
            ≡ sites_of_name_in (chars name.now) scope (whole_of self.now.book)) }
        ensures refused { Refuses result (name_sites_refusal (core_of self.now.book)
            (chars name.now) scope) }
    {
        let Some(id) = self.scope_id(scope) else {
            return Err(BookError::InvalidScope);
        };
        let Some(key) = self.key_named(name, id) else {
            return Err(BookError::NameNotFound);
        };
        Ok(self.sites_where(&Sought::Name(key))?)
    }

    /// The index of the sheet of an agreeing name, from 0. None exactly where there is none. It takes no memory.
    pub fn index_of_sheet(&self, name: &str) -> Option<u32>
        ensures { result ≡ index_of_name (core_of self.now.book) (chars name.now) }
    {
        let index = self
            .contents
            .sheets
            .index_of_name(&self.names.sheets, name)?;
        Some(index as u32)
    }

    /// The cells and the definitions that mention what is looked for.
    fn sites_where(&self, sought: &Sought<'_>) -> Result<Vec<MentionSite>, OutOfMemory>
        ensures { IfOk result (λ sites. map site_of sites.items
            ≡ passing_sites (mentions sought.now) (whole_of self.now.book)) }
    {
        sites_in(self.alloc, &self.contents, sought)
    }

    /// The id of the sheet at an index. None exactly where no sheet stands there.
    fn id_at(&self, sheet: u32) -> Option<u32>
        ensures { result ≡ option_map (λ s. s.id) (slice_get self.now.book.sheets sheet) }
    {
        let found = self.contents.sheets.get(sheet as usize)?;
        Some(found.id)
    }

    /// The key of the definition of an agreeing name that is local to the sheet with this id, or to none. None exactly where
    /// there is no such definition.
    fn key_named(&self, name: &str, id: Option<u32>) -> Option<&NameKey>
        ensures key { IfSome result (λ key. key.now
            ≡ record { name = fold (chars name.now); scope = id }) }
        ensures found { is_some result
            ≡ has_definition (core_of self.now.book) (chars name.now) id }
    {
        let definitions = NamedDefinitions {
            definitions: &self.contents.definitions,
            places: &self.names.names,
        };
        let index = definitions.index_of(name, id)?;
        let definition = &self.contents.definitions.as_slice()[index];
        Some(definition.key())
    }
}
