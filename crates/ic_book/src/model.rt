ghost use Rattle.std.specs.Prelude.{◌≡◌, ◌<◌, [], ◌∷◌, Ok, Some, true, chars, All, IfOk, IfSome, option_map, option_and_then};
ghost use Rattle.std.specs.List.{slice_get};
ghost use Rattle.ic_laws.specs.CoreBook.{fresh_id, used_ids};
ghost use Rattle.ic_laws.specs.Notations.{AreNotations};
ghost use Rattle.ic_laws.specs.ValidCore.{IsPooled};
ghost use Rattle.ic_parts.specs.Book.{IsValidBook, core_of, first_sheet_name_in, metadata_made, new_book, new_book_refusal, notations_in, scene_in};
ghost use Rattle.ic_parts.specs.Does.{DoesOnly};
ghost use Rattle.ic_parts.specs.Fields.{scope_field};
ghost use Rattle.ic_parts.specs.Refused.{Refuses};
ghost use Rattle.ic_machine.specs.subjects.Sheets.{GetNewSheetId, sheet_step};
ghost use Rattle.ic_cells.specs.Style.{default_style};
ghost use Rattle.ic_sheets.specs.Index.{FindsSheets};
ghost use Rattle.ic_sheets.specs.Sheet.{empty_grid, plain_tab};

use crate::{BookError, NameIndex, Notation};
use ic_cells::{SharedStrings, Styles};
use ic_definitions::Definitions;
use ic_laws::{Finder, Formula, OutOfMemory, Text};
use ic_parts::about::{About, metadata_made};
use ic_parts::contents::Contents;
use ic_parts::lists::Lists;
use ic_parts::scene::BookScene;
use ic_parts::sheet_names::{NumberedName, base_name, put_name};
use ic_parts::taken_numbers::TakenNumbers;
use ic_sheets::Sheets;
use ic_tables::{Language, Tables};
use jiff::Timestamp;
use std::alloc::Global;
use std::collections::BTreeMap;
use std::marker;

/// A workbook. It borrows the tables that it is read and shown by.
pub struct Model<'a> {
    pub(crate) alloc: Global,
    pub(crate) notation: Notation<'a>,
    pub(crate) contents: Contents,
    pub(crate) names: NameIndex,
    pub(crate) lists: Lists,
    pub(crate) about: About<'a>,
}

impl Drop for Model<'_> {
    fn drop(self) {
        let Self {
            alloc,
            notation,
            contents,
            names,
            lists,
            about,
        } = self;
        drop(alloc);
        drop(notation);
        drop(contents);
        drop(names);
        drop(lists);
        drop(about);
    }
}

impl<'a> marker::Model for Model<'a> {
    ghost use Rattle.ic_parts.specs.Book.{ModelState};
    ghost use Rattle.ic_book.specs.Inside.{IsKept, held_state};

    ghost Value = { ModelState };

    ghost use Rattle.std.specs.Coded.{codes};
    ghost use Rattle.ic_laws.specs.contracts.tree.Formula as formula;
    ghost use Rattle.ic_cells.specs.contracts.style.Style as style;
    ghost use Rattle.ic_grid.specs.contracts.grid.Grid as grid;
    ghost use Rattle.ic_sheets.specs.contracts.tab.Tab as tab;

    ghost coded = { Prim.hlevel (codes, formula.the_row.coded, style.the_row.coded, grid.the_row.coded, tab.the_row.coded) };

    ghost view = { held_state };

    ghost invariant = { IsKept };
}

impl<'a> Model<'a> {
    /// A new book with one sheet, which has the id 1 and the number 1 in its name. `moment` is when it is made.
    ///
    /// `InvalidTimezone`, `InvalidLocale`, `InvalidLanguage`, in this order, exactly where the tables lack the zone,
    /// the locale or the language; `OutOfMemory` only where none of them holds.
    pub fn new_empty(
        alloc: Global,
        name: &str,
        locale_id: &str,
        timezone: &str,
        language_id: &str,
        tables: &'a Tables,
        moment: Timestamp,
    ) -> Result<Model<'a>, BookError>
        ensures start { IfOk result (λ m. m.book ≡ new_book (chars name.now) (chars locale_id.now)
            (chars timezone.now) (chars language_id.now) m.book.metadata.created tables.now) }
        ensures looks_up { IfOk result (λ m. m.has_all ≡ true ∷ []) }
        ensures refused { Refuses result (new_book_refusal (chars locale_id.now)
            (chars timezone.now) (chars language_id.now) tables.now) }
    {
        let Some(zone) = tables.get_zone(timezone) else {
            return Err(BookError::InvalidTimezone);
        };
        let Ok(locale) = tables.get_named_locale(locale_id) else {
            return Err(BookError::InvalidLocale);
        };
        let Ok(language) = tables.get_language(language_id) else {
            return Err(BookError::InvalidLanguage);
        };
        let (sheets, ids) = first_sheet(alloc, language)?;
        let about = about(alloc, name, zone, moment)?;
        let lists = lists(alloc)?;
        Ok(Model {
            alloc,
            notation: Notation::new(tables, locale, language),
            contents: Contents {
                sheets,
                definitions: Definitions::new(alloc),
            },
            names: NameIndex {
                sheets: ids,
                names: BTreeMap::new(alloc),
                numbers: TakenNumbers::new(alloc),
            },
            lists,
            about,
        })
    }

    /// When it was made, as `Timestamp` displays it.
    pub fn created(&self) -> &Text
        ensures { result.now ≡ self.now.book.metadata.created }
    {
        &self.about.metadata.created
    }

    /// The id of the next new sheet: one more than the greatest id in use, of a sheet or of a definition that is local to
    /// one, also where that sheet is gone. None exactly where that is the last one, 4,294,967,295. It takes no memory.
    pub fn get_new_sheet_id(&self) -> Option<u32>
        ensures does { DoesOnly sheet_step GetNewSheetId scope_field (Ok result) self.now self.now }
        ensures fresh { result ≡ fresh_id (core_of self.now.book) }
        ensures unused { IfSome result (λ id. All (λ used. used < id) (used_ids
            (core_of self.now.book))) }
    {
        let greatest = self
            .contents
            .sheets
            .greatest_id()
            .max(self.contents.definitions.greatest_scope());
        greatest.checked_add(1)
    }

    /// What the formulas of the book can mention.
    pub(crate) fn scene<'b>(&'b self) -> BookScene<'b>
        ensures { ⟦<BookScene<'b> as Finder>⟧.scene result ≡ scene_in self.now.book }
    {
        BookScene::new(&self.contents, &self.names)
    }

    /// The formula at an index of the formulas that the sheet at an index keeps, both from 0. None exactly where there is
    /// no such sheet or no such place.
    pub fn parsed_formula(&self, sheet: u32, index: usize) -> Option<&Formula>
        ensures formula { option_map (λ f. f.now) result ≡ option_and_then
            (λ s. slice_get s.pool index) (slice_get self.now.book.sheets sheet) }

        // It is settled in its sheet, so that `shared_formula_index` takes it for that sheet.
        ensures pooled { IfSome result (λ f. IfSome (slice_get self.now.book.sheets sheet)
            (λ s. IsPooled (notations_in self.now.book) (scene_in self.now.book)
            (Some s.id) f.now)) }

        // What the laws on books ask of a book and its notations.
        ensures valid { IsValidBook self.now.book }
        ensures notations { AreNotations (notations_in self.now.book) }
    {
        let worksheet = self.contents.sheets.get(sheet as usize)?;
        worksheet.pool.get(index)
    }

    /// The body of the definition at an index of the book's definitions, from 0. None exactly where there is no such
    /// definition. It takes no memory.
    pub fn parsed_definition(&self, index: usize) -> Option<&Formula>
        ensures { option_map (λ f. f.now) result ≡ option_map (λ d. d.body)
            (slice_get self.now.book.definitions index) }
    {
        let definition = self.contents.definitions.as_slice().get(index)?;
        Some(definition.body())
    }
}

/// The sheets of a new book, one, with the id 1, named by the language, and what finds it by its name.
fn first_sheet(
    alloc: Global,
    language: &Language,
) -> Result<(Sheets, BTreeMap<String, u32>), OutOfMemory>
    ensures sheets { IfOk result (λ made. made.0
        ≡ record {
          id = 1;
          name = first_sheet_name_in language.now.code;
          pool
              = record { formulas = []; is_whole = true };
          grid = empty_grid;
          tab = plain_tab;
        }
        ∷ []) }
    ensures finds { IfOk result (λ made. FindsSheets made.1 made.0) }
{
    let base = NumberedName::Word(base_name(&language.code));
    let mut name = String::new(alloc);
    put_name(&mut name, &base, 1)?;
    let mut sheets = Sheets::new(alloc);
    let mut ids = BTreeMap::new(alloc);
    sheets.add_leaving_formulas(&mut ids, 1, name.as_str())?;
    Ok((sheets, ids))
}

/// The lists of a new workbook: the default style, no shared strings.
fn lists(alloc: Global) -> Result<Lists, OutOfMemory>
    ensures { IfOk result (λ lists. lists ≡ record { styles = default_style ∷ []; strings = [] }) }
{
    Ok(Lists {
        styles: Styles::new(alloc)?,
        strings: SharedStrings::new(alloc),
    })
}

/// What a new workbook of this name has beside them: a theme without a name.
fn about<'a>(
    alloc: Global,
    name: &str,
    zone: &'a Text,
    moment: Timestamp,
) -> Result<About<'a>, OutOfMemory>
    ensures { IfOk result (λ about. about ≡ record {
      name = chars name.now;
      zone = zone.entry;
      theme = [];
      metadata = metadata_made about.metadata.created;
    }) }
{
    let name = Text::from_str(alloc, name)?;
    let metadata = metadata_made(alloc, moment_text(alloc, moment)?)?;
    Ok(About {
        name,
        zone,
        theme: Text::from(String::new(alloc)),
        metadata,
    })
}

/// The moment as `Timestamp` displays it.
fn moment_text(alloc: Global, moment: Timestamp) -> Result<Text, OutOfMemory> {
    Ok(Text::from(moment.to_string(alloc)?))
}
