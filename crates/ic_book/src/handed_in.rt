//! A book that is made of a workbook which is handed in as plain records.
ghost use Rattle.std.specs.Prelude.{◌≡◌, None, Some, IfErr, IfOk, OnOk, chars, false, map};
ghost use Rattle.ic_tables.specs.Tables.{IsWellFormed, language_of, locale_of};
ghost use Rattle.ic_workbooks.specs.Asked.{IsTakenIn, TellsFirst, TellsHandedIn};
ghost use Rattle.ic_parts.specs.Book.{whole_of};
ghost use Rattle.ic_workbooks.specs.HandedIn.{MeetsAll, book_of, notation_refusal};

use crate::{BookError, Model, Notation};
use ic_cells::Workbook;
use ic_laws::Text;
use ic_parts::copies::copy_styles;
use ic_parts::lists::Lists;
use ic_tables::{Language, NamedLocale, Tables};
use ic_workbooks::asked::sheets::ask_sheets;
use ic_workbooks::handed_in::{about_of, contents_of, memory_of};
use ic_workbooks::numbered::number_texts;

impl<'a> Model<'a> {
    /// A book of what plain records hold, as `workbook` gives them, in a language. Nothing of the records stays in it: they
    /// are copied. Of shared strings, each text is kept once. No look-up of formulas is there yet.
    ///
    /// The records are asked for twelve conditions, one after another; of the formulas and the bodies it is asked that each
    /// text is one that `workbook` could give. `docs/GUIDE.md` lists them.
    ///
    /// `InvalidLocale`, `InvalidTimezone`, `InvalidLanguage`, in this order, exactly where the tables lack the locale or the
    /// zone of the records, or the language; then `BadWorkbook` with the number of the first condition that isn't met;
    /// `OutOfMemory` only where the tables lack none of them.
    pub fn from_workbook(
        workbook: Workbook,
        language_id: &str,
        tables: &'a Tables,
    ) -> Result<Model<'a>, BookError>
        ensures ok { IfOk result (λ m. whole_of m.book
            ≡ book_of workbook (chars language_id.now) tables.now) }
        ensures taken { OnOk result
            (IsTakenIn workbook (chars language_id.now) tables.now) }
        ensures looks_up { IfOk result (λ m. m.has_all ≡ map (λ s. false) workbook.worksheets) }
        ensures err { IfErr result
            (TellsHandedIn workbook (chars language_id.now) tables.now) }
    {
        let Ok(locale) = tables.get_named_locale(workbook.settings.locale.as_str()) else {
            return Err(BookError::InvalidLocale);
        };
        let Some(zone) = tables.get_zone(workbook.settings.tz.as_str()) else {
            return Err(BookError::InvalidTimezone);
        };
        let Ok(language) = tables.get_language(language_id) else {
            return Err(BookError::InvalidLanguage);
        };
        from_records(&workbook, tables, locale, language, zone)
    }
}

/// A book of what records hold, with these entries of the tables in force.
fn from_records<'a>(
    workbook: &Workbook,
    tables: &'a Tables,
    locale: &'a NamedLocale,
    language: &'a Language,
    zone: &'a Text,
) -> Result<Model<'a>, BookError>
    requires locale { locale.now.id ≡ workbook.now.settings.locale }
    requires locale_there { locale_of tables.now locale.now.id ≡ Some locale.now }
    requires language_there { language_of tables.now language.now.code ≡ Some language.now }
    requires zone { zone.now ≡ workbook.now.settings.tz }
    requires well_formed { IsWellFormed tables.now }
    requires free { notation_refusal workbook.now language.now.code tables.now ≡ None }
    ensures ok { IfOk result (λ m. whole_of m.book
        ≡ book_of workbook.now language.now.code tables.now) }
    ensures met { OnOk result (MeetsAll workbook.now language.now.code tables.now) }
    ensures looks_up { IfOk result (λ m. m.has_all ≡ map (λ s. false) workbook.now.worksheets) }
    ensures err { IfErr result (TellsFirst workbook.now tables.now) }
{
    let alloc = memory_of(workbook.worksheets.as_slice())?;
    let texts = workbook.shared_strings.as_slice();
    let numbered = number_texts(alloc, texts)?;
    let numbers = numbered.numbers.as_slice();
    let (contents, names) = contents_of(alloc, tables, workbook, numbers)?;
    let sheets = contents.sheets.as_slice();
    ask_sheets(workbook, sheets)?;
    let styles = copy_styles(alloc, &workbook.styles)?;
    let about = about_of(alloc, workbook, zone)?;
    let strings = numbered.into_strings();
    Ok(Model {
        alloc,
        notation: Notation::new(tables, locale, language),
        contents,
        names,
        lists: Lists { styles, strings },
        about,
    })
}
