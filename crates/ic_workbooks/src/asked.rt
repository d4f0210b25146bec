//! The conditions on the sheets' number, names and ids and on the definitions' names and scopes, which are asked of a workbook
//! that is handed in before any of its formulas is read. Each step asks for one condition.
ghost use Rattle.std.specs.Prelude.{◌≡◌, ◌≤◌, ℕ, List, IfErr, IfOk, MatchResult, OnOk, length, map};
ghost use Rattle.std.specs.List.{list_all};
ghost use Rattle.ic_laws.specs.CoreBook.{last_id};
ghost use Rattle.ic_laws.specs.Name.{is_sheet_name};
ghost use Rattle.ic_tables.specs.Tables.{TableSet};
ghost use Rattle.ic_sheets.specs.Index.{FindsSheets};
ghost use Rattle.ic_sheets.specs.Records.{HasApartNames, HasIds, started};
ghost use Rattle.ic_workbooks.specs.Asked.{Breaks, HasCount, HasNames, MeetsTo, TellsFirst, unread};
ghost use Rattle.ic_parts.specs.Names.{IsIndexed};

pub mod definitions;
pub mod sheets;

use crate::asked::definitions::ask_definitions;
use ic_cells::{Workbook, Worksheet};
use ic_parts::contents::Contents;
use ic_parts::taken_numbers::TakenNumbers;
use ic_parts::{BookError, NameIndex};
use ic_refs::is_valid_sheet_name;
use ic_sheets::{Sheets, has_apart_names, sheets_of};
use std::alloc::Global;
use std::collections::BTreeMap;

/// Asks for the first four conditions, one after another; then gives the sheets and the definitions, which hold nothing yet,
/// and what finds them by their names.
pub fn ask_contents(alloc: Global, workbook: &Workbook) -> Result<(Contents, NameIndex), BookError>
    ensures sheets { IfOk result (λ c. c.0.sheets ≡ map started workbook.now.worksheets) }
    ensures definitions { IfOk result (λ c. c.0.definitions
        ≡ map unread workbook.now.defined_names) }
    ensures indexed { IfOk result (λ c. IsIndexed c.1 c.0.sheets c.0.definitions) }
    ensures met { OnOk result ((language : List ℕ) (tables : TableSet)
        → MeetsTo 4 workbook.now language tables) }
    ensures err { IfErr result (λ e. (tables : TableSet) → TellsFirst workbook.now tables e) }
{
    let worksheets = workbook.worksheets.as_slice();
    ask_count(worksheets)?;
    ask_names(alloc, worksheets)?;
    let (sheets, ids) = ask_ids(alloc, worksheets)?;
    let (definitions, places) = ask_definitions(alloc, workbook.defined_names.as_slice())?;
    let contents = Contents {
        sheets,
        definitions,
    };
    let names = NameIndex {
        sheets: ids,
        names: places,
        numbers: TakenNumbers::new(alloc),
    };
    Ok((contents, names))
}

/// The greatest id of a sheet.
const LAST_ID: usize = 4_294_967_295;

/// Asks whether there is a sheet, and no more than ids.
pub fn ask_count(worksheets: &[Worksheet]) -> Result<(), BookError>
    ensures { MatchResult result (λ done. HasCount worksheets.now)
        (Breaks 1 (HasCount worksheets.now)) }
{
    if worksheets.is_empty() || worksheets.len() > LAST_ID {
        return Err(BookError::BadWorkbook(1));
    }
    Ok(())
}

/// Asks whether each sheet's name is one, and no two agree.
pub fn ask_names(alloc: Global, worksheets: &[Worksheet]) -> Result<(), BookError>
    requires { length worksheets.now ≤ last_id }
    ensures { MatchResult result (λ done. HasNames worksheets.now)
        (Breaks 2 (HasNames worksheets.now)) }
{
    if !have_names(worksheets) || !has_apart_names(alloc, worksheets)? {
        return Err(BookError::BadWorkbook(2));
    }
    Ok(())
}

/// Whether each of these names may be that of a sheet.
fn have_names(worksheets: &[Worksheet]) -> bool
    ensures { result ≡ list_all (λ w. is_sheet_name w.name) worksheets.now }
{
    worksheets
        .iter()
        .all(|worksheet| is_valid_sheet_name(worksheet.name.as_str()))
}

/// Asks whether each sheet has an id, and no two the same; then gives sheets with these ids and names, which hold nothing
/// yet, and what finds them by their names.
pub fn ask_ids(
    alloc: Global,
    worksheets: &[Worksheet],
) -> Result<(Sheets, BTreeMap<String, u32>), BookError>
    requires { HasApartNames worksheets.now }
    ensures { MatchResult result
        (λ made. HasIds worksheets.now × (made.0 ≡ map started worksheets.now)
        × FindsSheets made.1 made.0) (Breaks 3 (HasIds worksheets.now)) }
{
    match sheets_of(alloc, worksheets)? {
        Some(named) => Ok(named),
        None => Err(BookError::BadWorkbook(3)),
    }
}
