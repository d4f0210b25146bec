//! A book that is made of a workbook which is handed in as plain records.
ghost use Rattle.std.specs.Prelude.{◌≡◌, ℕ, List, IfErr, IfOk, OnOk, map};
ghost use Rattle.ic_workbooks.specs.Asked.{Breaks, HasCount, MeetsTo, TellsFirst};
ghost use Rattle.ic_workbooks.specs.Filled.{AreFilled};
ghost use Rattle.ic_workbooks.specs.HandedIn.{definition_of};
ghost use Rattle.ic_parts.specs.Names.{IsIndexed};

use crate::asked::ask_contents;
use crate::filled::{fill_definitions, fill_sheets};
use ic_cells::{Workbook, Worksheet};
use ic_laws::{OutOfMemory, Text};
use ic_parts::about::About;
use ic_parts::contents::Contents;
use ic_parts::copies::{copy_metadata, copy_text};
use ic_parts::{BookError, NameIndex};
use ic_tables::Tables;
use std::alloc::Global;

/// Where the memory of the first sheet comes from; asks whether there is one.
pub fn memory_of(worksheets: &[Worksheet]) -> Result<Global, BookError>
    ensures { IfErr result (Breaks 1 (HasCount worksheets.now)) }
{
    if worksheets.is_empty() {
        return Err(BookError::BadWorkbook(1));
    }
    Ok(worksheets[0].cells.alloc())
}

/// The sheets and the definitions that records make, with the numbers of shared strings by their indexes, and what finds
/// them by their names. Asks for the first five conditions, one after another.
pub fn contents_of(
    alloc: Global,
    tables: &Tables,
    workbook: &Workbook,
    numbers: &[usize],
) -> Result<(Contents, NameIndex), BookError>
    ensures sheets { IfOk result
        (λ c. AreFilled workbook.now tables.now numbers.now c.0.sheets) }
    ensures definitions { IfOk result (λ c. c.0.definitions
        ≡ map (definition_of workbook.now tables.now) workbook.now.defined_names) }
    ensures indexed { IfOk result (λ c. IsIndexed c.1 c.0.sheets c.0.definitions) }
    ensures met { OnOk result ((language : List ℕ)
        → MeetsTo 5 workbook.now language tables.now) }
    ensures err { IfErr result (TellsFirst workbook.now tables.now) }
{
    let (mut contents, names) = ask_contents(alloc, workbook)?;
    let worksheets = workbook.worksheets.as_slice();
    fill_sheets(alloc, tables, &mut contents, &names, numbers, worksheets)?;
    let records = workbook.defined_names.as_slice();
    fill_definitions(alloc, tables, &mut contents, &names, records)?;
    Ok((contents, names))
}

/// What records have beside their contents, their lists and their notation.
pub fn about_of<'a>(
    alloc: Global,
    workbook: &Workbook,
    zone: &'a Text,
) -> Result<About<'a>, OutOfMemory>
    ensures { IfOk result (λ about. about ≡ record {
      name = workbook.now.name;
      zone = zone.entry;
      theme = workbook.now.theme.name;
      metadata = workbook.now.metadata;
    }) }
{
    let name = copy_text(alloc, &workbook.name)?;
    let theme = copy_text(alloc, &workbook.theme.name)?;
    let metadata = copy_metadata(alloc, &workbook.metadata)?;
    Ok(About {
        name,
        zone,
        theme,
        metadata,
    })
}
