//! Why a book has no lines.
ghost use Rattle.std.specs.Prelude.{◌≡◌, IfOk, false, flat_map, map, option_map};
ghost use Rattle.std.specs.List.{slice_get};
ghost use Rattle.std.specs.Option.{option_map_or};
ghost use Rattle.ic_laws.specs.Scene.{key_of};
ghost use Rattle.ic_machine.specs.Refusal.{CellSite};
ghost use Rattle.ic_laws.specs.CoreBook.{Sheet};
ghost use Rattle.ic_parts.specs.Book.{core_of, notations_in};
ghost use Rattle.ic_parts.specs.Lent.{placed};
ghost use Rattle.ic_parts.specs.Sites.{site_of};
ghost use Rattle.ic_workbooks.specs.Workbook.{defined_name_of};
ghost use Rattle.ic_dump.specs.English.{IsEnglish};
ghost use Rattle.ic_dump.specs.Records.{core_seen, name_seen};
ghost use Rattle.ic_dump.specs.Refused.{is_raw, raw_body, rereading_cell, rereads};

use crate::english::is_read;
use crate::sheets::SheetSeen;
use caseless::default_case_fold_str;
use ic_book::{MentionSite, Model, Notation, PlacedFormula};
use ic_cells::DefinedName;
use ic_laws::{Formula, NameKey, OutOfMemory, Text};
use std::alloc::Global;

/// The key of the first definition whose body is a text that doesn't read; None where there is none. Only memory can be missing.
pub(crate) fn raw_body(
    alloc: Global,
    model: &Model<'_>,
    definitions: &[DefinedName],
) -> Result<Option<NameKey>, OutOfMemory>
    requires { definitions.now
        ≡ map (defined_name_of model.now.book) model.now.book.definitions }
    ensures { IfOk result (λ key. key ≡ raw_body (core_of model.now.book)) }
{
    for (index, definition) in definitions.iter().enumerate() {
        if is_raw_at(model, index) {
            return Ok(Some(key_of(alloc, definition)?));
        }
    }
    Ok(None)
}

/// Whether the body of the definition at an index is a text that doesn't read.
fn is_raw_at(model: &Model<'_>, index: usize) -> bool
    ensures { result ≡ option_map_or (λ d. is_raw d.body)
        (slice_get model.now.book.definitions index) false }
{
    match model.parsed_definition(index) {
        Some(Formula::Raw(_)) => true,
        _ => false,
    }
}

/// The key of a definition.
fn key_of(alloc: Global, definition: &DefinedName) -> Result<NameKey, OutOfMemory>
    ensures { IfOk result (λ key. key ≡ key_of (name_seen definition.now)) }
{
    let name = Text::from(default_case_fold_str(alloc, definition.name.as_str())?);
    Ok(NameKey {
        name,
        scope: definition.sheet_id,
    })
}

/// The first cell whose text doesn't read, but would in English, or has nothing in it, by sheets, rows and columns; None where
/// there is none. Only memory can be missing.
pub(crate) fn rereading(
    alloc: Global,
    model: &Model<'_>,
    english: &Notation<'_>,
    sheets: &[SheetSeen<'_>],
) -> Result<Option<MentionSite>, OutOfMemory>
    requires { IsEnglish model.now.book english.now }
    ensures { IfOk result (λ site. option_map site_of site ≡ slice_get (flat_map
        (λ (s : Sheet). flat_map (rereading_cell (notations_in model.now.book) s.id) s.cells)
        (map core_seen sheets.now)) 0) }
{
    for sheet in sheets {
        let cells = sheet.cells.as_slice();
        if let Some(site) = rereading_among(alloc, model, english, sheet.name.id, cells)? {
            return Ok(Some(site));
        }
    }
    Ok(None)
}

/// The first of these cells of the sheet with this id.
fn rereading_among(
    alloc: Global,
    model: &Model<'_>,
    english: &Notation<'_>,
    id: u32,
    cells: &[PlacedFormula<'_>],
) -> Result<Option<MentionSite>, OutOfMemory>
    requires { IsEnglish model.now.book english.now }
    ensures { IfOk result (λ site. option_map site_of site ≡ slice_get (flat_map
        (rereading_cell (notations_in model.now.book) id) (map placed cells.now)) 0) }
{
    for cell in cells {
        if rereads(alloc, model, english, cell)? {
            return Ok(Some(cell_site(id, cell)));
        }
    }
    Ok(None)
}

/// Where it stands, in the sheet with this id.
fn cell_site(id: u32, cell: &PlacedFormula<'_>) -> MentionSite
    ensures { site_of result ≡ CellSite id (placed cell.now).0 }
{
    MentionSite::Cell {
        sheet_id: id,
        row: cell.row,
        column: cell.column,
    }
}

/// Whether a cell is one.
fn rereads(
    alloc: Global,
    model: &Model<'_>,
    english: &Notation<'_>,
    cell: &PlacedFormula<'_>,
) -> Result<bool, OutOfMemory>
    requires { IsEnglish model.now.book english.now }
    ensures { IfOk result (λ is. is ≡ rereads (notations_in model.now.book)
        (placed cell.now).0 (placed cell.now).1) }
{
    match cell.formula {
        Formula::Raw(text) => is_read(alloc, english, cell.row, cell.column, text.as_str()),
        Formula::Tree(_) => Ok(false),
    }
}
