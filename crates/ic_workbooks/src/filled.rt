//! The sheets and the definitions of a workbook that is handed in get what their records hold: formulas, which are read by
//! what they can mention, cells, and how sheets are presented. Each text of a formula is asked for the fifth condition.
ghost use Rattle.std.specs.Prelude.{◌≡◌, ◌<◌, IfOk, MatchResult, length, map, option_map};
ghost use Rattle.std.specs.List.{AllByRecursion};
ghost use Rattle.ic_sheets.specs.Records.{started};
ghost use Rattle.ic_workbooks.specs.Asked.{Breaks, unread};
ghost use Rattle.ic_workbooks.specs.Filled.{FillsDefinition, FillsDefinitions, FillsSheet, FillsSheets, HasBodyText, HasSheetTexts, contents_scene, numbered_grid, pool_read, record_tab};
ghost use Rattle.ic_parts.specs.Names.{IsIndexed};
ghost use Rattle.ic_workbooks.specs.Texts.{AreRead, record_body_in, sheet_formula_in};

use crate::numbered::copy_cells_numbered;
use crate::texts::{body_formula, sheet_formulas};
use ic_cells::{DefinedName, Worksheet};
use ic_grid::Grid;
use ic_laws::{Formula, OutOfMemory};
use ic_parts::contents::Contents;
use ic_parts::copies::{copy_lines, copy_merges};
use ic_parts::scene::BookScene;
use ic_parts::{BookError, NameIndex};
use ic_pool::Pool;
use ic_sheets::Tab;
use ic_tables::Tables;
use std::alloc::Global;

/// Gives sheets that hold nothing yet what their records hold, with the numbers of shared strings by their indexes.
pub fn fill_sheets(
    alloc: Global,
    tables: &Tables,
    contents: &mut Contents,
    names: &NameIndex,
    numbers: &[usize],
    worksheets: &[Worksheet],
) -> Result<(), BookError>
    requires indexed { IsIndexed names.now contents.old.sheets contents.old.definitions }
    requires started { contents.old.sheets ≡ map started worksheets.now }
    ensures { MatchResult result (λ done. FillsSheets tables.now numbers.now worksheets.now
        contents.old contents.new) (Breaks 5 (AllByRecursion (HasSheetTexts tables.now
        (contents_scene contents.old)) worksheets.now)) }
{
    for (index, worksheet) in worksheets.iter().enumerate() {
        fill_sheet(alloc, tables, contents, names, numbers, index, worksheet)?;
    }
    Ok(())
}

/// Gives the sheet at an index, from 0, what a record holds.
fn fill_sheet(
    alloc: Global,
    tables: &Tables,
    contents: &mut Contents,
    names: &NameIndex,
    numbers: &[usize],
    index: usize,
    worksheet: &Worksheet,
) -> Result<(), BookError>
    requires indexed { IsIndexed names.now contents.old.sheets contents.old.definitions }
    requires within { index < length contents.old.sheets }
    ensures { MatchResult result (λ done. FillsSheet tables.now numbers.now index worksheet.now
        contents.old contents.new) (Breaks 5 (HasSheetTexts tables.now
        (contents_scene contents.old) worksheet.now)) }
{
    let pool = read_pool(alloc, tables, contents, names, worksheet)?;
    let grid = numbered_grid(alloc, numbers, worksheet)?;
    let tab = record_tab(alloc, worksheet)?;
    contents.sheets.fill(index, pool, grid, tab);
    Ok(())
}

/// The formulas of a sheet, in their places.
fn read_pool(
    alloc: Global,
    tables: &Tables,
    contents: &Contents,
    names: &NameIndex,
    worksheet: &Worksheet,
) -> Result<Pool, BookError>
    requires { IsIndexed names.now contents.now.sheets contents.now.definitions }
    ensures { MatchResult result
        (λ pool. HasSheetTexts tables.now (contents_scene contents.now) worksheet.now
        × (pool ≡ pool_read tables.now (contents_scene contents.now) worksheet.now))
        (Breaks 5 (HasSheetTexts tables.now (contents_scene contents.now) worksheet.now)) }
{
    match read_formulas(alloc, tables, contents, names, worksheet)? {
        Some(formulas) => Ok(Pool::from_formulas(alloc, formulas)?),
        None => Err(BookError::BadWorkbook(5)),
    }
}

/// The formulas of a sheet by their texts. None exactly where some text isn't the stored text of what it reads as.
fn read_formulas(
    alloc: Global,
    tables: &Tables,
    contents: &Contents,
    names: &NameIndex,
    worksheet: &Worksheet,
) -> Result<Option<Vec<Formula>>, OutOfMemory>
    requires { IsIndexed names.now contents.now.sheets contents.now.definitions }
    ensures { IfOk result (λ made. AreRead (sheet_formula_in tables.now
        (contents_scene contents.now) worksheet.now.sheet_id) worksheet.now.shared_formulas
        (option_map (λ formulas. formulas.items) made)) }
{
    let scene = BookScene::new(contents, names);
    let texts = worksheet.shared_formulas.as_slice();
    sheet_formulas(alloc, tables, &scene, worksheet.sheet_id, texts)
}

/// A copy of a sheet's cells, with the numbers of their strings, its rows, columns and merged cells.
fn numbered_grid(
    alloc: Global,
    numbers: &[usize],
    worksheet: &Worksheet,
) -> Result<Grid, OutOfMemory>
    ensures { IfOk result (λ grid. grid ≡ numbered_grid numbers.now worksheet.now) }
{
    let cells = copy_cells_numbered(alloc, numbers, &worksheet.cells)?;
    let rows = copy_lines(alloc, &worksheet.rows)?;
    let columns = copy_lines(alloc, &worksheet.columns)?;
    let merged_cells = copy_merges(alloc, worksheet.merged_cells.as_slice())?;
    Ok(Grid {
        cells,
        rows,
        columns,
        merged_cells,
    })
}

/// How a record's sheet is presented.
fn record_tab(alloc: Global, worksheet: &Worksheet) -> Result<Tab, OutOfMemory>
    ensures { IfOk result (λ tab. tab ≡ record_tab worksheet.now) }
{
    let color = worksheet.color.copy(alloc)?;
    Ok(Tab {
        state: worksheet.state,
        color,
        frozen_rows: worksheet.frozen_rows,
        frozen_columns: worksheet.frozen_columns,
        shows_grid_lines: worksheet.show_grid_lines,
    })
}

/// Gives definitions whose bodies aren't read yet the bodies of their records.
pub fn fill_definitions(
    alloc: Global,
    tables: &Tables,
    contents: &mut Contents,
    names: &NameIndex,
    records: &[DefinedName],
) -> Result<(), BookError>
    requires indexed { IsIndexed names.now contents.old.sheets contents.old.definitions }
    requires unread { contents.old.definitions ≡ map unread records.now }
    ensures { MatchResult result (λ done. FillsDefinitions tables.now records.now
        contents.old contents.new) (Breaks 5 (AllByRecursion (HasBodyText tables.now
        (contents_scene contents.old)) records.now)) }
{
    for (index, record) in records.iter().enumerate() {
        fill_definition(alloc, tables, contents, names, index, record)?;
    }
    Ok(())
}

/// Gives the definition at an index, from 0, the body of a record.
fn fill_definition(
    alloc: Global,
    tables: &Tables,
    contents: &mut Contents,
    names: &NameIndex,
    index: usize,
    name: &DefinedName,
) -> Result<(), BookError>
    requires indexed { IsIndexed names.now contents.old.sheets contents.old.definitions }
    requires within { index < length contents.old.definitions }
    ensures { MatchResult result (λ done. FillsDefinition tables.now index name.now
        contents.old contents.new) (Breaks 5 (HasBodyText tables.now
        (contents_scene contents.old) name.now)) }
{
    match read_body(alloc, tables, contents, names, name)? {
        Some(body) => {
            contents.definitions.set_body(index, body);
            Ok(())
        }
        None => Err(BookError::BadWorkbook(5)),
    }
}

/// The body of a definition by its text. None exactly where the text isn't the text of what it reads as.
fn read_body(
    alloc: Global,
    tables: &Tables,
    contents: &Contents,
    names: &NameIndex,
    name: &DefinedName,
) -> Result<Option<Formula>, OutOfMemory>
    requires { IsIndexed names.now contents.now.sheets contents.now.definitions }
    ensures { IfOk result (λ body. body
        ≡ record_body_in tables.now (contents_scene contents.now) name.now) }
{
    let scene = BookScene::new(contents, names);
    let text = name.formula.as_str();
    body_formula(alloc, tables, &scene, name.sheet_id, text)
}
