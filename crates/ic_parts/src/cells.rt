//! What cells hold: their values, their types, and which there are.
ghost use Rattle.std.specs.Prelude.{◌≡◌, ◌≤◌, ◌++◌, IfOk, OnOk, length, map, option_copied, true};
ghost use Rattle.std.specs.BTreeMap.{IsOrdered, keys};
ghost use Rattle.std.specs.Option.{option_map_or};
ghost use Rattle.ic_laws.specs.CoreBook.{last_id};
ghost use Rattle.ic_cells.specs.Cell.{type_of, value_of};
ghost use Rattle.ic_cells.specs.Maps.{place_cmp};
ghost use Rattle.ic_grid.specs.Shape.{is_empty, shape_of};
ghost use Rattle.ic_sheets.specs.Holders.{AreHolders};
ghost use Rattle.ic_parts.specs.Cells.{place_in, places_from};

use ic_cells::{Cell, CellIndex, CellType, CellValue};
use ic_laws::{Boxed, Items, OutOfMemory, Text};
use ic_sheets::{Sheet, Sheets};
use ic_tables::Language;
use std::alloc::Global;
use std::collections::{BTreeMap, BTreeSet};

/// The value of a cell, if there is one.
pub fn value_in(
    alloc: Global,
    cell: Option<&Cell>,
    strings: &Items<Text>,
    language: &Language,
) -> Result<CellValue, OutOfMemory>
    ensures { IfOk result (λ v. v ≡ option_map_or (value_of strings.now language.now)
        (option_copied cell.entry) CellValue.None) }
{
    match cell {
        Some(cell) => cell.value(alloc, strings, language),
        None => Ok(CellValue::None),
    }
}

/// The type of its value.
pub fn type_in(cell: Option<&Cell>) -> CellType
    ensures { result ≡ option_map_or type_of (option_copied cell.entry) CellType.Number }
{
    match cell {
        Some(cell) => cell.get_type(),
        None => CellType::Number,
    }
}

/// Whether it holds nothing but a style.
pub fn is_empty(cell: Option<&Cell>) -> bool
    ensures { result ≡ option_map_or (λ x. is_empty (shape_of x)) (option_copied cell.entry) true }
{
    match cell {
        Some(Cell::EmptyCell { .. }) => true,
        Some(_) => false,
        None => true,
    }
}

/// The places of all cells of these sheets.
pub fn all_places(alloc: Global, sheets: &Sheets) -> Result<Vec<CellIndex>, OutOfMemory>
    requires { length sheets.now ≤ last_id }
    ensures { IfOk result (λ all. all.items ≡ places_from 0 sheets.now) }
{
    match sheets.few_holders()? {
        Some(indexes) => places_at(alloc, sheets, &indexes),
        None => places_in(alloc, sheets.as_slice()),
    }
}

/// The same, where those at all other indexes than these have no cells.
fn places_at(
    alloc: Global,
    sheets: &Sheets,
    indexes: &BTreeSet<usize>,
) -> Result<Vec<CellIndex>, OutOfMemory>
    requires few { length sheets.now ≤ last_id }
    requires others { AreHolders indexes.now 0 sheets.now }
    ensures { IfOk result (λ all. all.items ≡ places_from 0 sheets.now) }
{
    let mut all = Vec::new(alloc);
    for index in indexes {
        if let Some(sheet) = sheets.get(*index) {
            push_places(&mut all, *index as u32, sheet.grid.cells.as_map())?;
        }
    }
    Ok(all)
}

/// The same, of each sheet.
fn places_in(alloc: Global, sheets: &[Boxed<Sheet>]) -> Result<Vec<CellIndex>, OutOfMemory>
    requires { length sheets.now ≤ last_id }
    ensures { IfOk result (λ all. all.items ≡ places_from 0 sheets.now) }
{
    let mut all = Vec::new(alloc);
    for (index, sheet) in sheets.iter().enumerate() {
        push_places(&mut all, index as u32, sheet.as_ref().grid.cells.as_map())?;
    }
    Ok(all)
}

/// Puts the places of the cells of a sheet at the end.
fn push_places(
    all: &mut Vec<CellIndex>,
    index: u32,
    cells: &BTreeMap<(i32, i32), Cell>,
) -> Result<(), OutOfMemory>
    ensures pushed { OnOk result (all.new.items
        ≡ all.old.items ++ map (place_in index) (keys cells.now)) }
    ensures ordered { IsOrdered place_cmp cells.now }
{
    for place in cells.keys() {
        all.push(CellIndex {
            index,
            row: place.0,
            column: place.1,
        })?;
    }
    Ok(())
}
