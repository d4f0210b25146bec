//! What a book lends to those who go over its formulas, and what its sheets and definitions are.
ghost use Rattle.std.specs.Prelude.{◌≡◌, ◌++◌, IfOk, OnOk, Some, flat_map, length, map};
ghost use Rattle.std.specs.BTreeMap as tree;
ghost use Rattle.std.specs.FinMap as finite;
ghost use Rattle.ic_cells.specs.Maps.{place_cmp};
ghost use Rattle.ic_sheets.specs.Sheet.{HasIndexes, cells_of};
ghost use Rattle.ic_parts.specs.Lent.{kept_in, placed};
ghost use Rattle.ic_parts.specs.Scene.{named};

use crate::copies::copy_text;
use ic_cells::Cell;
use ic_laws::{Boxed, Formula, OutOfMemory, SheetName};
use ic_pool::Pool;
use ic_sheets::Sheet;
use std::alloc::Global;
use std::collections::BTreeMap;

/// A formula, and the row and the column of its cell, both from 1.
#[derive(Drop)]
pub struct PlacedFormula<'b> {
    pub row: i32,
    pub column: i32,
    pub formula: &'b Formula,
}

/// The formulas of the cells of a sheet.
pub fn formulas_of<'b>(
    alloc: Global,
    worksheet: &'b Sheet,
) -> Result<Vec<PlacedFormula<'b>>, OutOfMemory>
    requires { HasIndexes (length worksheet.now.pool.formulas) worksheet.now.grid }
    ensures { IfOk result (λ cells. map placed cells.items
        ≡ cells_of worksheet.now.pool.formulas (finite.entries worksheet.now.grid.cells)) }
{
    let mut cells = Vec::new(alloc);
    push_formulas(&mut cells, &worksheet.pool, worksheet.grid.cells.as_map())?;
    Ok(cells)
}

/// Puts the formulas of these cells at the end, which a pool keeps.
fn push_formulas<'b>(
    formulas: &mut Vec<PlacedFormula<'b>>,
    pool: &'b Pool,
    cells: &BTreeMap<(i32, i32), Cell>,
) -> Result<(), OutOfMemory>
    ensures pushed { OnOk result (map placed formulas.new.items ≡ map placed formulas.old.items
        ++ flat_map (kept_in pool.now.formulas) cells.now.entries) }
    ensures ordered { tree.IsOrdered place_cmp cells.now }
{
    for (place, cell) in cells.iter() {
        push_formula(formulas, pool, *place, cell)?;
    }
    Ok(())
}

/// Puts the formula of a cell at the end, if it has one.
fn push_formula<'b>(
    formulas: &mut Vec<PlacedFormula<'b>>,
    pool: &'b Pool,
    place: (i32, i32),
    cell: &Cell,
) -> Result<(), OutOfMemory>
    ensures { OnOk result (map placed formulas.new.items ≡ map placed formulas.old.items
        ++ kept_in pool.now.formulas (place, cell.now)) }
{
    if let Some(index) = cell.get_formula() {
        if let Some(formula) = pool.get(index) {
            formulas.push(PlacedFormula {
                row: place.0,
                column: place.1,
                formula,
            })?;
        }
    }
    Ok(())
}

/// The ids and names of sheets.
pub fn names_of(alloc: Global, sheets: &[Boxed<Sheet>]) -> Result<Vec<SheetName>, OutOfMemory>
    ensures { IfOk result (λ names. names.items ≡ map named sheets.now) }
{
    let mut names = Vec::new(alloc);
    for sheet in sheets {
        names.push(name_of(alloc, sheet.as_ref())?)?;
    }
    Ok(names)
}

/// The id and the name of a sheet.
fn name_of(alloc: Global, sheet: &Sheet) -> Result<SheetName, OutOfMemory>
    ensures { IfOk result (λ name. name ≡ named sheet.now) }
{
    let name = copy_text(alloc, &sheet.name)?;
    Ok(SheetName { id: sheet.id, name })
}
