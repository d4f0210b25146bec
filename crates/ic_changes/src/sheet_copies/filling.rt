//! What a copy of a sheet holds.
ghost use Rattle.std.specs.Prelude.{◌≡◌, ◌<◌, IfOk, Some, length, map};
ghost use Rattle.ic_keep.specs.Copy.{copied_for};
ghost use Rattle.ic_laws.specs.CoreStep.{updated_at};
ghost use Rattle.ic_tree.specs.LanguageWords.{function_of};
ghost use Rattle.ic_changes.specs.Copied.{filled_by};

use ic_definitions::Definition;
use ic_grid::Grid;
use ic_keep::keep_copy_formula;
use ic_laws::{Finder, Formula, OutOfMemory};
use ic_parts::copies::{copy_cells, copy_lines, copy_merges};
use ic_pool::Pool;
use ic_sheets::{Sheet, Sheets, Tab};
use ic_tables::Language;
use std::alloc::Global;

/// The formulas of a sheet, its cells with its rows, columns and merged cells, and its tab.
pub struct Filling {
    pub pool: Pool,
    pub grid: Grid,
    pub tab: Tab,
}

impl Filling {
    /// Gives all of it to the sheet at an index, from 0. The formulas of the others stay. It takes no memory.
    pub fn put(self, sheets: &mut Sheets, index: usize)
        requires { index < length sheets.old }
        ensures { sheets.new ≡ updated_at
            (λ s. record s { pool = self.pool; grid = self.grid; tab = self.tab }) index
            sheets.old }
    {
        let Self { pool, grid, tab } = self;
        sheets.fill(index, pool, grid, tab);
    }
}

impl Drop for Filling {
    fn drop(self) {
        let Self { pool, grid, tab } = self;
        drop(pool);
        drop(grid);
        drop(tab);
    }
}

/// What the copy of a sheet holds, which has the id `copy`. `after` is the book with the copy.
pub fn filling_of<A: Finder>(
    alloc: Global,
    after: &A,
    english: &Language,
    source: &Sheet,
    copy: u32,
) -> Result<Filling, OutOfMemory>
    ensures { IfOk result (λ filling. filling ≡ filled_by (copied_for (function_of english.now)
        (A.scene after.now) source.now.id copy (Some copy)) source.now) }
{
    let formulas = copied_formulas(alloc, after, english, source, copy)?;
    let pool = Pool::from_formulas(alloc, formulas)?;
    let grid = copied_grid(alloc, &source.grid)?;
    let tab = copied_tab(alloc, &source.tab)?;
    Ok(Filling { pool, grid, tab })
}

/// The formulas of a sheet, as its copy has them.
fn copied_formulas<A: Finder>(
    alloc: Global,
    after: &A,
    english: &Language,
    source: &Sheet,
    copy: u32,
) -> Result<Vec<Formula>, OutOfMemory>
    ensures { IfOk result (λ formulas. formulas.items ≡ map (copied_for (function_of english.now)
        (A.scene after.now) source.now.id copy (Some copy)) source.now.pool.formulas) }
{
    let mut out = Vec::new(alloc);
    for index in 0..source.pool.len() {
        if let Some(formula) = source.pool.get(index) {
            out.push(keep_copy_formula(
                alloc,
                after,
                source.id,
                copy,
                english,
                Some(copy),
                formula,
            )?)?;
        }
    }
    Ok(out)
}

/// The bodies of definitions that are copied with the sheet with the id `source`, as its copy has them.
pub fn copied_bodies<A: Finder>(
    alloc: Global,
    after: &A,
    english: &Language,
    source: u32,
    copy: u32,
    definitions: &[Definition],
) -> Result<Vec<Formula>, OutOfMemory>
    ensures { IfOk result (λ bodies. bodies.items
        ≡ map (λ d. copied_for (function_of english.now) (A.scene after.now)
        source copy (Some copy) d.body) definitions.now) }
{
    let mut out = Vec::new(alloc);
    for definition in definitions {
        out.push(keep_copy_formula(
            alloc,
            after,
            source,
            copy,
            english,
            Some(copy),
            definition.body(),
        )?)?;
    }
    Ok(out)
}

/// A copy of the cells of a sheet, its rows, columns and merged cells.
fn copied_grid(alloc: Global, grid: &Grid) -> Result<Grid, OutOfMemory>
    ensures { IfOk result (λ copy. copy ≡ grid.now) }
{
    let cells = copy_cells(alloc, &grid.cells)?;
    let rows = copy_lines(alloc, &grid.rows)?;
    let columns = copy_lines(alloc, &grid.columns)?;
    let merged_cells = copy_merges(alloc, grid.merged_cells.as_slice())?;
    Ok(Grid {
        cells,
        rows,
        columns,
        merged_cells,
    })
}

/// A copy of how a sheet is presented.
fn copied_tab(alloc: Global, tab: &Tab) -> Result<Tab, OutOfMemory>
    ensures { IfOk result (λ copy. copy ≡ tab.now) }
{
    let color = tab.color.copy(alloc)?;
    Ok(Tab {
        state: tab.state,
        color,
        frozen_rows: tab.frozen_rows,
        frozen_columns: tab.frozen_columns,
        shows_grid_lines: tab.shows_grid_lines,
    })
}
