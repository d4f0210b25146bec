//! A sheet as a table of texts.
ghost use Rattle.std.specs.Prelude.{◌≡◌, ◌<◌, ◌≤◌, ◌≤ℤ◌, ◌++◌, ℤ, pos, IsTrue, OnOk, None, Some, chars, string_bytes};
ghost use Rattle.std.specs.BTreeMap.{IsOrdered, keys};
ghost use Rattle.std.specs.FinMap as finite;
ghost use Rattle.ic_cells.specs.Maps.{place_cmp};
ghost use Rattle.ic_machine.specs.subjects.Reading.{emphasized};
ghost use Rattle.ic_parts.specs.Markup.{IsBlankRow, last_of};

use ic_cells::{Cell, PlaceMap};
use ic_grid::{Grid, first_from};
use ic_laws::OutOfMemory;
use ic_laws::scan::push_text;
use std::collections::BTreeMap;

/// The row behind the last one of a sheet.
pub const ROW_BEHIND: u32 = 1_048_577;

/// Appends a text, between two pairs of stars where it is bold.
pub fn push_marked(text: &mut String, shown: &str, bold: bool) -> Result<(), OutOfMemory>
    ensures { OnOk result (chars (string_bytes text.new) ≡ chars (string_bytes text.old)
        ++ emphasized bold (chars shown.now)) }
{
    if !bold {
        return push_text(text, shown);
    }
    push_text(text, "**")?;
    push_text(text, shown)?;
    push_text(text, "**")
}

/// The greatest row and column that hold a cell, and 1 where none does.
pub fn last_of(cells: &BTreeMap<(i32, i32), Cell>) -> (u32, u32)
    ensures last { result ≡ last_of (keys cells.now) }
    ensures ordered { IsOrdered place_cmp cells.now }
{
    let mut row: u32 = 1;
    let mut column: u32 = 1;
    for place in cells.keys() {
        row = row.max(place.0.unsigned_abs());
        column = column.max(place.1.unsigned_abs());
    }
    (row, column)
}

/// How many separators stand in a table of so many rows and columns: as many bytes as it has at least.
pub fn separators_in(rows: u32, columns: u32) -> usize {
    (rows as usize)
        .saturating_mul(columns as usize)
        .saturating_sub(1)
}

/// Whether no cell stands in a row, and the row has no style.
pub fn is_blank_row(grid: &Grid, row: i32) -> bool
    ensures { IsTrue result → IsBlankRow grid.now row }
{
    grid.row_style(row).is_none() && is_empty_row(&grid.cells, row)
}

/// Whether no cell stands in a row, from column 1 on.
fn is_empty_row(cells: &PlaceMap<Cell>, row: i32) -> bool
    ensures { IsTrue result → (column : ℤ) → pos 1 ≤ℤ column
        → finite.get cells.now (row, column) ≡ None }
{
    match first_from(cells, (row, 1)) {
        Some(place) => place.0 != row,
        None => true,
    }
}
