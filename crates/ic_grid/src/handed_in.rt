//! Whether a grid that is made by hand meets the conditions of a sheet, each by itself.
ghost use Rattle.std.specs.Prelude.{◌≡◌, ℤ, true, Some};
ghost use Rattle.std.specs.BTreeMap.{IsOrdered};
ghost use Rattle.std.specs.Bool.{Decides};
ghost use Rattle.std.specs.FinMap as finite;
ghost use Rattle.std.specs.List.{All, list_all};
ghost use Rattle.std.specs.Ordering.{int_cmp};
ghost use Rattle.ic_laws.specs.Position.{is_column, is_row};
ghost use Rattle.ic_cells.specs.Maps.{place_cmp};
ghost use Rattle.ic_cells.specs.declared.cell.Cell.{Cell};
ghost use Rattle.ic_cells.specs.declared.layout.ColumnProps.{ColumnProps};
ghost use Rattle.ic_cells.specs.declared.layout.RowProps.{RowProps};
ghost use Rattle.ic_grid.specs.Arrays.{array_from};
ghost use Rattle.ic_grid.specs.Block.{Place, is_area, is_in_sheet};
ghost use Rattle.ic_grid.specs.Conditions.{AreInSheet, AreLinesInSheet, AreMerges};
ghost use Rattle.ic_grid.specs.HandedIn.{AreApart, AreSeparate, is_unmerged};
ghost use Rattle.ic_grid.specs.Merges.{merged_block};
ghost use Rattle.ic_grid.specs.Shape.{celled, shape_of};

use crate::block::{is_column, is_in_sheet, is_row};
use crate::merges::{meets_merge, merged_block};
use crate::{Block, Grid};
use ic_cells::{Cell, ColumnProps, LineMap, Merge, PlaceMap, RowProps};
use std::collections::BTreeMap;

/// Whether each place of a map is one of the sheet.
fn are_in_sheet(map: &BTreeMap<(i32, i32), Cell>) -> bool
    ensures all { Decides result (All (λ (e : Place × Cell). is_in_sheet e.0 ≡ true)
        map.now.entries) }
    ensures ordered { IsOrdered place_cmp map.now }
{
    for (place, _) in map.iter() {
        if !is_in_sheet(*place) {
            return false;
        }
    }
    true
}

/// Whether a number that a map lends is that of a row.
fn is_row_of(number: &i32) -> bool
    ensures { result ≡ is_row number.now }
{
    is_row(*number)
}

/// Whether it is that of a column.
fn is_column_of(number: &i32) -> bool
    ensures { result ≡ is_column number.now }
{
    is_column(*number)
}

/// Whether each number of a map is that of a row.
fn are_rows(map: &BTreeMap<i32, RowProps>) -> bool
    ensures all { Decides result (All (λ (e : ℤ × RowProps). is_row e.0 ≡ true) map.now.entries) }
    ensures ordered { IsOrdered int_cmp map.now }
{
    for (row, _) in map.iter() {
        if !is_row_of(row) {
            return false;
        }
    }
    true
}

/// Whether each number of a map is that of a column.
fn are_columns(map: &BTreeMap<i32, ColumnProps>) -> bool
    ensures all { Decides result (All (λ (e : ℤ × ColumnProps). is_column e.0 ≡ true)
        map.now.entries) }
    ensures ordered { IsOrdered int_cmp map.now }
{
    for (column, _) in map.iter() {
        if !is_column_of(column) {
            return false;
        }
    }
    true
}

/// Whether each row for which something was set is one of the sheet.
fn has_rows_in_sheet(rows: &LineMap<RowProps>) -> bool
    ensures { Decides result ((row : ℤ) (props : RowProps) → finite.get rows.now row ≡ Some props
        → is_row row ≡ true) }
{
    are_rows(rows.as_map())
}

/// Whether each such column is.
fn has_columns_in_sheet(columns: &LineMap<ColumnProps>) -> bool
    ensures { Decides result ((column : ℤ) (props : ColumnProps)
        → finite.get columns.now column ≡ Some props → is_column column ≡ true) }
{
    are_columns(columns.as_map())
}

/// Whether each merge has a cell at least, and lies in the sheet.
fn are_areas(merges: &[Merge]) -> bool
    ensures { result ≡ list_all (λ merge. is_area (merged_block merge)) merges.now }
{
    merges.iter().all(|merge| merged_block(merge).is_area())
}

/// Whether no two merges have a cell in common. Each is compared with those before it.
fn are_apart(merges: &[Merge]) -> bool
    ensures { Decides result (AreApart merges.now) }
{
    for (index, merge) in merges.iter().enumerate() {
        if meets_merge(&merges[..index], &merged_block(merge)) {
            return false;
        }
    }
    true
}

/// Whether both hold.
fn are_separate(merges: &[Merge]) -> bool
    ensures { Decides result (AreSeparate merges.now) }
{
    are_areas(merges) && are_apart(merges)
}

/// Whether something at a place isn't the formula of an array of more than one cell that has one in common with merges.
fn is_unmerged(merges: &[Merge], place: (i32, i32), cell: &Cell) -> bool
    ensures { result ≡ is_unmerged merges.now (array_from place (shape_of cell.now)) }
{
    match cell {
        Cell::ArrayFormula { r, .. } => {
            let block = Block::at(place, r.0, r.1);
            block.is_single() || !meets_merge(merges, &block)
        }
        _ => true,
    }
}

/// The same of each cell of a map.
fn are_unmerged(map: &BTreeMap<(i32, i32), Cell>, merges: &[Merge]) -> bool
    ensures all { Decides result (All (λ (e : Place × Cell). is_unmerged merges.now
        (array_from e.0 (shape_of e.1)) ≡ true) map.now.entries) }
    ensures ordered { IsOrdered place_cmp map.now }
{
    for (place, cell) in map.iter() {
        if !is_unmerged(merges, *place, cell) {
            return false;
        }
    }
    true
}

/// Whether no array of more than one cell has one in common with merges.
fn has_unmerged_arrays(cells: &PlaceMap<Cell>, merges: &[Merge]) -> bool
    ensures { Decides result ((p : Place) (x : Cell) → finite.get cells.now p ≡ Some x
        → is_unmerged merges.now (array_from p (shape_of x)) ≡ true) }
{
    are_unmerged(cells.as_map(), merges)
}

impl Grid {
    /// Whether each cell lies in the sheet. No memory is taken.
    pub fn lies_in_sheet(&self) -> bool
        ensures { Decides result (AreInSheet celled self.now.cells) }
    {
        are_in_sheet(self.cells.as_map())
    }

    /// Whether each row and each column for which something was set is one of the sheet. No memory is taken.
    pub fn has_lines_in_sheet(&self) -> bool
        ensures { Decides result (AreLinesInSheet self.now.rows self.now.columns) }
    {
        has_rows_in_sheet(&self.rows) && has_columns_in_sheet(&self.columns)
    }

    /// Whether each merge has a cell at least and lies in the sheet, no two have a cell in common, and none has one in common
    /// with an array of more than one cell. It compares each merge with each other and with each array. No memory is taken.
    pub fn has_separate_merges(&self) -> bool
        ensures { Decides result (AreMerges celled self.now.cells self.now.merged_cells) }
    {
        let merges = self.merged_cells.as_slice();
        are_separate(merges) && has_unmerged_arrays(&self.cells, merges)
    }
}
