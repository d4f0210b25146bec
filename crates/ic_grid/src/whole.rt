//! Whether arrays have their spills, and spills their arrays.
ghost use Rattle.std.specs.Prelude.{◌≡◌, true};
ghost use Rattle.std.specs.BTreeMap.{IsOrdered};
ghost use Rattle.std.specs.Bool.{Decides};
ghost use Rattle.std.specs.List.{All};
ghost use Rattle.ic_cells.specs.Maps.{place_cmp};
ghost use Rattle.ic_cells.specs.declared.cell.Cell.{Cell};
ghost use Rattle.ic_grid.specs.Arrays.{array_of};
ghost use Rattle.ic_grid.specs.Block.{Place, is_area};
ghost use Rattle.ic_grid.specs.Conditions.{AreArrays};
ghost use Rattle.ic_grid.specs.HandedIn.{HasSpill, IsFilled, IsRowFilled, IsWhole, is_filled_at, is_in_array};
ghost use Rattle.ic_grid.specs.Shape.{celled, is_spill_of, shape_of};
ghost use Rattle.ic_grid.specs.Value.{shape_at};

use crate::arrays::array_of;
use crate::block::is_same;
use crate::{Block, Grid};
use ic_cells::{Cell, PlaceMap};
use std::collections::BTreeMap;

/// Whether a cell is one of the spill of the formula at a place.
pub fn is_spill_of(cell: &Cell, anchor: (i32, i32)) -> bool
    ensures { result ≡ is_spill_of anchor (shape_of cell.now) }
{
    match cell {
        Cell::SpillCell { a, .. } => is_same(anchor, *a),
        _ => false,
    }
}

/// Whether a place holds such a cell.
fn has_spill_of(cells: &PlaceMap<Cell>, anchor: (i32, i32), place: (i32, i32)) -> bool
    ensures { result ≡ is_spill_of anchor (shape_at celled cells.now place) }
{
    match cells.get(place.0, place.1) {
        Some(cell) => is_spill_of(cell, anchor),
        None => false,
    }
}

/// Whether a place of a block is its first, or holds a cell of the spill of the formula there.
fn is_filled_at(cells: &PlaceMap<Cell>, block: &Block, place: (i32, i32)) -> bool
    ensures { result ≡ is_filled_at celled cells.now block.now place }
{
    is_same(place, block.first()) || has_spill_of(cells, block.first(), place)
}

/// Whether each place of a row of a block is so. It stops at the first that isn't.
fn is_row_filled(cells: &PlaceMap<Cell>, block: &Block, row: i32) -> bool
    requires { is_area block.now ≡ true }
    ensures { Decides result (IsRowFilled celled cells.now block.now row) }
{
    for column in block.column..block.column + block.width {
        if !is_filled_at(cells, block, (row, column)) {
            return false;
        }
    }
    true
}

/// Whether each place of a block is so. It stops at the first that isn't, so all blocks that are asked for together cost no
/// more than there are cells: each cell of a spill names one formula.
fn is_filled(cells: &PlaceMap<Cell>, block: &Block) -> bool
    requires { is_area block.now ≡ true }
    ensures { Decides result (IsFilled celled cells.now block.now) }
{
    for row in block.row..block.row + block.height {
        if !is_row_filled(cells, block, row) {
            return false;
        }
    }
    true
}

/// Whether the area of the array whose formula stands at a place lies in the sheet and has its spill.
fn has_spill(cells: &PlaceMap<Cell>, place: (i32, i32), width: i32, height: i32) -> bool
    ensures { Decides result (HasSpill celled cells.now place width height) }
{
    let block = Block::at(place, width, height);
    block.is_area() && is_filled(cells, &block)
}

/// Whether a place lies in the area of the array of the formula at another.
fn is_in_array(cells: &PlaceMap<Cell>, anchor: (i32, i32), place: (i32, i32)) -> bool
    ensures { result ≡ is_in_array place (array_of celled cells.now anchor) }
{
    match array_of(cells, anchor) {
        Some(array) => array.block.has(place),
        None => false,
    }
}

/// Whether an array's formula has its spill, and a spill's cell lies in the area of its array.
fn is_whole(cells: &PlaceMap<Cell>, place: (i32, i32), cell: &Cell) -> bool
    ensures { Decides result (IsWhole celled cells.now place (shape_of cell.now)) }
{
    match cell {
        Cell::ArrayFormula { r, .. } => has_spill(cells, place, r.0, r.1),
        Cell::SpillCell { a, .. } => is_in_array(cells, *a, place),
        _ => true,
    }
}

/// The same of each cell of a map.
fn are_whole(map: &BTreeMap<(i32, i32), Cell>, cells: &PlaceMap<Cell>) -> bool
    ensures all { Decides result (All (λ (e : Place × Cell). IsWhole celled cells.now e.0
        (shape_of e.1)) map.now.entries) }
    ensures ordered { IsOrdered place_cmp map.now }
{
    for (place, cell) in map.iter() {
        if !is_whole(cells, *place, cell) {
            return false;
        }
    }
    true
}

impl Grid {
    /// Whether its arrays are whole: the area of each is at least one place and lies in the sheet, each place of it other
    /// than the formula's is a cell of its spill, and each cell of a spill lies in the area of the array whose formula it
    /// tells. It looks at each cell once and at each cell of a spill once more. No memory is taken.
    pub fn has_whole_arrays(&self) -> bool
        ensures { Decides result (AreArrays celled self.now.cells) }
    {
        are_whole(self.cells.as_map(), &self.cells)
    }
}
