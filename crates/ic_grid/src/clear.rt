//! Clearing.
ghost use Rattle.std.specs.Prelude.{◌≡◌, true, false, OnErr, OnOk};
ghost use Rattle.ic_grid.specs.Arrays.{HasNoCrossing, has_cut};
ghost use Rattle.ic_grid.specs.Block.{block_at, is_area};
ghost use Rattle.ic_grid.specs.Calls.{can_clear};
ghost use Rattle.ic_grid.specs.Clear.{cleared, wiping};
ghost use Rattle.ic_grid.specs.Conditions.{AreArrays, AreInSheet};
ghost use Rattle.ic_grid.specs.Shape.{celled};
ghost use Rattle.ic_grid.specs.Whole.{IsGrid};

use crate::arrays::{Sought, has_sought};
use crate::changes::{Change, change_block};
use crate::prepare::prepare_block;
use crate::walk::has_crossing;
use crate::{Block, Grid, GridError};
use ic_cells::{Cell, PlaceMap};

/// What becomes of the cells of a block that is cleared.
fn wiping(all: bool) -> Change
    ensures { result ≡ wiping all }
{
    if all { Change::Take } else { Change::Empty }
}

/// Whether a Cse array of more than one cell lies partly in a block, given whether an array crosses its edge.
fn has_cut(cells: &PlaceMap<Cell>, block: &Block, crossing: bool) -> bool
    requires area { is_area block.now ≡ true }
    requires none { crossing ≡ false → HasNoCrossing cells.now block.now }
    ensures { result ≡ has_cut celled cells.now block.now }
{
    if !crossing {
        return false;
    }
    has_sought(Sought::Cut, cells, block)
}

/// Clears a block: each array with a cell in it is released, and its cells are emptied, or all taken away.
fn clear_released(cells: &mut PlaceMap<Cell>, block: &Block, all: bool)
    requires area { is_area block.now ≡ true }
    requires inside { AreInSheet celled cells.old }
    requires arrays { AreArrays celled cells.old }
    ensures { cells.new ≡ cleared celled block.now all cells.old }
{
    prepare_block(cells, block);
    change_block(cells, block, wiping(all));
}

/// Clears a block whose edge no array crosses: nothing outside changes, and an array in it is gone with its cells.
fn clear_inside(cells: &mut PlaceMap<Cell>, block: &Block, all: bool)
    requires area { is_area block.now ≡ true }
    requires arrays { AreArrays celled cells.old }
    requires none { HasNoCrossing cells.old block.now }
    ensures { cells.new ≡ cleared celled block.now all cells.old }
{
    change_block(cells, block, wiping(all));
}

/// Clears a block, given whether an array crosses its edge.
fn clear_block(cells: &mut PlaceMap<Cell>, block: &Block, all: bool, crossing: bool)
    requires area { is_area block.now ≡ true }
    requires inside { AreInSheet celled cells.old }
    requires arrays { AreArrays celled cells.old }
    requires none { crossing ≡ false → HasNoCrossing cells.old block.now }
    ensures { cells.new ≡ cleared celled block.now all cells.old }
{
    if crossing {
        clear_released(cells, block, all);
    } else {
        clear_inside(cells, block, all);
    }
}

impl Grid {
    /// Clears a block of the sheet, from a place on: each cell in it is emptied and keeps its style, or with `all` is taken
    /// away. An array that has a cell in it is released: its formula, where that is outside, has no value and is for its own
    /// cell alone, and the cells of its spill outside are emptied. `ClearArray` comes exactly where a Cse array of more than
    /// one cell lies partly in the block, and then all is as before. Only cells that are there cost anything: those of the
    /// block and of these arrays. No memory is taken.
    pub fn clear(
        &mut self,
        row: i32,
        column: i32,
        width: i32,
        height: i32,
        all: bool,
    ) -> Result<(), GridError>
        requires whole { IsGrid self.old }
        requires area { is_area (block_at (row, column) width height) ≡ true }
        ensures answer { result
            ≡ can_clear celled self.old.cells (block_at (row, column) width height) }
        ensures ok { OnOk result (self.new ≡ record self.old {
          cells = cleared celled (block_at (row, column) width height) all self.old.cells;
        }) }
        ensures kept { OnErr result (self.new ≡ self.old) }
        ensures whole { IsGrid self.new }
    {
        let block = Block::at((row, column), width, height);
        let crossing = has_crossing(&self.cells, &block);
        if has_cut(&self.cells, &block, crossing) {
            return Err(GridError::ClearArray);
        }
        clear_block(&mut self.cells, &block, all, crossing);
        Ok(())
    }
}
