//! Preparing a place for writing.
ghost use Rattle.std.specs.Prelude.{◌≡◌, true, IsSome};
ghost use Rattle.ic_grid.specs.Arrays.{array_of};
ghost use Rattle.ic_grid.specs.Block.{is_area};
ghost use Rattle.ic_grid.specs.Conditions.{AreArrays, AreInSheet};
ghost use Rattle.ic_grid.specs.Prepare.{loosened_in, prepared, released};
ghost use Rattle.ic_grid.specs.Shape.{celled};

use crate::Block;
use crate::arrays::{anchor_at, array_of};
use crate::changes::{reset, right_of, unspill_block};
use crate::walk::next_in;
use ic_cells::{Cell, PlaceMap};

/// Releases the array of the formula at a place: the formula has no value and is for its own cell alone, and the cells of
/// its spill are emptied. No memory is taken.
pub fn release(cells: &mut PlaceMap<Cell>, anchor: (i32, i32))
    requires arrays { AreArrays celled cells.old }
    requires anchor { IsSome (array_of celled cells.old anchor) }
    ensures { cells.new ≡ released celled anchor cells.old }
{
    if let Some(array) = array_of(cells, anchor) {
        unspill_block(cells, &array.block);
        reset(cells, anchor);
    }
}

/// Prepares a place for writing: the array that it belongs to, if any, is released. No memory is taken.
pub fn prepare(cells: &mut PlaceMap<Cell>, place: (i32, i32))
    requires { AreArrays celled cells.old }
    ensures { cells.new ≡ prepared celled place cells.old }
{
    if let Some(anchor) = anchor_at(cells, place) {
        release(cells, anchor);
    }
}

/// Releases each array that has a cell in a block. It looks at the cells of the block that are there alone, and at those of
/// these arrays. No memory is taken.
pub fn prepare_block(cells: &mut PlaceMap<Cell>, block: &Block)
    requires area { is_area block.now ≡ true }
    requires inside { AreInSheet celled cells.old }
    requires arrays { AreArrays celled cells.old }
    ensures { cells.new ≡ loosened_in celled block.now cells.old }
{
    let mut at = block.first();
    while let Some(place) = next_in(cells, block, at) {
        prepare(cells, place);
        at = right_of(place);
    }
}
