//! Which array a place belongs to.
ghost use Rattle.std.specs.Prelude.{◌≡◌, option_and_then, true};
ghost use Rattle.std.specs.FinMap as finite;
ghost use Rattle.ic_grid.specs.Arrays.{anchor_at, anchor_of, array_at, array_of, has_sought, is_crossing, is_cut_by, is_fixed, is_sought};
ghost use Rattle.ic_grid.specs.Block.{is_area};
ghost use Rattle.ic_grid.specs.Shape.{celled, shape_of};
ghost use Rattle.ic_grid.specs.Value.{formula_array};

use crate::changes::right_of;
use crate::walk::next_in;
use crate::{Array, Block};
use ic_cells::{ArrayKind, Cell, PlaceMap};

/// Where the formula stands of the array that a place belongs to.
pub fn anchor_at(cells: &PlaceMap<Cell>, place: (i32, i32)) -> Option<(i32, i32)>
    ensures { result ≡ anchor_at celled cells.now place }
{
    match cells.get(place.0, place.1) {
        Some(Cell::ArrayFormula { .. }) => Some(place),
        Some(Cell::SpillCell { a, .. }) => Some(*a),
        _ => None,
    }
}

/// The formula, the style and the array of the array formula at a place, if one stands there.
pub fn formula_array(cells: &PlaceMap<Cell>, place: (i32, i32)) -> Option<(usize, usize, Array)>
    ensures { result ≡ formula_array place (finite.get cells.now place) }
{
    match cells.get(place.0, place.1) {
        Some(Cell::ArrayFormula { kind, f, s, r, .. }) => Some((
            *f,
            *s,
            Array {
                block: Block::at(place, r.0, r.1),
                kind: *kind,
            },
        )),
        _ => None,
    }
}

/// The array of the formula at a place.
pub fn array_of(cells: &PlaceMap<Cell>, place: (i32, i32)) -> Option<Array>
    ensures { result ≡ array_of celled cells.now place }
{
    match cells.get(place.0, place.1) {
        Some(Cell::ArrayFormula { kind, r, .. }) => Some(Array {
            block: Block {
                row: place.0,
                column: place.1,
                width: r.0,
                height: r.1,
            },
            kind: *kind,
        }),
        _ => None,
    }
}

/// The array that a cell belongs to which is at a place.
fn array_of_cell(cells: &PlaceMap<Cell>, place: (i32, i32), cell: &Cell) -> Option<Array>
    ensures { result
        ≡ option_and_then (array_of celled cells.now) (anchor_of place (shape_of cell.now)) }
{
    match cell {
        Cell::ArrayFormula { .. } => array_of(cells, place),
        Cell::SpillCell { a, .. } => array_of(cells, *a),
        _ => None,
    }
}

/// Whether a cell which is at a place tells of an array that has a cell outside of a block: an array formula whose area isn't
/// within it, or a spill's cell whose formula stands outside.
pub fn is_crossing(block: &Block, place: (i32, i32), cell: &Cell) -> bool
    ensures { result ≡ is_crossing block.now place (shape_of cell.now) }
{
    match cell {
        Cell::ArrayFormula { r, .. } => !Block::at(place, r.0, r.1).is_within(block),
        Cell::SpillCell { a, .. } => !block.has(*a),
        _ => false,
    }
}

/// The array that a place belongs to.
fn array_at(cells: &PlaceMap<Cell>, place: (i32, i32)) -> Option<Array>
    ensures { result ≡ array_at celled cells.now place }
{
    match cells.get(place.0, place.1) {
        Some(cell) => array_of_cell(cells, place, cell),
        None => None,
    }
}

/// Whether it is a Cse array of more than one cell.
fn is_fixed(array: &Option<Array>) -> bool
    ensures { result ≡ is_fixed array.now }
{
    match array {
        Some(
            Array {
                block,
                kind: ArrayKind::Cse,
            },
        ) => !block.is_single(),
        _ => false,
    }
}

/// Whether a cell which is at a place belongs to a Cse array of more than one cell.
pub fn is_fixed_cell(cells: &PlaceMap<Cell>, place: (i32, i32), cell: &Cell) -> bool
    ensures { result ≡ is_fixed
        (option_and_then (array_of celled cells.now) (anchor_of place (shape_of cell.now))) }
{
    is_fixed(&array_of_cell(cells, place, cell))
}

/// Whether it is such an array, of which some cell is outside of a block.
fn is_cut_by(block: &Block, array: &Option<Array>) -> bool
    ensures { result ≡ is_cut_by block.now array.now }
{
    match array {
        Some(found) => is_fixed(array) && !found.block.is_within(block),
        None => false,
    }
}

/// Which Cse arrays of more than one cell are looked for in a block.
#[derive(Clone, Copy)]
pub enum Sought {
    /// Each of them.
    Fixed,
    /// Those that have a cell outside of the block too.
    Cut,
}

/// Whether an array is one of those that are looked for.
fn is_sought(sought: Sought, block: &Block, array: &Option<Array>) -> bool
    ensures { result ≡ is_sought sought block.now array.now }
{
    match sought {
        Sought::Fixed => is_fixed(array),
        Sought::Cut => is_cut_by(block, array),
    }
}

/// Whether some place of a block belongs to such an array. It looks at the cells of the block that are there alone.
pub fn has_sought(sought: Sought, cells: &PlaceMap<Cell>, block: &Block) -> bool
    requires { is_area block.now ≡ true }
    ensures { result ≡ has_sought celled cells.now sought block.now }
{
    let mut at = block.first();
    while let Some(place) = next_in(cells, block, at) {
        if is_sought(sought, block, &array_at(cells, place)) {
            return true;
        }
        at = right_of(place);
    }
    false
}
