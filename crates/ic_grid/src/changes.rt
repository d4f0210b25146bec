//! Changes of cells that are there. They take no memory.
ghost use Rattle.std.specs.Prelude.{◌≡◌, ◌≤ℤ◌, ◌<ℤ◌, ◌+ℤ◌, pos, true, false, IfNone, IfSome, IsSome, length, option_map};
ghost use Rattle.std.specs.FinMap as finite;
ghost use Rattle.ic_grid.specs.Block.{first_place, has_next_column, is_area, is_in_block, is_in_lines, next_place, same_place};
ghost use Rattle.ic_grid.specs.Change.{changed_at, changed_in, is_placeholder};
ghost use Rattle.ic_grid.specs.declared.changes.Change.TheVariants as changes;
ghost use Rattle.ic_grid.specs.Walk.{HasNoneIn, IsNextIn, right_of};
ghost use Rattle.ic_cells.specs.Cell.{style_of};
ghost use Rattle.std.specs.Option.{unwrap_or};
ghost use Rattle.ic_grid.specs.Contents.{changed_where};
ghost use Rattle.ic_grid.specs.Prepare.{anchor_reset, unspilled};
ghost use Rattle.ic_grid.specs.Rows.{IsFull, place_count, placed, style_or_zero};
ghost use Rattle.ic_grid.specs.Shape.{celled, emptied};

use crate::Block;
use crate::arrays::formula_array;
use crate::block::is_same;
use crate::walk::next_in;
use crate::whole::is_spill_of;
use ic_cells::{ArrayValue, Cell, PlaceMap};

/// Puts a cell where one stands.
pub fn replace(cells: &mut PlaceMap<Cell>, place: (i32, i32), cell: Cell)
    requires { IsSome (finite.get cells.old place) }
    ensures { cells.new ≡ finite.insert cells.old place cell }
{
    match cells.insert(place.0, place.1, cell) {
        Ok(_) => {}
        Err(_) => {}
    }
}

/// Empties a cell.
fn empty_cell(cell: &mut Cell)
    ensures { cell.new ≡ emptied celled cell.old }
{
    let s = cell.get_style();
    *cell = Cell::EmptyCell { s };
}

/// Empties a cell, if it is one of the spill of the formula at a place.
fn unspill_cell(cell: &mut Cell, anchor: (i32, i32))
    ensures { cell.new ≡ unspilled celled anchor cell.old }
{
    if is_spill_of(cell, anchor) {
        empty_cell(cell);
    }
}

/// The same of the cell at a place, if one stands there.
fn unspill(cells: &mut PlaceMap<Cell>, place: (i32, i32), anchor: (i32, i32))
    ensures { cells.new
        ≡ changed_where (λ q. same_place q place) (unspilled celled anchor) cells.old }
{
    if let Some(cell) = cells.get_mut(place.0, place.1) {
        unspill_cell(cell, anchor);
    }
}

/// Empties the cells of a spill in a row, from a column on, up to the last one, which is left out.
fn unspill_row(
    cells: &mut PlaceMap<Cell>,
    row: i32,
    column: i32,
    last_column: i32,
    anchor: (i32, i32),
)
    requires { column ≤ℤ last_column }
    ensures { cells.new ≡ changed_where (is_in_lines row (row +ℤ pos 1) column last_column)
        (unspilled celled anchor) cells.old }
{
    for at in column..last_column {
        unspill(cells, (row, at), anchor);
    }
}

/// Empties the cells of the spill in a block of the formula at its first place.
pub fn unspill_block(cells: &mut PlaceMap<Cell>, block: &Block)
    requires { is_area block.now ≡ true }
    ensures { cells.new ≡ changed_where (is_in_block block.now)
        (unspilled celled (first_place block.now)) cells.old }
{
    let last_column = block.column + block.width;
    let anchor = (block.row, block.column);
    for row in block.row..block.row + block.height {
        unspill_row(cells, row, block.column, last_column, anchor);
    }
}

/// Takes the formula of an array back to its own cell, without a value, if one stands at a place.
pub fn reset(cells: &mut PlaceMap<Cell>, place: (i32, i32))
    ensures { cells.new ≡ changed_where (λ q. same_place q place) (anchor_reset celled) cells.old }
{
    if let Some((f, s, array)) = formula_array(cells, place) {
        let cell = Cell::ArrayFormula {
            kind: array.kind,
            f,
            s,
            r: (1, 1),
            v: ArrayValue::unevaluated(),
        };
        replace(cells, place, cell);
    }
}

/// What a cell can be made into.
#[derive(Clone, Copy)]
pub enum Change {
    /// It is taken away.
    Take,
    /// It is emptied.
    Empty,
    /// A placeholder is taken away; another cell stays.
    TakePlaceholder,
    /// A placeholder is emptied; another cell stays.
    EmptyPlaceholder,
}

/// The number of the style of the cell at a place, if one stands there.
fn style_there(cells: &PlaceMap<Cell>, place: (i32, i32)) -> Option<usize>
    ensures { result ≡ option_map style_of (finite.get cells.now place) }
{
    match cells.get(place.0, place.1) {
        Some(cell) => Some(cell.get_style()),
        None => None,
    }
}

/// The same, 0 where no cell stands.
pub fn style_or_zero(cells: &PlaceMap<Cell>, place: (i32, i32)) -> usize
    ensures { result ≡ style_or_zero cells.now place }
{
    style_there(cells, place).unwrap_or(0)
}

/// Whether a placeholder stands at a place.
fn is_placeholder_at(cells: &PlaceMap<Cell>, place: (i32, i32)) -> bool
    ensures { result ≡ unwrap_or (option_map is_placeholder (finite.get cells.now place)) false }
{
    match cells.get(place.0, place.1) {
        Some(cell) => is_spill_of(cell, (0, 0)),
        None => false,
    }
}

/// Takes the cell at a place away, and answers whether one stood there.
fn take(cells: &mut PlaceMap<Cell>, place: (i32, i32)) -> bool
    ensures { cells.new ≡ changed_at place changes.Take cells.old }
{
    let taken = cells.remove(place.0, place.1);
    taken.is_some()
}

/// Empties the cell at a place, and answers whether one stands there.
fn empty(cells: &mut PlaceMap<Cell>, place: (i32, i32)) -> bool
    ensures { cells.new ≡ changed_at place changes.Empty cells.old }
{
    match cells.get_mut(place.0, place.1) {
        Some(cell) => {
            empty_cell(cell);
            true
        }
        None => false,
    }
}

/// Changes the cell at a place, and answers whether it did.
fn change_at(cells: &mut PlaceMap<Cell>, place: (i32, i32), change: Change) -> bool
    ensures { cells.new ≡ changed_at place change cells.old }
{
    match change {
        Change::Take => take(cells, place),
        Change::Empty => empty(cells, place),
        Change::TakePlaceholder => {
            if is_placeholder_at(cells, place) {
                take(cells, place)
            } else {
                false
            }
        }
        Change::EmptyPlaceholder => {
            if is_placeholder_at(cells, place) {
                empty(cells, place)
            } else {
                false
            }
        }
    }
}

/// The place to the right of another.
pub fn right_of(place: (i32, i32)) -> (i32, i32)
    requires { place.1 <ℤ pos 2147483647 }
    ensures { result ≡ right_of place }
{
    (place.0, place.1 + 1)
}

/// The next place of a block to be changed, from one on: that place itself where `close` says that a cell stood right before
/// it, since cells mostly stand close, and else the first at which a cell stands.
fn next_of(cells: &PlaceMap<Cell>, block: &Block, at: (i32, i32), close: bool) -> Option<(i32, i32)>
    requires area { is_area block.now ≡ true }
    requires row { block.now.row ≤ℤ at.0 }
    requires column { block.now.column ≤ℤ at.1 }
    ensures some { IfSome result (IsNextIn cells.now block.now at) }
    ensures none { IfNone result (HasNoneIn cells.now block.now at) }
{
    if close && block.has(at) {
        return Some(at);
    }
    next_in(cells, block, at)
}

/// Changes each cell of a block. It looks at the cells that are there, and at one place behind each run of them.
pub fn change_block(cells: &mut PlaceMap<Cell>, block: &Block, change: Change)
    requires { is_area block.now ≡ true }
    ensures { cells.new ≡ changed_in block.now change cells.old }
{
    let mut at = block.first();
    let mut close = true;
    while let Some(place) = next_of(cells, block, at, close) {
        close = change_at(cells, place, change) && is_same(place, at);
        at = next_place(block, place);
    }
}

/// Whether a block has a column to the right of a place.
fn has_next_column(block: &Block, place: (i32, i32)) -> bool
    ensures { result ≡ has_next_column block.now place }
{
    i64::from(place.1) + 1 < block.end_column()
}

/// The place after one of a block, by rows.
pub fn next_place(block: &Block, place: (i32, i32)) -> (i32, i32)
    requires row { place.0 <ℤ pos 2147483647 }
    requires column { place.1 <ℤ pos 2147483647 }
    ensures { result ≡ next_place block.now place }
{
    if has_next_column(block, place) {
        (place.0, place.1 + 1)
    } else {
        (place.0 + 1, block.column)
    }
}

/// Puts items at the places of a block, by rows, at each of which a cell stands. No memory is taken.
pub fn put_all(cells: &mut PlaceMap<Cell>, block: &Block, items: Vec<Cell>)
    requires area { is_area block.now ≡ true }
    requires full { IsFull block.now cells.old }
    requires count { length items.items ≡ place_count block.now }
    ensures { cells.new ≡ placed block.now (first_place block.now) items.items cells.old }
{
    let mut at = block.first();
    let mut rest = items.into_iter();
    while let Some(item) = rest.next() {
        replace(cells, at, item);
        at = next_place(block, at);
    }
}
