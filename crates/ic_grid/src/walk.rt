//! The cells of a block one after another, by rows. Places at which no cell stands aren't looked at.
ghost use Rattle.std.specs.Prelude.{◌≡◌, ◌≤ℤ◌, ◌<ℤ◌, ◌&&◌, pos, true, false, None, IfNone, IfSome};
ghost use Rattle.std.specs.BTreeMap as tree;
ghost use Rattle.std.specs.FinMap as finite;
ghost use Rattle.ic_cells.specs.Maps.{place_cmp};
ghost use Rattle.ic_grid.specs.Arrays.{HasNoCrossing};
ghost use Rattle.ic_grid.specs.Block.{is_area, is_in_block};
ghost use Rattle.ic_grid.specs.Walk.{HasNone, HasNoneIn, IsFirst, IsFirstIn, IsFirstPassing, IsSeen, NonePasses, is_wanted, row_behind, wanted_at};

use crate::Block;
use crate::arrays::is_crossing;
use ic_cells::{Cell, PlaceMap};
use std::collections::BTreeMap;

/// The first place from one on, by rows, at which something stands.
fn first_of(map: &BTreeMap<(i32, i32), Cell>, from: (i32, i32)) -> Option<(i32, i32)>
    ensures some { IfSome result (IsFirst (tree.get place_cmp map.now) from) }
    ensures none { IfNone result (HasNone (tree.get place_cmp map.now) from) }
{
    match map.range(from..).next() {
        Some((place, _)) => Some(*place),
        None => None,
    }
}

/// The first place of a sheet from one on, by rows and in a row by columns, at which a cell stands. None exactly where none
/// does.
pub fn first_from(cells: &PlaceMap<Cell>, from: (i32, i32)) -> Option<(i32, i32)>
    ensures some { IfSome result (IsFirst (finite.get cells.now) from) }
    ensures none { IfNone result (HasNone (finite.get cells.now) from) }
{
    first_of(cells.as_map(), from)
}

/// Where the next row of a block begins behind a place that isn't one of its columns.
fn row_behind(block: &Block, place: (i32, i32)) -> (i32, i32)
    requires { place.0 <ℤ pos 2147483647 }
    ensures { result ≡ row_behind block.now place }
{
    if place.1 < block.column {
        (place.0, block.column)
    } else {
        (place.0 + 1, block.column)
    }
}

/// Which cells of a block a walk stops at.
#[derive(Clone, Copy)]
pub enum Wanted {
    /// Each cell.
    Any,
    /// Those that tell of an array with a cell outside of the block.
    Crossing,
}

/// Whether a walk over a block stops at a cell which is at a place of it.
fn is_wanted(wanted: Wanted, block: &Block, place: (i32, i32), cell: &Cell) -> bool
    ensures { result ≡ is_wanted wanted block.now place cell.now }
{
    match wanted {
        Wanted::Any => true,
        Wanted::Crossing => is_crossing(block, place, cell),
    }
}

/// Whether a walk over a block stops at a place with a cell.
fn stops_at(wanted: Wanted, block: &Block, place: (i32, i32), cell: &Cell) -> bool
    ensures { result ≡ is_in_block block.now place && is_wanted wanted block.now place cell.now }
{
    block.has(place) && is_wanted(wanted, block, place, cell)
}

/// How many cells of a row beside a block are passed before the next row is searched.
const STEPS: u32 = 2;

/// How far a walk has come in a row.
#[derive(Clone, Copy)]
struct Pace {
    row: i32,
    left: u32,
}

impl Pace {
    /// Whether the walk goes on to the next cell from one at a place: it doesn't where too many of the row stand beside the
    /// block.
    fn goes_on(&mut self, block: &Block, place: (i32, i32)) -> bool
        ensures { result ≡ false → is_in_block block.now place ≡ false }
    {
        if block.has(place) {
            return true;
        }
        if place.0 != self.row {
            self.row = place.0;
            self.left = STEPS;
            return true;
        }
        if self.left == 0 {
            return false;
        }
        self.left -= 1;
        true
    }
}

/// What a walk over the cells from a place on has come to.
#[derive(Clone, Copy)]
enum Seen {
    /// A cell of the block at which it stops.
    Found((i32, i32)),
    /// One beside the block. It goes on behind it by a search.
    Passed((i32, i32)),
    /// No cell of the block is left.
    End,
}

/// Goes over the cells from a place on, one after another, until one is found at which the walk over a block stops, or many
/// stand beside it.
fn look_on(
    map: &BTreeMap<(i32, i32), Cell>,
    block: &Block,
    from: (i32, i32),
    wanted: Wanted,
) -> Seen
    requires { is_area block.now ≡ true }
    ensures { IsSeen (wanted_at wanted block.now (tree.get place_cmp map.now)) block.now from
        result }
{
    let last_row = block.row + block.height;
    let mut pace = Pace {
        row: from.0,
        left: STEPS,
    };
    let mut cells = map.range(from..);
    while let Some((place, cell)) = cells.next() {
        if stops_at(wanted, block, *place, cell) {
            return Seen::Found(*place);
        }
        if place.0 >= last_row {
            return Seen::End;
        }
        if !pace.goes_on(block, *place) {
            return Seen::Passed(*place);
        }
    }
    Seen::End
}

/// How far it comes over the cells of a sheet.
fn look_in(cells: &PlaceMap<Cell>, block: &Block, from: (i32, i32), wanted: Wanted) -> Seen
    requires { is_area block.now ≡ true }
    ensures { IsSeen (wanted_at wanted block.now (finite.get cells.now)) block.now from result }
{
    look_on(cells.as_map(), block, from, wanted)
}

/// The first place of a block from one on, by rows, with a cell at which a walk stops. Where no cell stands in a row of the
/// sheet, the row costs nothing; where few stand beside the block, a step for each. Where nothing may stand in the columns of
/// the block, the rows aren't looked at; this is asked in its first two rows alone, since a walk comes further mostly behind a
/// cell of the block.
fn next_wanted(
    cells: &PlaceMap<Cell>,
    block: &Block,
    from: (i32, i32),
    wanted: Wanted,
) -> Option<(i32, i32)>
    requires area { is_area block.now ≡ true }
    requires row { block.now.row ≤ℤ from.0 }
    requires column { block.now.column ≤ℤ from.1 }
    ensures some { IfSome result
        (IsFirstPassing (wanted_at wanted block.now (finite.get cells.now)) block.now from) }
    ensures none { IfNone result
        (NonePasses (wanted_at wanted block.now (finite.get cells.now)) block.now from) }
{
    if from.0 <= block.row + 1 && !cells.may_stand_in(block.column, block.column + block.width) {
        return None;
    }
    let last_row = block.row + block.height;
    let mut at = from;
    for turn in block.row..last_row {
        match look_in(cells, block, at, wanted) {
            Seen::Found(place) => {
                return Some(place);
            }
            Seen::End => {
                return None;
            }
            Seen::Passed(place) => {
                at = row_behind(block, place);
            }
        }
    }
    None
}

/// The first place of a block from one on, by rows, at which a cell stands.
pub fn next_in(cells: &PlaceMap<Cell>, block: &Block, from: (i32, i32)) -> Option<(i32, i32)>
    requires area { is_area block.now ≡ true }
    requires row { block.now.row ≤ℤ from.0 }
    requires column { block.now.column ≤ℤ from.1 }
    ensures some { IfSome result (IsFirstIn cells.now block.now from) }
    ensures none { IfNone result (HasNoneIn cells.now block.now from) }
{
    next_wanted(cells, block, from, Wanted::Any)
}

/// Whether a cell of a block tells of an array that has a cell outside of it. It steps over the cells once.
pub fn has_crossing(cells: &PlaceMap<Cell>, block: &Block) -> bool
    requires { is_area block.now ≡ true }
    ensures { result ≡ false → HasNoCrossing cells.now block.now }
{
    match next_wanted(cells, block, block.first(), Wanted::Crossing) {
        Some(_) => true,
        None => false,
    }
}
