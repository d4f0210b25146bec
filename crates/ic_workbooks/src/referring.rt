//! Where the references of formulas lie. No test here takes memory.
ghost use Rattle.std.specs.Prelude.{◌≡◌, ◌↔◌, Some, IsTrue, map};
ghost use Rattle.std.specs.Bool.{Decides};
ghost use Rattle.std.specs.List.{list_any};
ghost use Rattle.ic_laws.specs.Position.{is_inside, is_part_inside, place_at};
ghost use Rattle.ic_cells.specs.Cell.{cell_formula_index};
ghost use Rattle.ic_workbooks.specs.HandedIn.{HasFormulaAt, RefersInside};
ghost use Rattle.ic_workbooks.specs.Referring.{HasCellFormulas, some_outside};

use ic_cells::{Cell, PlaceMap};
use ic_laws::{
    Bound, Formula, LAST_COLUMN, LAST_ROW, LetPair, NameMention, Place, Position, RefPart,
    SheetMention, Tree,
};
use ic_pool::Pool;

/// Whether the formula of each cell that has one is among these, told by its index from 0, and each of its references
/// lies in the sheet at each such cell.
pub(crate) fn has_formulas(pool: &Pool, cells: &PlaceMap<Cell>) -> bool
    ensures { Decides result (HasCellFormulas pool.now.formulas cells.now) }
{
    for (place, cell) in cells.as_map().iter() {
        if !has_formula_at(pool, place, cell) {
            return false;
        }
    }
    true
}

/// The same of the cell at a place.
fn has_formula_at(pool: &Pool, place: &(i32, i32), cell: &Cell) -> bool
    ensures { IsTrue result ↔ HasFormulaAt pool.now.formulas place.now
        (cell_formula_index cell.now) }
{
    match cell.get_formula() {
        None => true,
        Some(index) => has_formula(pool, index, place),
    }
}

/// Whether a formula is at an index, from 0, and each of its references lies in the sheet, in the cell at a place.
fn has_formula(pool: &Pool, index: usize, place: &(i32, i32)) -> bool
    ensures { IsTrue result ↔ HasFormulaAt pool.now.formulas place.now (Some index) }
{
    match pool.get(index) {
        Some(formula) => is_formula_inside(formula, place),
        None => false,
    }
}

/// Whether each reference of a formula lies in the sheet, in the cell at a place, which may lie outside.
fn is_formula_inside(formula: &Formula, place: &(i32, i32)) -> bool
    ensures { IsTrue result ↔ RefersInside place.now.0 place.now.1 formula.now }
{
    match formula {
        Formula::Tree(tree) => !some_outside(tree, place),
        Formula::Raw(_) => true,
    }
}

/// Whether some reference of a tree lies outside the sheet, in the cell at a place.
#[cycle(some_outside)]
fn some_outside(tree: &Bound, at: &(i32, i32)) -> bool
    ensures { result ≡ some_outside at.now.0 at.now.1 tree.now }
{
    match tree {
        Tree::Reference(_, place) => !is_inside(place.place(), at),
        Tree::Paren(x) => some_outside(x.as_ref(), at),
        Tree::Prefix(_, x) => some_outside(x.as_ref(), at),
        Tree::Percent(x) => some_outside(x.as_ref(), at),
        Tree::Spill(x) => some_outside(x.as_ref(), at),
        Tree::Binary(_, a, b) => some_outside(a.as_ref(), at) || some_outside(b.as_ref(), at),
        Tree::Fun(_, arguments) => one_outside(arguments.as_slice(), at),
        Tree::Call(_, arguments) => one_outside(arguments.as_slice(), at),
        Tree::Let(pairs, body) => {
            one_value_outside(pairs.as_slice(), at) || some_outside(body.as_ref(), at)
        }
        Tree::Lambda(_, body) => some_outside(body.as_ref(), at),
        Tree::Apply(x, arguments) => {
            some_outside(x.as_ref(), at) || one_outside(arguments.as_slice(), at)
        }
        _ => false,
    }
}

/// Whether some reference of one of these trees does.
#[cycle(some_outside)]
fn one_outside(trees: &[Bound], at: &(i32, i32)) -> bool
    ensures { result ≡ list_any (λ b. b) (map (some_outside at.now.0 at.now.1) trees.now) }
{
    for tree in trees {
        if some_outside(tree, at) {
            return true;
        }
    }
    false
}

/// Whether some reference in the values of these variables does.
#[cycle(some_outside)]
fn one_value_outside(pairs: &[LetPair<SheetMention, NameMention>], at: &(i32, i32)) -> bool
    ensures { result ≡ list_any (λ b. b) (map (λ pair. some_outside at.now.0 at.now.1 pair.value)
        pairs.now) }
{
    for pair in pairs {
        if some_outside(&pair.value, at) {
            return true;
        }
    }
    false
}

/// Whether each corner of what a reference refers to lies in the sheet.
fn is_inside(place: Place, at: &(i32, i32)) -> bool
    ensures { result ≡ is_inside place at.now.0 at.now.1 }
{
    match place {
        Place::Cell(part) => is_part_inside(part, at),
        Place::Range(first, last) => is_part_inside(first, at) && is_part_inside(last, at),
    }
}

/// Whether a corner lies in the sheet.
fn is_part_inside(part: RefPart, at: &(i32, i32)) -> bool
    ensures { result ≡ is_part_inside part at.now.0 at.now.1 }
{
    let row = place_at(part.row, at.0);
    let column = place_at(part.column, at.1);
    1 <= row && row <= i64::from(LAST_ROW) && (1 <= column && column <= i64::from(LAST_COLUMN))
}

/// Where a position lies, in a cell whose row or column is the origin.
fn place_at(position: Position, origin: i32) -> i64
    ensures { result ≡ place_at position origin }
{
    match position {
        Position::Abs(number) => i64::from(number),
        Position::Rel(distance) => i64::from(origin) + i64::from(distance),
    }
}
