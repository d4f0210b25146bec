//! Writing the value of a formula.
ghost use Rattle.std.specs.Prelude.{◌≡◌, true, IfErr, IfOk, OnErr, OnOk, Ok, Some};
ghost use Rattle.std.specs.FinMap as finite;
ghost use Rattle.ic_cells.specs.declared.cell.ArrayKind.TheVariants as kinds;
ghost use Rattle.ic_grid.specs.Block.{first_place, is_area};
ghost use Rattle.ic_grid.specs.Calls.{IsRefusal, can_write_value};
ghost use Rattle.ic_grid.specs.Conditions.{AreArrays};
ghost use Rattle.ic_grid.specs.Rows.{place_count, spread_from};
ghost use Rattle.ic_grid.specs.Shape.{celled, single_formula, spread};
ghost use Rattle.ic_grid.specs.Value.{IsArrayThere, valued};
ghost use Rattle.ic_grid.specs.Whole.{IsGrid};

use crate::arrays::formula_array;
use crate::changes::{next_place, put_all, replace, style_or_zero, unspill_block};
use crate::{Array, Block, Grid, GridError};
use ic_cells::{ArrayKind, ArrayValue, Cell, FormulaValue, PlaceMap, SpillValue};
use ic_laws::{Boxed, Error, OutOfMemory};
use std::alloc::Global;

/// A copy of a formula's value as the cells of a spill have it: none at all is the error `ERROR`.
fn spread(alloc: Global, value: &FormulaValue) -> Result<SpillValue, OutOfMemory>
    ensures { IfOk result (λ v. v ≡ spread value.now) }
{
    match value {
        FormulaValue::Unevaluated => Ok(SpillValue::Error(Error::ERROR)),
        FormulaValue::Boolean(truth) => Ok(SpillValue::Boolean(*truth)),
        FormulaValue::Number(amount) => Ok(SpillValue::Number(*amount)),
        FormulaValue::Text(text) => Ok(SpillValue::Text(Boxed::from_str(
            alloc,
            text.as_ref().as_str(),
        )?)),
        FormulaValue::Error { ei, .. } => Ok(SpillValue::Error(*ei)),
    }
}

/// A cell of the spill of the formula at a place, with a copy of its value.
fn spread_cell(
    alloc: Global,
    style: usize,
    anchor: (i32, i32),
    value: &FormulaValue,
) -> Result<Cell, OutOfMemory>
    ensures { IfOk result (λ x. x ≡ celled.spill style anchor (spread value.now)) }
{
    let v = spread(alloc, value)?;
    Ok(Cell::SpillCell {
        s: style,
        a: anchor,
        v,
    })
}

/// A cell for each place of a block, by rows, each with its own style and a copy of the value.
fn spread_cells(
    cells: &PlaceMap<Cell>,
    block: &Block,
    value: &FormulaValue,
) -> Result<Vec<Cell>, OutOfMemory>
    requires { is_area block.now ≡ true }
    ensures { IfOk result (λ items. items.items ≡ spread_from cells.now block.now
        (spread value.now) (first_place block.now) (place_count block.now)) }
{
    let alloc = cells.alloc();
    let anchor = block.first();
    let mut items = Vec::new(alloc);
    let mut at = block.first();
    'places: while block.has(at) {
        let cell = spread_cell(alloc, style_or_zero(cells, at), anchor, value)?;
        items.push(cell)?;
        at = next_place(block, at);
    }
    Ok(items)
}

/// The formula with one value at a place, and its style, if one stands there.
fn single_at(cells: &PlaceMap<Cell>, place: (i32, i32)) -> Option<(usize, usize)>
    ensures { result ≡ single_formula (finite.get cells.now place) }
{
    match cells.get(place.0, place.1) {
        Some(Cell::CellFormula { f, s, .. }) => Some((*f, *s)),
        _ => None,
    }
}

/// Gives a dynamic formula a value: its spill is emptied, and it is for its own cell alone.
fn value_dynamic(cells: &mut PlaceMap<Cell>, f: usize, s: usize, array: &Array, value: ArrayValue)
    requires arrays { AreArrays celled cells.old }
    requires formula { IsArrayThere cells.old f s array.now }
    requires kind { array.now.kind ≡ kinds.Dynamic }
    ensures { cells.new ≡ valued celled (first_place array.now.block) value cells.old }
{
    unspill_block(cells, &array.block);
    let cell = Cell::ArrayFormula {
        kind: ArrayKind::Dynamic,
        f,
        s,
        r: (1, 1),
        v: value,
    };
    replace(cells, array.block.first(), cell);
}

/// Gives the formula of a Cse array a value, and a copy of it to each other cell of the array.
fn value_cse(
    cells: &mut PlaceMap<Cell>,
    f: usize,
    s: usize,
    array: &Array,
    value: FormulaValue,
) -> Result<(), OutOfMemory>
    requires arrays { AreArrays celled cells.old }
    requires formula { IsArrayThere cells.old f s array.now }
    requires kind { array.now.kind ≡ kinds.Cse }
    ensures ok { OnOk result (cells.new
        ≡ valued celled (first_place array.now.block) value cells.old) }
    ensures err { OnErr result (cells.new ≡ cells.old) }
{
    let items = spread_cells(cells, &array.block, &value)?;
    let kept = ArrayValue::new(cells.alloc(), value)?;
    put_all(cells, &array.block, items);
    let cell = Cell::ArrayFormula {
        kind: ArrayKind::Cse,
        f,
        s,
        r: array.block.area(),
        v: kept,
    };
    replace(cells, array.block.first(), cell);
    Ok(())
}

/// Gives an array formula a value. What is kept of it is made before anything changes.
fn value_array(
    cells: &mut PlaceMap<Cell>,
    f: usize,
    s: usize,
    array: &Array,
    value: FormulaValue,
) -> Result<(), OutOfMemory>
    requires arrays { AreArrays celled cells.old }
    requires formula { IsArrayThere cells.old f s array.now }
    ensures ok { OnOk result (cells.new
        ≡ valued celled (first_place array.now.block) value cells.old) }
    ensures err { OnErr result (cells.new ≡ cells.old) }
{
    match array.kind {
        ArrayKind::Dynamic => {
            let kept = ArrayValue::new(cells.alloc(), value)?;
            value_dynamic(cells, f, s, array, kept);
            Ok(())
        }
        ArrayKind::Cse => value_cse(cells, f, s, array, value),
    }
}

/// Gives a formula with one value another.
fn value_single(
    cells: &mut PlaceMap<Cell>,
    place: (i32, i32),
    f: usize,
    s: usize,
    value: FormulaValue,
)
    requires arrays { AreArrays celled cells.old }
    requires formula { single_formula (finite.get cells.old place) ≡ Some (f, s) }
    ensures { cells.new ≡ valued celled place value cells.old }
{
    replace(cells, place, Cell::CellFormula { f, s, v: value });
}

/// Gives the formula at a place a value.
fn value_at(
    cells: &mut PlaceMap<Cell>,
    place: (i32, i32),
    value: FormulaValue,
) -> Result<(), GridError>
    requires { AreArrays celled cells.old }
    ensures allowed { OnOk result (can_write_value celled cells.old place ≡ Ok tt) }
    ensures ok { OnOk result (cells.new ≡ valued celled place value cells.old) }
    ensures err { IfErr result (IsRefusal (can_write_value celled cells.old place)) }
    ensures kept { OnErr result (cells.new ≡ cells.old) }
{
    if let Some((f, s)) = single_at(cells, place) {
        value_single(cells, place, f, s, value);
        return Ok(());
    }
    if let Some((f, s, array)) = formula_array(cells, place) {
        value_array(cells, f, s, &array, value)?;
        return Ok(());
    }
    Err(GridError::NoFormulaCell)
}

impl Grid {
    /// Writes the value of the formula at a place of the sheet. The spill of a dynamic array is emptied, and the formula is
    /// for its own cell alone. Each other cell of a Cse array gets the value too, where none at all is the error `ERROR`.
    /// `NoFormulaCell` comes exactly where no formula stands at the place. Memory can only be missing for an array formula.
    /// After an error all is as before.
    pub fn write_value(
        &mut self,
        row: i32,
        column: i32,
        value: FormulaValue,
    ) -> Result<(), GridError>
        requires { IsGrid self.old }
        ensures allowed { OnOk result
            (can_write_value celled self.old.cells (row, column) ≡ Ok tt) }
        ensures ok { OnOk result (self.new
            ≡ record self.old { cells = valued celled (row, column) value self.old.cells }) }
        ensures err { IfErr result
            (IsRefusal (can_write_value celled self.old.cells (row, column))) }
        ensures kept { OnErr result (self.new ≡ self.old) }
        ensures whole { IsGrid self.new }
    {
        value_at(&mut self.cells, (row, column), value)?;
        Ok(())
    }
}
