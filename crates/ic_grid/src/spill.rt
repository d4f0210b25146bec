//! Giving an array its values.
ghost use Rattle.std.specs.Prelude.{◌≡◌, true, Some, length, IfOk, IfErr, OnErr, OnOk, Ok};
ghost use Rattle.std.specs.FinMap as finite;
ghost use Rattle.ic_grid.specs.Block.{block_at, first_place, is_area};
ghost use Rattle.ic_grid.specs.Arrays.{array_of};
ghost use Rattle.ic_grid.specs.Conditions.{AreArrays, AreInSheet};
ghost use Rattle.ic_grid.specs.Prepare.{without_spill};
ghost use Rattle.ic_grid.specs.Rows.{place_count, placed};
ghost use Rattle.ic_grid.specs.Merges.{is_merged};
ghost use Rattle.ic_grid.specs.Shape.{Anchor, celled, gathered, is_cse, shape_of};
ghost use Rattle.ic_grid.specs.Value.{formula_array, shape_at};
ghost use Rattle.ic_grid.specs.Whole.{IsGrid};
ghost use Rattle.ic_grid.specs.Spill.{blocks, array_cells, first_of_blocking, first_to_block, has_other_area, is_free, misfits, spilled};
ghost use Rattle.ic_grid.specs.Calls.{IsRefusal, can_spill, spill_answer};

use crate::arrays::formula_array;
use crate::block::{is_in_sheet, is_same};
use crate::changes::{next_place, put_all, unspill_block};
use crate::merges::is_merged;
use crate::room::make_room;
use crate::{Array, Block, Grid, GridError};
use ic_cells::{ArrayKind, ArrayValue, Cell, ErrorNote, FormulaValue, Merge, PlaceMap, SpillValue};
use ic_laws::OutOfMemory;
use std::alloc::Global;

/// Whether a cell is empty, or one of the spill of the formula at a place.
fn is_free(cell: &Cell, anchor: (i32, i32)) -> bool
    ensures { result ≡ is_free anchor (shape_of cell.now) }
{
    match cell {
        Cell::EmptyCell { .. } => true,
        Cell::SpillCell { a, .. } => is_same(anchor, *a),
        _ => false,
    }
}

/// The same of what stands at a place, where nothing at all is as an empty cell.
fn is_free_at(cells: &PlaceMap<Cell>, place: (i32, i32), anchor: (i32, i32)) -> bool
    ensures { result ≡ is_free anchor (shape_at celled cells.now place) }
{
    match cells.get(place.0, place.1) {
        Some(cell) => is_free(cell, anchor),
        None => true,
    }
}

/// Whether a place keeps the array of the formula at another from spilling.
fn blocks(cells: &PlaceMap<Cell>, merges: &[Merge], anchor: (i32, i32), place: (i32, i32)) -> bool
    ensures { result ≡ blocks celled merges.now cells.now anchor place }
{
    !is_in_sheet(place)
        || is_merged(merges, place)
        || !(is_same(place, anchor) || is_free_at(cells, place, anchor))
}

/// The first of so many places of a block, by rows, that does.
fn first_of_blocking(
    cells: &PlaceMap<Cell>,
    merges: &[Merge],
    block: &Block,
    count: usize,
) -> Option<(i32, i32)>
    ensures { result ≡ first_of_blocking celled merges.now cells.now (first_place block.now)
        block.now count (first_place block.now) }
{
    let anchor = block.first();
    let mut at = block.first();
    for turn in 0..count {
        if blocks(cells, merges, anchor, at) {
            return Some(at);
        }
        at = next_place(block, at);
    }
    None
}

/// Whether an array has another area than a block.
fn has_other_area(block: &Block, array: &Array) -> bool
    ensures { result ≡ has_other_area block.now.width block.now.height
        (Anchor array.now.block.width array.now.block.height array.now.kind) }
{
    !(array.block.width == block.width && array.block.height == block.height)
}

/// Whether it is a Cse array.
fn is_cse(array: &Array) -> bool
    ensures { result ≡ is_cse array.now.kind }
{
    matches!(array.kind, ArrayKind::Cse)
}

/// Whether so many values don't fit a block from the formula of an array on.
fn misfits(block: &Block, count: usize, array: &Array) -> bool
    ensures { result ≡ misfits block.now count
        (Anchor array.now.block.width array.now.block.height array.now.kind) }
{
    if block.width < 1 || block.height < 1 {
        return true;
    }
    if i128::from(block.width) * i128::from(block.height) != count as i128 {
        return true;
    }
    is_cse(array) && has_other_area(block, array)
}

/// The first of so many places of a block, by rows, that keeps the array of the formula at its first place from spilling.
fn first_to_block(
    cells: &PlaceMap<Cell>,
    merges: &[Merge],
    block: &Block,
    count: usize,
    array: &Array,
) -> Option<(i32, i32)>
    ensures { result ≡ first_to_block celled merges.now cells.now block.now count
        (Anchor array.now.block.width array.now.block.height array.now.kind) }
{
    if is_cse(array) || block.is_single() {
        return None;
    }
    first_of_blocking(cells, merges, block, count)
}

/// Whether so many values can be given to the array of the formula at the first place of a block: Ok, or why they can't.
fn can_spill(
    cells: &PlaceMap<Cell>,
    merges: &[Merge],
    block: &Block,
    count: usize,
    array: &Array,
) -> Result<(), GridError>
    ensures { result ≡ spill_answer celled merges.now cells.now block.now count
        (Anchor array.now.block.width array.now.block.height array.now.kind) }
{
    if misfits(block, count, array) {
        return Err(GridError::BadArea);
    }
    match first_to_block(cells, merges, block, count, array) {
        Some(place) => Err(GridError::SpillBlocked {
            row: place.0,
            column: place.1,
        }),
        None => Ok(()),
    }
}

/// The value of a spill's cell as a formula has it: the texts that go with an error are empty. It takes no memory.
pub fn gathered(value: SpillValue) -> FormulaValue
    ensures { result ≡ gathered value }
{
    match value {
        SpillValue::Boolean(truth) => FormulaValue::Boolean(truth),
        SpillValue::Number(amount) => FormulaValue::Number(amount),
        SpillValue::Text(text) => FormulaValue::Text(text),
        SpillValue::Error(ei) => FormulaValue::Error {
            ei,
            note: ErrorNote::empty(),
        },
    }
}

/// The same as an array formula keeps it. Only memory can be missing.
fn gathered_kept(alloc: Global, value: SpillValue) -> Result<ArrayValue, OutOfMemory>
    ensures { IfOk result (λ kept. kept ≡ gathered value) }
{
    ArrayValue::new(alloc, gathered(value))
}

/// Puts the cells of an array into a block, in place of the spill of the array whose formula stands at its first place.
fn place_array(
    cells: &mut PlaceMap<Cell>,
    array: &Array,
    block: &Block,
    items: Vec<Cell>,
) -> Result<(), OutOfMemory>
    requires inside { AreInSheet celled cells.old }
    requires arrays { AreArrays celled cells.old }
    requires array { array_of celled cells.old (first_place block.now) ≡ Some array.now }
    requires area { is_area block.now ≡ true }
    requires count { length items.items ≡ place_count block.now }
    ensures ok { OnOk result (cells.new ≡ placed block.now (first_place block.now) items.items
        (without_spill celled (first_place block.now) cells.old)) }
    ensures err { OnErr result (cells.new ≡ cells.old) }
{
    make_room(cells, block)?;
    unspill_block(cells, &array.block);
    put_all(cells, block, items);
    Ok(())
}

impl Grid {
    /// The cells of an array with these values, by rows: its formula, and for each other value a cell of its spill, in the
    /// style of its place.
    fn array_cells(
        &self,
        block: &Block,
        f: usize,
        s: usize,
        kind: ArrayKind,
        values: Vec<SpillValue>,
    ) -> Result<Vec<Cell>, OutOfMemory>
        requires area { is_area block.now ≡ true }
        requires count { length values.items ≡ place_count block.now }
        ensures { IfOk result (λ items. items.items ≡ array_cells self.now.rows self.now.columns
            self.now.cells block.now f s kind values.items) }
    {
        let alloc = self.cells.alloc();
        let mut items = Vec::new(alloc);
        let mut rest = values.into_iter();
        let Some(value) = rest.next() else {
            return Ok(items);
        };
        let anchor = block.first();
        let kept = gathered_kept(alloc, value)?;
        items.push(Cell::ArrayFormula {
            kind,
            f,
            s,
            r: block.area(),
            v: kept,
        })?;
        let mut at = next_place(block, anchor);
        while let Some(v) = rest.next() {
            let s = self.style_of_place(at);
            items.push(Cell::SpillCell { s, a: anchor, v })?;
            at = next_place(block, at);
        }
        Ok(items)
    }

    /// Gives the array of the formula at the first place of a block these values, that may be given to it there.
    fn spill_array(
        &mut self,
        block: &Block,
        f: usize,
        s: usize,
        array: &Array,
        values: Vec<SpillValue>,
    ) -> Result<(), OutOfMemory>
        requires whole { IsGrid self.old }
        requires formula { formula_array (first_place block.now)
            (finite.get self.old.cells (first_place block.now)) ≡ Some (f, s, array.now) }
        requires allowed { spill_answer celled self.old.merged_cells self.old.cells block.now
            (length values.items)
            (Anchor array.now.block.width array.now.block.height array.now.kind) ≡ Ok tt }
        ensures ok { OnOk result (self.new ≡ record self.old {
          cells = spilled celled self.old.rows self.old.columns block.now values.items
              self.old.cells;
        }) }
        ensures err { OnErr result (self.new ≡ self.old) }
        ensures whole { IsGrid self.new }
    {
        let items = self.array_cells(block, f, s, array.kind, values)?;
        place_array(&mut self.cells, array, block, items)?;
        Ok(())
    }

    /// Gives the array formula at a place its values, by rows: the old spill of a dynamic array is emptied, its area is now
    /// the block of so many columns and rows from the formula on, the first value is the formula's, and the others stand in
    /// the cells of its spill, which keep the styles of their places. The block may pass the edge of the sheet.
    /// `NoFormulaCell` comes exactly where no array formula stands at the place; then `BadArea` where the width or the
    /// height is below 1, the number of values isn't their product, or a Cse array has another area; then, for a dynamic
    /// array and a block of more than one place, `SpillBlocked` with the first place of it, by rows, that is past the edge,
    /// one of merged cells, or neither the formula's, nor empty, nor of this array's spill. Memory can be missing. After an
    /// error all is as before.
    pub fn spill(
        &mut self,
        row: i32,
        column: i32,
        width: i32,
        height: i32,
        values: Vec<SpillValue>,
    ) -> Result<(), GridError>
        requires { IsGrid self.old }
        ensures allowed { OnOk result (can_spill celled self.old.merged_cells self.old.cells
            (block_at (row, column) width height) (length values.items) ≡ Ok tt) }
        ensures ok { OnOk result (self.new ≡ record self.old {
          cells = spilled celled self.old.rows self.old.columns
              (block_at (row, column) width height) values.items self.old.cells;
        }) }
        ensures err { IfErr result (IsRefusal (can_spill celled self.old.merged_cells
            self.old.cells (block_at (row, column) width height) (length values.items))) }
        ensures kept { OnErr result (self.new ≡ self.old) }
        ensures whole { IsGrid self.new }
    {
        let block = Block::at((row, column), width, height);
        let Some((f, s, array)) = formula_array(&self.cells, (row, column)) else {
            return Err(GridError::NoFormulaCell);
        };
        can_spill(
            &self.cells,
            self.merged_cells.as_slice(),
            &block,
            values.len(),
            &array,
        )?;
        self.spill_array(&block, f, s, &array, values)?;
        Ok(())
    }
}
