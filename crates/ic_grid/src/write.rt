//! Writing a cell.
ghost use Rattle.std.specs.Prelude.{◌≡◌, true, false, is_some, OnErr, OnOk, IfErr, Ok};
ghost use Rattle.std.specs.FinMap as finite;
ghost use Rattle.ic_grid.specs.Block.{is_in_sheet};
ghost use Rattle.ic_grid.specs.Calls.{IsRefusal, can_write};
ghost use Rattle.ic_grid.specs.Conditions.{AreArrays};
ghost use Rattle.ic_grid.specs.Prepare.{written};
ghost use Rattle.ic_grid.specs.Shape.{celled, is_loose, shape_of};
ghost use Rattle.ic_grid.specs.Whole.{IsGrid};

use crate::changes::replace;
use crate::prepare::prepare;
use crate::{Grid, GridError};
use ic_cells::{Cell, PlaceMap};
use ic_laws::OutOfMemory;

/// Whether a cell stands at a place.
pub fn is_there(cells: &PlaceMap<Cell>, place: (i32, i32)) -> bool
    ensures { result ≡ is_some (finite.get cells.now place) }
{
    cells.get(place.0, place.1).is_some()
}

/// Puts a cell at a place. Memory can only be missing where none stands there, and then nothing has changed.
pub fn put(cells: &mut PlaceMap<Cell>, place: (i32, i32), cell: Cell) -> Result<(), OutOfMemory>
    ensures ok { OnOk result (cells.new ≡ finite.insert cells.old place cell) }
    ensures err { OnErr result (cells.new ≡ cells.old) }
{
    cells.insert(place.0, place.1, cell)?;
    Ok(())
}

/// Writes a cell at a place that was prepared for it.
fn write_at(cells: &mut PlaceMap<Cell>, place: (i32, i32), cell: Cell) -> Result<(), OutOfMemory>
    requires { AreArrays celled cells.old }
    ensures ok { OnOk result (cells.new ≡ written celled place cell cells.old) }
    ensures err { OnErr result (cells.new ≡ cells.old) }
    ensures absent { OnErr result (is_some (finite.get cells.old place) ≡ false) }
{
    if is_there(cells, place) {
        prepare(cells, place);
        replace(cells, place, cell);
    } else {
        put(cells, place, cell)?;
    }
    Ok(())
}

impl Grid {
    /// Writes a cell at a place of the sheet: it is prepared, so that the array that it belongs to is released, and holds
    /// the cell, which is no cell of a spill and, where it is an array formula, for its own cell alone. `MergedPart` and
    /// `ArrayPart` come by their causes, in this order; memory can only be missing where no cell stands at the place. After
    /// an error all is as before.
    pub fn write(&mut self, row: i32, column: i32, cell: Cell) -> Result<(), GridError>
        requires whole { IsGrid self.old }
        requires place { is_in_sheet (row, column) ≡ true }
        requires cell { is_loose (shape_of cell) ≡ true }
        ensures allowed { OnOk result
            (can_write celled self.old.merged_cells self.old.cells (row, column) ≡ Ok tt) }
        ensures ok { OnOk result (self.new
            ≡ record self.old { cells = written celled (row, column) cell self.old.cells }) }
        ensures err { IfErr result
            (IsRefusal (can_write celled self.old.merged_cells self.old.cells (row, column))) }
        ensures kept { OnErr result (self.new ≡ self.old) }
        ensures absent { OnErr result
            (can_write celled self.old.merged_cells self.old.cells (row, column) ≡ Ok tt
            → is_some (finite.get self.old.cells (row, column)) ≡ false) }
        ensures whole { IsGrid self.new }
    {
        self.can_write(row, column)?;
        write_at(&mut self.cells, (row, column), cell)?;
        Ok(())
    }
}
