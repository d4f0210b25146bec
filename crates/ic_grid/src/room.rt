//! Room for cells that are to come: memory is taken for them before anything changes.
ghost use Rattle.std.specs.Prelude.{◌≡◌, true, OnErr, OnOk};
ghost use Rattle.ic_grid.specs.Block.{is_area};
ghost use Rattle.ic_grid.specs.Conditions.{AreArrays, AreInSheet};
ghost use Rattle.ic_grid.specs.Room.{IsMarked, IsPadded, marked_at};
ghost use Rattle.ic_grid.specs.Rows.{IsFull};
ghost use Rattle.ic_grid.specs.Shape.{celled};

use crate::Block;
use crate::changes::{Change, change_block, next_place};
use crate::write::{is_there, put};
use ic_cells::{Cell, PlaceMap, SpillValue};
use ic_laws::OutOfMemory;

/// Puts a placeholder at a place, if no cell stands there.
fn mark(cells: &mut PlaceMap<Cell>, place: (i32, i32)) -> Result<(), OutOfMemory>
    ensures ok { OnOk result (cells.new ≡ marked_at place cells.old) }
    ensures err { OnErr result (cells.new ≡ cells.old) }
{
    if is_there(cells, place) {
        return Ok(());
    }
    let placeholder = Cell::SpillCell {
        s: 0,
        a: (0, 0),
        v: SpillValue::Boolean(false),
    };
    put(cells, place, placeholder)?;
    Ok(())
}

/// Puts a placeholder at each place of a block at which no cell stands, or at some of them where memory runs out.
fn mark_all(cells: &mut PlaceMap<Cell>, block: &Block) -> Result<(), OutOfMemory>
    requires { is_area block.now ≡ true }
    ensures marked { IsMarked block.now cells.old cells.new }
    ensures full { OnOk result (IsFull block.now cells.new) }
{
    let mut at = block.first();
    'places: while block.has(at) {
        mark(cells, at)?;
        at = next_place(block, at);
    }
    Ok(())
}

/// Makes a cell stand at each place of a block, a placeholder where none stood. Where memory runs out, all is as before.
pub fn make_room(cells: &mut PlaceMap<Cell>, block: &Block) -> Result<(), OutOfMemory>
    requires area { is_area block.now ≡ true }
    requires inside { AreInSheet celled cells.old }
    requires arrays { AreArrays celled cells.old }
    ensures marked { OnOk result (IsMarked block.now cells.old cells.new) }
    ensures full { OnOk result (IsFull block.now cells.new) }
    ensures err { OnErr result (cells.new ≡ cells.old) }
{
    match mark_all(cells, block) {
        Ok(()) => Ok(()),
        Err(lack) => {
            change_block(cells, block, Change::TakePlaceholder);
            Err(lack)
        }
    }
}

/// Makes a cell stand at each place of a block, an empty one where none stood. Where memory runs out, all is as before.
pub fn fill_up(cells: &mut PlaceMap<Cell>, block: &Block) -> Result<(), OutOfMemory>
    requires area { is_area block.now ≡ true }
    requires inside { AreInSheet celled cells.old }
    requires arrays { AreArrays celled cells.old }
    ensures padded { OnOk result (IsPadded block.now cells.old cells.new) }
    ensures full { OnOk result (IsFull block.now cells.new) }
    ensures err { OnErr result (cells.new ≡ cells.old) }
{
    make_room(cells, block)?;
    change_block(cells, block, Change::EmptyPlaceholder);
    Ok(())
}
