//! Whether an array fits, clearing, values of formulas and spills on the cells of one sheet: the steps of the machine on it.
ghost use Rattle.std.specs.Prelude.{false, true};
ghost use Rattle.ic_grid.specs.Whole.{IsGrid};
ghost use Rattle.ic_machine.specs.subjects.Arrays.{clear_step, put_spill_step, put_value_step};
ghost use Rattle.ic_machine.specs.Refusal.{first_refusal};
ghost use Rattle.ic_parts.specs.Arrays.{array_causes};
ghost use Rattle.ic_parts.specs.Does.{DoesGrid};
ghost use Rattle.ic_parts.specs.Fields.{no_fields};
ghost use Rattle.ic_parts.specs.Parts.{StaysHeld};
ghost use Rattle.ic_parts.specs.Refused.{TellsOnly};

use crate::BookError;
use ic_cells::{FormulaValue, SpillValue};
use ic_grid::{Block, Grid};

/// Whether an array may be written into a block of a sheet.
pub fn array_fits(grid: &Grid, block: Block) -> Result<(), BookError>
    ensures { TellsOnly result (first_refusal (array_causes grid.now block)) }
{
    if !block.is_area() {
        return Err(BookError::BadArea);
    }
    grid.can_write_array(block.row, block.column, block.width, block.height)?;
    Ok(())
}

/// Clears a block of a sheet.
pub fn clear(grid: &mut Grid, block: Block, all: bool) -> Result<(), BookError>
    requires { IsGrid grid.old }
    ensures does { DoesGrid false (clear_step all block) no_fields result grid.old grid.new }
    ensures held { StaysHeld grid.old grid.new }
{
    if !block.is_area() {
        return Err(BookError::BadArea);
    }
    grid.clear(block.row, block.column, block.width, block.height, all)?;
    Ok(())
}

/// Gives the formula in a cell of a sheet a value.
pub fn put_value(
    grid: &mut Grid,
    row: i32,
    column: i32,
    value: FormulaValue,
) -> Result<(), BookError>
    requires { IsGrid grid.old }
    ensures does { DoesGrid true (put_value_step (row, column) value) no_fields
        result grid.old grid.new }
    ensures held { StaysHeld grid.old grid.new }
{
    grid.write_value(row, column, value)?;
    Ok(())
}

/// Gives the array formula in a cell of a sheet its values, in a block of so many columns and rows.
pub fn put_values(grid: &mut Grid, block: Block, values: Vec<SpillValue>) -> Result<(), BookError>
    requires { IsGrid grid.old }
    ensures does { DoesGrid true (put_spill_step block values.items) no_fields
        result grid.old grid.new }
    ensures held { StaysHeld grid.old grid.new }
{
    grid.spill(block.row, block.column, block.width, block.height, values)?;
    Ok(())
}
