//! Array formulas, the values of formulas, spills, and clearing.
ghost use Rattle.std.specs.Prelude.{◌≡◌, ℕ, List, None, Some, true, chars, IfErr, IfSome, OnErr, OnOk};
ghost use Rattle.std.specs.List.{slice_get};
ghost use Rattle.ic_laws.specs.CoreStep.{updated_at};
ghost use Rattle.ic_grid.specs.Block.{block_at};
ghost use Rattle.ic_machine.specs.subjects.Arrays.{PutFormulaValue, PutSpill, RangeClearAll, RangeClearContents, SetUserArrayFormula, arrays_step};
ghost use Rattle.ic_parts.specs.Arrays.{WritesArray, after_equals, array_refusal, block_of};
ghost use Rattle.ic_parts.specs.Book.{IsValidBook};
ghost use Rattle.ic_parts.specs.Does.{Does, DoesIn, DoesOnly};
ghost use Rattle.ic_parts.specs.Fields.{no_fields};
ghost use Rattle.ic_changes.specs.LookUps.{LooksUpAsBefore};
ghost use Rattle.ic_parts.specs.Refused.{TellsOnly, refusal_of};

use crate::{BookError, Model};
use ic_cells::{FormulaValue, SpillValue};
use ic_grid::Block;
use ic_parts::arrays::{after_equals, block_of};
use ic_parts::blocks::{array_fits, clear, put_value, put_values};
use ic_refs::Area;

impl<'a> Model<'a> {
    /// Writes an array formula into a block of the sheet at an index, from 0: so many columns wide and rows high from the cell
    /// at a row and a column on, both from 1. The text is `=` and a formula in the notation in force, which is read as
    /// `update_cell_with_formula` does. The first cell holds the formula, which has no value, and each other one a cell of
    /// its spill, which has the empty text.
    ///
    /// A dynamic array that has a cell in the block is released. Each cell gets the style that it shows, without its quote
    /// flag.
    ///
    /// `InvalidSheet`, `BadArea` (the width or the height is below 1, or the block passes the edge of the sheet),
    /// `MergedPart` (it meets merged cells), `ArrayPart` (one of its cells belongs to a Cse array of more than one cell),
    /// `NotAFormula` (the text doesn't begin with `=`, or nothing follows that), in this order, each exactly where it holds;
    /// `OutOfMemory` only where none of them does. An error leaves the book, and a refusal all that a model is.
    pub fn set_user_array_formula(
        &mut self,
        sheet: u32,
        row: i32,
        column: i32,
        width: i32,
        height: i32,
        value: &str,
    ) -> Result<(), BookError>
        ensures does { DoesIn arrays_step
            (SetUserArrayFormula sheet (block_at (row, column) width height) (chars value.now))
            no_fields result self.old self.new }
        ensures looks_up { OnOk result
            (self.new.has_all ≡ updated_at (λ _. true) sheet self.old.has_all) }

        // After an error the look-up of this sheet may be there; the others are as before.
        ensures left { OnErr result (LooksUpAsBefore sheet self.old self.new) }
    {
        let block = Block {
            row,
            column,
            width,
            height,
        };
        self.may_write_array(sheet, block)?;
        let Some(body) = after_equals(value) else {
            return Err(BookError::NotAFormula);
        };
        self.write_array(sheet, block, body)
    }

    /// Whether an array formula may be written into a block of a sheet.
    pub(crate) fn may_write_array(&self, sheet: u32, block: Block) -> Result<(), BookError>
        ensures refused { TellsOnly result (array_refusal self.now.book sheet block) }
        ensures valid { IsValidBook self.now.book }
    {
        // What always holds of a model is known from here on.
        let _ = &self.contents;
        let worksheet = self.sheet_at(sheet)?;
        array_fits(&worksheet.grid, block)
    }

    /// Writes the formula of a body, which stands after `=`, into a block of a sheet as an array where nothing refuses that.
    fn write_array(&mut self, sheet: u32, block: Block, body: &str) -> Result<(), BookError>
        requires free { array_refusal self.old.book sheet block ≡ None }
        requires typed { (text : List ℕ) × (after_equals text ≡ Some (chars body.now)) }
        ensures written { OnOk result (IfSome (slice_get self.old.book.sheets sheet) (λ s.
            WritesArray sheet s block (chars body.now) self.old.book self.new.book)) }
        ensures looks_up { OnOk result
            (self.new.has_all ≡ updated_at (λ _. true) sheet self.old.has_all) }
        ensures memory { IfErr result (λ e. refusal_of e ≡ None) }
        ensures err { OnErr result (self.new.book ≡ self.old.book) }
        ensures left { OnErr result (LooksUpAsBefore sheet self.old self.new) }
    {
        let id = self.sheet_at(sheet)?.id;
        let formula = self.formula_of_text(id, block.row, block.column, body)?;
        let styles = &mut self.lists.styles;
        self.contents
            .sheets
            .write_array(styles, sheet as usize, &block, formula)?;
        Ok(())
    }

    /// Empties the cells of an area: each that is there becomes an empty cell with its style. A dynamic array that has a
    /// cell in the area is released: its formula, where that is outside, has no value and is for its own cell alone, and
    /// the cells of its spill outside are emptied. It takes no memory.
    ///
    /// `InvalidSheet`, `BadArea` (the width or the height is below 1, or the area passes the edge of the sheet),
    /// `ClearArray` (a Cse array of more than one cell lies partly in it), in this order, each exactly where it holds. A
    /// refusal changes nothing.
    pub fn range_clear_contents(&mut self, range: &Area) -> Result<(), BookError>
        ensures does { DoesOnly arrays_step
            (RangeClearContents range.now.sheet (block_of range.now)) no_fields
            result self.old self.new }
        ensures looks_up { self.new.has_all ≡ self.old.has_all }
    {
        let block = block_of(range);
        self.on_cells(range.sheet, |grid| clear(grid, block, false))
    }

    /// Takes the cells of an area away, with their styles. A dynamic array that has a cell in the area is released: its
    /// formula, where that is outside, has no value and is for its own cell alone, and the cells of its spill outside are
    /// emptied. It takes no memory.
    ///
    /// `InvalidSheet`, `BadArea` (the width or the height is below 1, or the area passes the edge of the sheet),
    /// `ClearArray` (a Cse array of more than one cell lies partly in it), in this order, each exactly where it holds. A
    /// refusal changes nothing.
    pub fn range_clear_all(&mut self, area: &Area) -> Result<(), BookError>
        ensures does { DoesOnly arrays_step
            (RangeClearAll area.now.sheet (block_of area.now)) no_fields
            result self.old self.new }
        ensures looks_up { self.new.has_all ≡ self.old.has_all }
    {
        let block = block_of(area);
        self.on_cells(area.sheet, |grid| clear(grid, block, true))
    }

    /// Gives the formula in the cell at a row and a column, both from 1, of the sheet at an index, from 0, a value. On a
    /// dynamic array its spill is emptied, and the formula is for its own cell alone. Each other cell of a Cse array gets the
    /// value too, where none at all is the error `ERROR`.
    ///
    /// `InvalidSheet`, `NoFormulaCell` (the cell has no formula), in this order, each exactly where it holds;
    /// `OutOfMemory` only where neither does. An error changes nothing.
    pub fn put_formula_value(
        &mut self,
        sheet: u32,
        row: i32,
        column: i32,
        value: FormulaValue,
    ) -> Result<(), BookError>
        ensures does { Does arrays_step (PutFormulaValue sheet (row, column) value) no_fields
            result self.old self.new }
        ensures looks_up { self.new.has_all ≡ self.old.has_all }
    {
        self.on_cells(sheet, |grid| put_value(grid, row, column, value))
    }

    /// Gives the array formula in the cell at a row and a column, both from 1, of the sheet at an index, from 0, its values,
    /// by rows of an area that begins there. The old spill of a dynamic array is emptied first; the first value is the
    /// formula's own, and the others stand in the cells of its spill, in the styles of their places.
    ///
    /// `InvalidSheet`, `NoFormulaCell` (the cell has no array formula), `BadArea` (the width or the height is below 1, the
    /// number of values isn't their product, or a Cse array has another area), `SpillBlocked` with a cell, in this order,
    /// each exactly where it holds; `OutOfMemory` only where none of them does. An error changes nothing.
    ///
    /// A cell blocks a dynamic array whose area has more than one cell where it is past the edge of the sheet, is one of
    /// merged cells, or is neither the formula's nor empty nor one of this array's spill. The first such cell of the area,
    /// by rows, is told.
    pub fn put_spill(
        &mut self,
        sheet: u32,
        row: i32,
        column: i32,
        width: i32,
        height: i32,
        values: Vec<SpillValue>,
    ) -> Result<(), BookError>
        ensures does { Does arrays_step
            (PutSpill sheet (block_at (row, column) width height) values.items) no_fields
            result self.old self.new }
        ensures looks_up { self.new.has_all ≡ self.old.has_all }
    {
        let block = Block {
            row,
            column,
            width,
            height,
        };
        self.on_cells(sheet, |grid| put_values(grid, block, values))
    }
}
