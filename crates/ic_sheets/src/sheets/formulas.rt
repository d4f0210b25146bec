//! Formulas get their places in the sheets.
ghost use Rattle.std.specs.Prelude.{◌≡◌, ◌<◌, ◌≤◌, ◌+◌, ℕ, List, Some, IfOk, IfSome, OnErr, OnOk, length, map, option_map, slice_get, true};
ghost use Rattle.ic_laws.specs.CoreStep.{updated_at};
ghost use Rattle.ic_laws.specs.declared.tree.Formula.{Formula};
ghost use Rattle.ic_grid.specs.Whole.{IsStyled};
ghost use Rattle.ic_pool.specs.Pool.{IsPlaced};
ghost use Rattle.ic_sheets.specs.Sheet.{AreSameOrLookUp, TakesArray, TakesCell, WritesArrayAt, formula_cell, pool_at, sheet_of, with_cell_in};

use super::Sheets;
use super::dangling::{dangles, settle};
use crate::FormulaKind;
use ic_cells::Styles;
use ic_grid::Block;
use ic_laws::{Formula, OutOfMemory};
use ic_pool::Steps;
use std::sync::ledger::Ledger;

impl Sheets {
    /// Writes a formula into a cell of the sheet at an index, from 0: the cell of this row and this column, from 1, in the
    /// style of a number. `OutOfMemory` changes nothing but what formulas are found by.
    pub fn write(
        &mut self,
        index: usize,
        row: i32,
        column: i32,
        formula: Formula,
        kind: FormulaKind,
        style: usize,
    ) -> Result<(), OutOfMemory>
        requires within { index < length self.old }
        requires takes { IfSome (slice_get self.old index) (λ s. TakesCell (row, column) s.grid) }
        ensures ok { OnOk result ((pool : List Formula) × (place : ℕ)
            × IsPlaced formula place (pool_at self.old index) pool
            × (self.new ≡ updated_at (λ s. record s {
              pool = record { formulas = pool; is_whole = true };
              grid = with_cell_in (row, column)
                  (formula_cell kind place style) s.grid;
            }) index self.old)) }
        ensures err { OnErr result (map sheet_of self.new ≡ map sheet_of self.old) }
        ensures looks_up { OnErr result (AreSameOrLookUp index self.old self.new) }
    {
        let sheet = self.list[index].as_mut();
        let was = dangles(sheet);
        let count = sheet.pool.len();
        let written = sheet.write(row, column, formula, kind, style);
        settle(&mut self.dangling, sheet.id, was, dangles(sheet));
        self.mentioners.note_from(sheet.id, &sheet.pool, count);
        self.holders.note(sheet);
        written
    }

    /// Writes a Cse array with a formula into a block of the sheet at an index, from 0, as its grid does. `OutOfMemory` changes
    /// nothing but what formulas are found by.
    pub fn write_array(
        &mut self,
        styles: &mut Styles,
        index: usize,
        block: &Block,
        formula: Formula,
    ) -> Result<(), OutOfMemory>
        requires within { index < length self.old }
        requires takes { IfSome (slice_get self.old index) (λ s. TakesArray block.now s.grid) }
        requires styled { IfSome (slice_get self.old index) (λ s. IsStyled styles.old s.grid) }
        ensures ok { OnOk result (WritesArrayAt formula block.now styles.old styles.new index
            self.old self.new) }
        ensures err { OnErr result (map sheet_of self.new ≡ map sheet_of self.old) }
        ensures looks_up { OnErr result (AreSameOrLookUp index self.old self.new) }
        ensures kept_styles { OnErr result (styles.new ≡ styles.old) }
    {
        let sheet = self.list[index].as_mut();
        let was = dangles(sheet);
        let count = sheet.pool.len();
        let written = sheet.write_array(styles, block, formula);
        settle(&mut self.dangling, sheet.id, was, dangles(sheet));
        self.mentioners.note_from(sheet.id, &sheet.pool, count);
        self.holders.note(sheet);
        written
    }

    /// The index, from 0, of an equal formula among those that the sheet at an index, from 0, keeps; where there is none, a
    /// copy gets one. What formulas are found by is made first, in as many steps as there are formulas, or in none where
    /// it is there. `OutOfMemory` changes nothing but that.
    pub fn place_copy<L: Ledger>(
        &mut self,
        index: usize,
        formula: &Formula,
        steps: &mut Steps<L>,
    ) -> Result<usize, OutOfMemory>
        requires { index < length self.old }
        ensures ok { IfOk result (λ at. (pool : List Formula)
            × IsPlaced formula.now at (pool_at self.old index) pool
            × (self.new ≡ updated_at (λ s. record s
            { pool = record { formulas = pool; is_whole = true } }) index self.old)) }
        ensures err { OnErr result (map sheet_of self.new ≡ map sheet_of self.old) }
        ensures looks_up { OnErr result (AreSameOrLookUp index self.old self.new) }
        ensures still { option_map (λ s. s.pool.is_whole) (slice_get self.old index) ≡ Some true
            → steps.new ≡ steps.old }
        ensures cost { steps.new ≤ steps.old + length (pool_at self.old index) }
        ensures grows { steps.old ≤ steps.new }
    {
        let sheet = self.list[index].as_mut();
        let was = dangles(sheet);
        let count = sheet.pool.len();
        let placed = sheet.place_copy(formula, steps);
        settle(&mut self.dangling, sheet.id, was, dangles(sheet));
        self.mentioners.note_from(sheet.id, &sheet.pool, count);
        placed
    }
}
