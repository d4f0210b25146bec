ghost use Rattle.std.specs.Prelude.{◌≡◌, ◌≤◌, ◌+◌, [], IfOk, OnErr, OnOk, is_some, length, true};
ghost use Rattle.std.specs.FinMap as finite;
ghost use Rattle.ic_grid.specs.Whole.{IsStyled};
ghost use Rattle.ic_grid.specs.Written.{with_array};
ghost use Rattle.ic_pool.specs.Pool.{IsPlaced};
ghost use Rattle.ic_sheets.specs.Sheet.{IsArrayWritten, IsSameOrLooksUp, IsWritten, TakesArray, TakesCell, WritesNew, empty_grid, formula_cell, plain_tab, sheet_of};

use crate::Tab;
use ic_cells::{ArrayKind, ArrayValue, Cell, Maker, Styles};
use ic_grid::{Block, Grid};
use ic_laws::{Formula, OutOfMemory, Text};
use ic_pool::{Pool, Steps, key_of};
use std::alloc::Global;
use std::sync::ledger::Ledger;

/// A sheet: its id, its name, the formulas that it keeps, its cells with its rows, columns and merged cells, and its tab.
pub struct Sheet {
    pub id: u32,
    pub name: Text,
    pub pool: Pool,
    pub grid: Grid,
    pub tab: Tab,
}

impl Drop for Sheet {
    fn drop(self) {
        let Self {
            id: _,
            name,
            pool,
            grid,
            tab,
        } = self;
        drop(name);
        drop(pool);
        drop(grid);
        drop(tab);
    }
}

/// How many values a formula that is written into a cell may have.
#[derive(Clone, Copy)]
pub enum FormulaKind {
    /// One.
    Single,
    /// Several, which spill into the cells beside it.
    Dynamic,
}

/// The cell of a formula that has no value yet: the formula at an index, from 0, in the style of a number.
fn formula_cell(kind: FormulaKind, f: usize, s: usize) -> Cell
    ensures { result ≡ formula_cell kind f s }
{
    match kind {
        FormulaKind::Single => Cell::new_formula(f, s),
        FormulaKind::Dynamic => Cell::ArrayFormula {
            kind: ArrayKind::Dynamic,
            f,
            s,
            r: (1, 1),
            v: ArrayValue::unevaluated(),
        },
    }
}

/// What is written into a cell: a formula, how many values it may have, and the number of the style.
#[derive(Drop)]
struct Entered {
    formula: Formula,
    kind: FormulaKind,
    style: usize,
}

impl Maker<Entered, Cell> for Pool {
    ghost use Rattle.std.specs.Prelude.{◌≡◌, true};
    ghost use Rattle.ic_sheets.specs.Sheet.{MakesCell};

    ghost ready = { λ pool. pool.is_whole ≡ true };

    ghost makes = { MakesCell };

    fn make(&mut self, entered: Entered) -> Result<Cell, OutOfMemory> {
        let Entered {
            formula,
            kind,
            style,
        } = entered;
        let place = self.place(formula)?;
        Ok(formula_cell(kind, place, style))
    }
}

/// Writes a Cse array with the formula at an index, from 0, into a block of a sheet where none forbids it.
fn enter_block(
    grid: &mut Grid,
    styles: &mut Styles,
    block: &Block,
    at: usize,
) -> Result<(), OutOfMemory>
    requires takes { TakesArray block.now grid.old }
    requires styled { IsStyled styles.old grid.old }
    ensures ok { OnOk result (grid.new ≡ (with_array grid.old block.now at styles.old).0) }
    ensures styles { OnOk result (styles.new ≡ (with_array grid.old block.now at styles.old).1) }
    ensures kept { OnErr result (grid.new ≡ grid.old) }
    ensures kept_styles { OnErr result (styles.new ≡ styles.old) }
{
    match grid.write_array(
        styles,
        block.row,
        block.column,
        block.width,
        block.height,
        at,
    ) {
        Ok(()) => Ok(()),
        // Nothing refuses it, so that memory ran out.
        Err(_) => Err(OutOfMemory),
    }
}

impl Sheet {
    /// A sheet that keeps no formulas and holds nothing, with a plain tab.
    pub fn new(alloc: Global, id: u32, name: Text) -> Sheet
        ensures { result ≡ record {
          id = id;
          name = name;
          pool
              = record { formulas = []; is_whole = true };
          grid = empty_grid;
          tab = plain_tab;
        } }
    {
        Sheet {
            id,
            name,
            pool: Pool::new(alloc),
            grid: Grid::new(alloc),
            tab: Tab::plain(),
        }
    }

    /// Gives it other formulas, cells with their rows, columns and merged cells, and another tab.
    pub(crate) fn fill(&mut self, pool: Pool, grid: Grid, tab: Tab)
        ensures { self.new ≡ record self.old { pool = pool; grid = grid; tab = tab } }
    {
        self.pool = pool;
        self.grid = grid;
        self.tab = tab;
    }

    /// Writes a formula into a cell, by its row and its column from 1, in the style of a number. The place is prepared, so
    /// that the array that it belongs to is released, and the formula gets its place among those that the sheet keeps.
    /// `OutOfMemory` changes nothing but what formulas are found by.
    pub fn write(
        &mut self,
        row: i32,
        column: i32,
        formula: Formula,
        kind: FormulaKind,
        style: usize,
    ) -> Result<(), OutOfMemory>
        requires { TakesCell (row, column) self.old.grid }
        ensures ok { OnOk result (IsWritten formula kind style (row, column) self.old self.new) }
        ensures err { OnErr result (sheet_of self.new ≡ sheet_of self.old) }
        ensures looks_up { OnErr result (IsSameOrLooksUp self.old self.new) }
    {
        self.pool.make_whole_uncounted()?;
        let entered = Entered {
            formula,
            kind,
            style,
        };
        match self.write_new(row, column, entered)? {
            None => Ok(()),
            Some(
                Entered {
                    formula,
                    kind,
                    style,
                },
            ) => self.write_over(row, column, formula, kind, style),
        }
    }

    /// The same where there is a cell: then only the pool may want memory.
    fn write_over(
        &mut self,
        row: i32,
        column: i32,
        formula: Formula,
        kind: FormulaKind,
        style: usize,
    ) -> Result<(), OutOfMemory>
        requires whole { self.old.pool.is_whole ≡ true }
        requires takes { TakesCell (row, column) self.old.grid }
        requires there { is_some (finite.get self.old.grid.cells (row, column)) ≡ true }
        ensures ok { OnOk result (IsWritten formula kind style (row, column) self.old self.new) }
        ensures err { OnErr result (self.new ≡ self.old) }
    {
        let place = self.pool.place(formula)?;
        // It may be written, and takes no memory, since a cell is there.
        let _ = self
            .grid
            .write(row, column, formula_cell(kind, place, style));
        Ok(())
    }

    /// The same where there is none; where there is one, nothing changes, and what was to be written is left.
    fn write_new(
        &mut self,
        row: i32,
        column: i32,
        entered: Entered,
    ) -> Result<Option<Entered>, OutOfMemory>
        requires whole { self.old.pool.is_whole ≡ true }
        ensures ok { IfOk result (WritesNew entered (row, column) self.old self.new) }
        ensures err { OnErr result (self.new ≡ self.old) }
    {
        self.grid
            .cells
            .put_made(row, column, &mut self.pool, entered)
    }

    /// Writes a Cse array with a formula into a block of the sheet, as the grid does (`Grid::write_array`); the formula gets its
    /// place among those that the sheet keeps. `OutOfMemory` changes nothing but what formulas are found by.
    pub fn write_array(
        &mut self,
        styles: &mut Styles,
        block: &Block,
        formula: Formula,
    ) -> Result<(), OutOfMemory>
        requires takes { TakesArray block.now self.old.grid }
        requires styled { IsStyled styles.old self.old.grid }
        ensures ok { OnOk result (IsArrayWritten formula block.now styles.old styles.new
            self.old self.new) }
        ensures err { OnErr result (sheet_of self.new ≡ sheet_of self.old) }
        ensures looks_up { OnErr result (IsSameOrLooksUp self.old self.new) }
        ensures kept_styles { OnErr result (styles.new ≡ styles.old) }
    {
        self.pool.make_whole_uncounted()?;
        self.enter_array(styles, block, formula)
    }

    /// The same where the look-up of its formulas is whole: where memory runs out after the formula got its place, it is
    /// taken out again.
    fn enter_array(
        &mut self,
        styles: &mut Styles,
        block: &Block,
        formula: Formula,
    ) -> Result<(), OutOfMemory>
        requires whole { self.old.pool.is_whole ≡ true }
        requires takes { TakesArray block.now self.old.grid }
        requires styled { IsStyled styles.old self.old.grid }
        ensures ok { OnOk result (IsArrayWritten formula block.now styles.old styles.new
            self.old self.new) }
        ensures err { OnErr result (self.new ≡ self.old) }
        ensures kept_styles { OnErr result (styles.new ≡ styles.old) }
    {
        let key = key_of(self.grid.cells.alloc(), &formula)?;
        let count = self.pool.len();
        let at = self.pool.place(formula)?;
        match enter_block(&mut self.grid, styles, block, at) {
            Ok(()) => Ok(()),
            Err(lack) => {
                if self.pool.len() > count {
                    self.pool.take_back(&key);
                }
                Err(lack)
            }
        }
    }

    /// The index, from 0, of an equal formula among those that the sheet keeps; where there is none, a copy gets one. What
    /// formulas are found by is made first, in as many steps as there are formulas, or in none where it is there.
    /// `OutOfMemory` changes nothing but that.
    pub fn place_copy<L: Ledger>(
        &mut self,
        formula: &Formula,
        steps: &mut Steps<L>,
    ) -> Result<usize, OutOfMemory>
        ensures ok { IfOk result (λ at. IsPlaced formula.now at self.old.pool.formulas
            self.new.pool.formulas × (self.new
            ≡ record self.old {
              pool = record { formulas = self.new.pool.formulas; is_whole = true };
            })) }
        ensures err { OnErr result (sheet_of self.new ≡ sheet_of self.old) }
        ensures looks_up { OnErr result (IsSameOrLooksUp self.old self.new) }
        ensures still { self.old.pool.is_whole ≡ true → steps.new ≡ steps.old }
        ensures cost { steps.new ≤ steps.old + length self.old.pool.formulas }
        ensures grows { steps.old ≤ steps.new }
    {
        self.pool.make_whole(steps)?;
        self.pool.place_copy(formula)
    }
}
