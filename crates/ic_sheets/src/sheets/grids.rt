//! The cells of sheets.
ghost use Rattle.std.specs.Prelude.{◌≡◌, ◌<◌, IfSome, OnErr, OnOk, length, slice_get, true};
ghost use Rattle.std.specs.Fn.{FnOnceTakesAtMut};
ghost use Rattle.ic_grid.specs.Shape.{is_loose, shape_of};
ghost use Rattle.ic_laws.specs.CoreStep.{updated_at};
ghost use Rattle.ic_sheets.specs.Sheet.{ChangesGrid, TakesCell, with_cell_in};

use super::Sheets;
use ic_cells::Cell;
use ic_grid::Grid;
use ic_laws::OutOfMemory;

impl Sheets {
    /// Changes the cells, rows and columns of the sheet at an index, from 0.
    pub fn change_grid<T, F: FnOnce(&mut Grid) -> T + Drop>(&mut self, index: usize, change: F) -> T
        requires within { index < length self.old }
        requires callable { IfSome (slice_get self.old index)
            (λ s. FnOnceTakesAtMut F.FnOnce change s.grid) }
        ensures { ChangesGrid F.FnOnce change index result self.old self.new }
    {
        let sheet = self.list[index].as_mut();
        let answer = change(&mut sheet.grid);
        self.holders.note(sheet);
        answer
    }
    /// Writes a cell without a formula at a row and a column, both from 1, of the sheet at an index, from 0. The place is
    /// prepared, so that the array that it belongs to is released. `OutOfMemory` changes nothing.
    pub fn write_cell(
        &mut self,
        index: usize,
        row: i32,
        column: i32,
        cell: Cell,
    ) -> Result<(), OutOfMemory>
        requires within { index < length self.old }
        requires takes { IfSome (slice_get self.old index) (λ s. TakesCell (row, column) s.grid) }
        requires loose { is_loose (shape_of cell) ≡ true }
        ensures ok { OnOk result (self.new ≡ updated_at
            (λ s. record s { grid = with_cell_in (row, column) cell s.grid }) index self.old) }
        ensures err { OnErr result (self.new ≡ self.old) }
    {
        let sheet = self.list[index].as_mut();
        let written = sheet.grid.write(row, column, cell);
        self.holders.note(sheet);
        match written {
            Ok(()) => Ok(()),
            Err(_) => Err(OutOfMemory),
        }
    }
}
