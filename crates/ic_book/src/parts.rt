//! A step on a part of a sheet, as a step of the book.
ghost use Rattle.std.specs.Prelude.{◌≡◌, Result};
ghost use Rattle.std.specs.Fn.{FnOnceReturnsAtMut, FnOnceTakesAt, FnOnceTakesAtMut};
ghost use Rattle.ic_parts.specs.Parts.{ChangesGrid, ChangesTab, FindsSheet, ReadsGrid, ReadsTab, StaysFrozen, StaysHeld, StaysLaidOut};
ghost use Rattle.ic_parts.specs.declared.error.BookError.{BookError};
ghost use Rattle.ic_grid.specs.Whole.{IsGrid};
ghost use Rattle.ic_grid.specs.declared.grid.Grid.{Grid};
ghost use Rattle.ic_sheets.specs.declared.tab.Tab.{Tab};

use crate::{BookError, Model};
use ic_grid::Grid;
use ic_sheets::{Sheet, Tab};

impl<'a> Model<'a> {
    /// The sheet at an index, from 0. `InvalidSheet` exactly where there is none.
    pub(crate) fn sheet_at(&self, sheet: u32) -> Result<&Sheet, BookError>
        ensures { FindsSheet sheet result self.now }
    {
        match self.contents.sheets.get(sheet as usize) {
            Some(sheet) => Ok(sheet),
            None => Err(BookError::InvalidSheet),
        }
    }

    /// Changes the tab of the sheet at an index, from 0. `InvalidSheet` exactly where there is none.
    pub(crate) fn on_tab<T, F: FnOnce(&mut Tab) -> Result<T, BookError> + Drop>(
        &mut self,
        sheet: u32,
        change: F,
    ) -> Result<T, BookError>
        requires callable { (tab : Tab) → FnOnceTakesAtMut F.FnOnce change tab }
        requires frozen { (before after : Tab) (r : Result T BookError)
            → FnOnceReturnsAtMut F.FnOnce change before r after → StaysFrozen before after }
        ensures changes { ChangesTab F.FnOnce change sheet result self.old self.new }
        ensures looks_up { self.new.has_all ≡ self.old.has_all }
    {
        if sheet as usize >= self.contents.sheets.len() {
            return Err(BookError::InvalidSheet);
        }
        self.contents.sheets.change_tab(sheet as usize, change)
    }

    /// Reads the tab of the sheet at an index, from 0. `InvalidSheet` exactly where there is none.
    pub(crate) fn of_tab<T, F: FnOnce(&Tab) -> Result<T, BookError> + Drop>(
        &self,
        sheet: u32,
        read: F,
    ) -> Result<T, BookError>
        requires { (tab : Tab) → FnOnceTakesAt F.FnOnce read tab }
        ensures { ReadsTab F.FnOnce read sheet result self.now }
    {
        let Some(sheet) = self.contents.sheets.get(sheet as usize) else {
            return Err(BookError::InvalidSheet);
        };
        read(&sheet.tab)
    }

    /// Changes what is set for the rows and columns of the sheet at an index, from 0. `InvalidSheet` exactly where there is none.
    pub(crate) fn on_grid<T, F: FnOnce(&mut Grid) -> Result<T, BookError> + Drop>(
        &mut self,
        sheet: u32,
        change: F,
    ) -> Result<T, BookError>
        requires callable { (grid : Grid) → FnOnceTakesAtMut F.FnOnce change grid }
        requires laid_out { (before after : Grid) (r : Result T BookError)
            → FnOnceReturnsAtMut F.FnOnce change before r after → StaysLaidOut before after }
        ensures changes { ChangesGrid F.FnOnce change sheet result self.old self.new }
        ensures looks_up { self.new.has_all ≡ self.old.has_all }
    {
        if sheet as usize >= self.contents.sheets.len() {
            return Err(BookError::InvalidSheet);
        }
        self.contents.sheets.change_grid(sheet as usize, change)
    }

    /// Changes the cells of the sheet at an index, from 0. `InvalidSheet` exactly where there is none.
    pub(crate) fn on_cells<T, F: FnOnce(&mut Grid) -> Result<T, BookError> + Drop>(
        &mut self,
        sheet: u32,
        change: F,
    ) -> Result<T, BookError>
        requires callable { (grid : Grid) → IsGrid grid
            → FnOnceTakesAtMut F.FnOnce change grid }
        requires held { (before after : Grid) (r : Result T BookError)
            → FnOnceReturnsAtMut F.FnOnce change before r after → StaysHeld before after }
        ensures changes { ChangesGrid F.FnOnce change sheet result self.old self.new }
        ensures looks_up { self.new.has_all ≡ self.old.has_all }
    {
        if sheet as usize >= self.contents.sheets.len() {
            return Err(BookError::InvalidSheet);
        }
        self.contents.sheets.change_grid(sheet as usize, change)
    }

    /// Reads what is set for the rows and columns of the sheet at an index, from 0. `InvalidSheet` exactly where there is none.
    pub(crate) fn of_grid<T, F: FnOnce(&Grid) -> Result<T, BookError> + Drop>(
        &self,
        sheet: u32,
        read: F,
    ) -> Result<T, BookError>
        requires { (grid : Grid) → FnOnceTakesAt F.FnOnce read grid }
        ensures { ReadsGrid F.FnOnce read sheet result self.now }
    {
        let Some(sheet) = self.contents.sheets.get(sheet as usize) else {
            return Err(BookError::InvalidSheet);
        };
        read(&sheet.grid)
    }
}
