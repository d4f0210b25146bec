//! The tabs of sheets, what stays in sight there, and the theme.
ghost use Rattle.std.specs.Prelude.{◌≡◌, Ok};
ghost use Rattle.ic_machine.specs.Reply.{position_field};
ghost use Rattle.ic_machine.specs.subjects.Tabs.{GetFrozenColumnsCount, GetFrozenRowsCount, GetTheme, SetFrozenColumns, SetFrozenRows, SetSheetColor, SetSheetState, SetShowGridLines, SetTheme, tab_step};
ghost use Rattle.ic_parts.specs.Does.{Does, DoesOnly};
ghost use Rattle.ic_parts.specs.Fields.{no_fields, theme_field};

use crate::{BookError, Model};
use ic_cells::{Color, SheetState, Theme};
use ic_laws::Text;
use ic_parts::tab::{
    freeze_columns, freeze_rows, frozen_columns, frozen_rows, paint, put_state, show_lines,
};

impl<'a> Model<'a> {
    /// Keeps this many rows of the sheet at an index, from 0, in sight at the top.
    ///
    /// `InvalidSheet` exactly where no sheet stands at the index, then `FrozenNegative` where the number is below 0, then
    /// `TooManyRows` where a sheet has no more rows (1,048,576); an error changes nothing. It takes no memory.
    pub fn set_frozen_rows(&mut self, sheet: u32, frozen_rows: i32) -> Result<(), BookError>
        ensures does { DoesOnly tab_step (SetFrozenRows sheet frozen_rows) no_fields
            result self.old self.new }
        ensures looks_up { self.new.has_all ≡ self.old.has_all }
    {
        self.on_tab(sheet, |tab| freeze_rows(tab, frozen_rows))
    }

    /// Keeps this many columns of the sheet at an index, from 0, in sight at the left.
    ///
    /// `InvalidSheet` exactly where no sheet stands at the index, then `FrozenNegative` where the number is below 0, then
    /// `TooManyColumns` where a sheet has no more columns (16,384); an error changes nothing. It takes no memory.
    pub fn set_frozen_columns(&mut self, sheet: u32, frozen_columns: i32) -> Result<(), BookError>
        ensures does { DoesOnly tab_step (SetFrozenColumns sheet frozen_columns) no_fields
            result self.old self.new }
        ensures looks_up { self.new.has_all ≡ self.old.has_all }
    {
        self.on_tab(sheet, |tab| freeze_columns(tab, frozen_columns))
    }

    /// How many rows of the sheet at an index, from 0, stay in sight at the top.
    ///
    /// `InvalidSheet` exactly where no sheet stands at the index. It takes no memory.
    pub fn get_frozen_rows_count(&self, sheet: u32) -> Result<i32, BookError>
        ensures does { DoesOnly tab_step (GetFrozenRowsCount sheet) position_field
            result self.now self.now }
    {
        self.of_tab(sheet, |tab| frozen_rows(tab))
    }

    /// How many columns of the sheet at an index, from 0, stay in sight at the left.
    ///
    /// `InvalidSheet` exactly where no sheet stands at the index. It takes no memory.
    pub fn get_frozen_columns_count(&self, sheet: u32) -> Result<i32, BookError>
        ensures does { DoesOnly tab_step (GetFrozenColumnsCount sheet) position_field
            result self.now self.now }
    {
        self.of_tab(sheet, |tab| frozen_columns(tab))
    }

    /// Gives the tab of the sheet at an index, from 0, a color, or none.
    ///
    /// `InvalidSheet` exactly where no sheet stands at the index; `OutOfMemory` only where one does. An error changes
    /// nothing.
    pub fn set_sheet_color(&mut self, sheet: u32, color: &Color) -> Result<(), BookError>
        ensures does { Does tab_step (SetSheetColor sheet color.now) no_fields
            result self.old self.new }
        ensures looks_up { self.new.has_all ≡ self.old.has_all }
    {
        let alloc = self.alloc;
        self.on_tab(sheet, |tab| paint(tab, alloc, color))
    }

    /// Shows the sheet at an index, from 0, hides it, or hides it so that only this call shows it again.
    ///
    /// `InvalidSheet` exactly where no sheet stands at the index; an error changes nothing. It takes no memory.
    pub fn set_sheet_state(&mut self, sheet: u32, state: SheetState) -> Result<(), BookError>
        ensures does { DoesOnly tab_step (SetSheetState sheet state) no_fields
            result self.old self.new }
        ensures looks_up { self.new.has_all ≡ self.old.has_all }
    {
        self.on_tab(sheet, |tab| put_state(tab, state))
    }

    /// Parts the cells of the sheet at an index, from 0, by lines, or doesn't.
    ///
    /// `InvalidSheet` exactly where no sheet stands at the index; an error changes nothing. It takes no memory.
    pub fn set_show_grid_lines(
        &mut self,
        sheet: u32,
        show_grid_lines: bool,
    ) -> Result<(), BookError>
        ensures does { DoesOnly tab_step (SetShowGridLines sheet show_grid_lines) no_fields
            result self.old self.new }
        ensures looks_up { self.new.has_all ≡ self.old.has_all }
    {
        self.on_tab(sheet, |tab| show_lines(tab, show_grid_lines))
    }

    /// Keeps the name of a theme. It takes no memory, and is never refused.
    pub fn set_theme(&mut self, theme: Theme) -> Result<(), BookError>
        ensures does { DoesOnly tab_step (SetTheme theme.name) no_fields
            result self.old self.new }
        ensures looks_up { self.new.has_all ≡ self.old.has_all }
    {
        self.about.theme = theme.name;
        Ok(())
    }

    /// The theme; that of a new book has the empty text for its name. Only memory can be missing.
    pub fn get_theme(&self) -> Result<Theme, BookError>
        ensures does { Does tab_step GetTheme theme_field result self.now self.now }
    {
        Ok(Theme {
            name: Text::from_str(self.alloc, self.about.theme.as_str())?,
        })
    }
}
