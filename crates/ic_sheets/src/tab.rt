ghost use Rattle.std.specs.Prelude.{◌≡◌};
ghost use Rattle.ic_sheets.specs.Sheet.{plain_tab};

use ic_cells::{Color, SheetState};

/// How a sheet is presented.
pub struct Tab {
    /// Whether it is seen.
    pub state: SheetState,
    /// The color of its tab.
    pub color: Color,
    /// How many rows stay in sight at the top.
    pub frozen_rows: i32,
    /// How many columns stay in sight at the left.
    pub frozen_columns: i32,
    /// Whether lines part its cells.
    pub shows_grid_lines: bool,
}

impl Drop for Tab {
    fn drop(self) {
        let Self {
            state: _,
            color,
            frozen_rows: _,
            frozen_columns: _,
            shows_grid_lines: _,
        } = self;
        drop(color);
    }
}

impl Tab {
    /// That of a new sheet: it is seen, has no color and nothing that stays in sight, and shows lines.
    pub fn plain() -> Tab
        ensures { result ≡ plain_tab }
    {
        Tab {
            state: SheetState::Visible,
            color: Color::None,
            frozen_rows: 0,
            frozen_columns: 0,
            shows_grid_lines: true,
        }
    }
}
