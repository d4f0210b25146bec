use crate::{Cell, Color, ColumnProps, LineMap, Merge, PlaceMap, RowProps};
use ic_laws::{Items, Text};
use std::fmt;

/// Whether the tab of a sheet is shown. It shows as `visible`, `hidden` or `veryHidden`.
#[derive(Clone, Copy)]
pub enum SheetState {
    Visible,
    Hidden,
    VeryHidden,
}

impl fmt::Display for SheetState {
    ghost use Rattle.std.specs.Prelude.{Some};
    ghost use Rattle.ic_cells.specs.Sheet.{state_word};

    ghost output = { λ s. Some (state_word s) };

    fn fmt<W: fmt::Write>(&self, f: &mut fmt::Formatter<W>) -> fmt::Result {
        f.write_str(match self {
            SheetState::Visible => "visible",
            SheetState::Hidden => "hidden",
            SheetState::VeryHidden => "veryHidden",
        })
    }
}

/// A sheet of a workbook.
pub struct Worksheet {
    pub name: Text,
    /// At least 1; no other sheet has it.
    pub sheet_id: u32,
    pub state: SheetState,
    /// The colour of its tab.
    pub color: Color,
    /// How many rows stay in sight at the top.
    pub frozen_rows: i32,
    /// How many columns stay in sight at the left.
    pub frozen_columns: i32,
    pub show_grid_lines: bool,
    /// The texts of its formulas as they are stored, by number from 0.
    pub shared_formulas: Items<Text>,
    /// By row and column, from 1.
    pub cells: PlaceMap<Cell>,
    /// By number, from 1.
    pub rows: LineMap<RowProps>,
    /// By number, from 1.
    pub columns: LineMap<ColumnProps>,
    pub merged_cells: Items<Merge>,
}

impl Drop for Worksheet {
    fn drop(self) {
        let Self {
            name,
            sheet_id: _,
            state: _,
            color,
            frozen_rows: _,
            frozen_columns: _,
            show_grid_lines: _,
            shared_formulas,
            cells,
            rows,
            columns,
            merged_cells,
        } = self;
        drop(name);
        drop(color);
        drop(shared_formulas);
        drop(cells);
        drop(rows);
        drop(columns);
        drop(merged_cells);
    }
}

/// What is told of a sheet in a list of them.
pub struct SheetProperties {
    pub name: Text,
    /// `visible`, `hidden` or `veryHidden`.
    pub state: Text,
    /// The colour of its tab.
    pub color: Color,
    pub sheet_id: u32,
}

impl Drop for SheetProperties {
    fn drop(self) {
        let Self {
            name,
            state,
            color,
            sheet_id: _,
        } = self;
        drop(name);
        drop(state);
        drop(color);
    }
}

/// The place of a cell of a workbook.
#[derive(Clone, Copy)]
pub struct CellIndex {
    /// The index of its sheet, from 0.
    pub index: u32,
    /// From 1.
    pub row: i32,
    /// From 1.
    pub column: i32,
}
