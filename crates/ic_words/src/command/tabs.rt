ghost use Rattle.std.specs.Prelude.{◌≡◌, [], IfOk, OnErr, option_map};
ghost use Rattle.ic_machine.specs.Row.{joined, named};
ghost use Rattle.ic_machine.specs.subjects.Tabs.{tab_rows};
ghost use Rattle.ic_words.specs.Words.{HaveEscape, words_left};
ghost use Rattle.ic_words.specs.subjects.Tabs.{tabs_meant};

use crate::command::Made;
use crate::text::WordText;
use crate::words::Words;
use ic_cells::SheetState;
use std::alloc::Global;

/// A command on the tabs of sheets, on what stays in sight there, and on the theme. A color is a text, or None for
/// no color.
#[derive(Drop)]
pub enum Tabs<'l> {
    SetTheme {
        name: WordText<'l>,
    },
    GetTheme,
    SetFrozenRows {
        sheet: u32,
        count: i32,
    },
    SetFrozenColumns {
        sheet: u32,
        count: i32,
    },
    GetFrozenRowsCount {
        sheet: u32,
    },
    GetFrozenColumnsCount {
        sheet: u32,
    },
    SetSheetColor {
        sheet: u32,
        color: Option<WordText<'l>>,
    },
    SetSheetState {
        sheet: u32,
        state: SheetState,
    },
    SetShowGridLines {
        sheet: u32,
        shows: bool,
    },
}

/// The command on tabs or the theme of this name, by the words that are left. Memory is asked for only for a text with
/// an escape.
pub fn tabs_in<'l>(alloc: Global, name: &str, rest: Option<&'l str>) -> Made<Tabs<'l>>
    ensures exact { IfOk result (λ made. option_map tabs_meant made
        ≡ joined (named [] tab_rows name.now (words_left rest.entry))) }
    ensures memory { OnErr result (HaveEscape (words_left rest.entry)) }
{
    match name {
        "set_theme" => match Words::of(alloc, rest)? {
            Some((name, ())) => Ok(Some(Tabs::SetTheme { name })),
            None => Ok(None),
        },
        "get_theme" => match Words::of(alloc, rest)? {
            Some(()) => Ok(Some(Tabs::GetTheme)),
            None => Ok(None),
        },
        "set_frozen_rows" => match Words::of(alloc, rest)? {
            Some((sheet, (count, ()))) => Ok(Some(Tabs::SetFrozenRows { sheet, count })),
            None => Ok(None),
        },
        "set_frozen_columns" => match Words::of(alloc, rest)? {
            Some((sheet, (count, ()))) => Ok(Some(Tabs::SetFrozenColumns { sheet, count })),
            None => Ok(None),
        },
        "get_frozen_rows_count" => match Words::of(alloc, rest)? {
            Some((sheet, ())) => Ok(Some(Tabs::GetFrozenRowsCount { sheet })),
            None => Ok(None),
        },
        "get_frozen_columns_count" => match Words::of(alloc, rest)? {
            Some((sheet, ())) => Ok(Some(Tabs::GetFrozenColumnsCount { sheet })),
            None => Ok(None),
        },
        "set_sheet_color" => match Words::of(alloc, rest)? {
            Some((sheet, (color, ()))) => Ok(Some(Tabs::SetSheetColor { sheet, color })),
            None => Ok(None),
        },
        "set_sheet_state" => match Words::of(alloc, rest)? {
            Some((sheet, (state, ()))) => Ok(Some(Tabs::SetSheetState { sheet, state })),
            None => Ok(None),
        },
        "set_show_grid_lines" => match Words::of(alloc, rest)? {
            Some((sheet, (shows, ()))) => Ok(Some(Tabs::SetShowGridLines { sheet, shows })),
            None => Ok(None),
        },
        _ => Ok(None),
    }
}
