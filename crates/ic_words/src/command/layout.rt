ghost use Rattle.std.specs.Prelude.{◌≡◌, [], IfOk, OnErr, option_map};
ghost use Rattle.ic_machine.specs.Row.{joined, named};
ghost use Rattle.ic_machine.specs.subjects.Layout.{layout_rows};
ghost use Rattle.ic_words.specs.Words.{HaveEscape, words_left};
ghost use Rattle.ic_words.specs.subjects.Layout.{layout_meant};

use crate::command::Made;
use crate::words::Words;
use std::alloc::Global;

/// A command on the widths of columns, the heights of rows, and which of them are hidden. Widths and heights are in
/// hundredths.
#[derive(Drop)]
pub enum Layout {
    SetColumnWidth {
        sheet: u32,
        column: i32,
        width: u32,
    },
    SetRowHeight {
        sheet: u32,
        row: i32,
        height: u32,
    },
    GetColumnWidth {
        sheet: u32,
        column: i32,
    },
    GetRowHeight {
        sheet: u32,
        row: i32,
    },
    SetColumnHidden {
        sheet: u32,
        column: i32,
        hidden: bool,
    },
    SetRowHidden {
        sheet: u32,
        row: i32,
        hidden: bool,
    },
    IsColumnHidden {
        sheet: u32,
        column: i32,
    },
    IsRowHidden {
        sheet: u32,
        row: i32,
    },
}

/// The command on the layout of rows and columns of this name, by the words that are left.
pub fn layout_in(alloc: Global, name: &str, rest: Option<&str>) -> Made<Layout>
    ensures exact { IfOk result (λ made. option_map layout_meant made
        ≡ joined (named [] layout_rows name.now (words_left rest.entry))) }
    ensures memory { OnErr result (HaveEscape (words_left rest.entry)) }
{
    match name {
        "set_column_width" => match Words::of(alloc, rest)? {
            Some((sheet, (column, (width, ())))) => Ok(Some(Layout::SetColumnWidth {
                sheet,
                column,
                width,
            })),
            None => Ok(None),
        },
        "set_row_height" => match Words::of(alloc, rest)? {
            Some((sheet, (row, (height, ())))) => Ok(Some(Layout::SetRowHeight {
                sheet,
                row,
                height,
            })),
            None => Ok(None),
        },
        "get_column_width" => match Words::of(alloc, rest)? {
            Some((sheet, (column, ()))) => Ok(Some(Layout::GetColumnWidth { sheet, column })),
            None => Ok(None),
        },
        "get_row_height" => match Words::of(alloc, rest)? {
            Some((sheet, (row, ()))) => Ok(Some(Layout::GetRowHeight { sheet, row })),
            None => Ok(None),
        },
        "set_column_hidden" => match Words::of(alloc, rest)? {
            Some((sheet, (column, (hidden, ())))) => Ok(Some(Layout::SetColumnHidden {
                sheet,
                column,
                hidden,
            })),
            None => Ok(None),
        },
        "set_row_hidden" => match Words::of(alloc, rest)? {
            Some((sheet, (row, (hidden, ())))) => Ok(Some(Layout::SetRowHidden {
                sheet,
                row,
                hidden,
            })),
            None => Ok(None),
        },
        "is_column_hidden" => match Words::of(alloc, rest)? {
            Some((sheet, (column, ()))) => Ok(Some(Layout::IsColumnHidden { sheet, column })),
            None => Ok(None),
        },
        "is_row_hidden" => match Words::of(alloc, rest)? {
            Some((sheet, (row, ()))) => Ok(Some(Layout::IsRowHidden { sheet, row })),
            None => Ok(None),
        },
        _ => Ok(None),
    }
}
