ghost use Rattle.std.specs.Prelude.{◌≡◌, [], IfOk, OnErr, option_map};
ghost use Rattle.ic_machine.specs.Row.{joined, named};
ghost use Rattle.ic_machine.specs.subjects.Styles.{style_rows};
ghost use Rattle.ic_words.specs.Words.{HaveEscape, words_left};
ghost use Rattle.ic_words.specs.subjects.Styles.{styles_meant};

use crate::command::Made;
use crate::styling::StyleWords;
use crate::words::Words;
use std::alloc::Global;

/// A command on the styles of cells, rows and columns.
#[derive(Drop)]
pub enum Styles<'l> {
    GetCellStyleIndex {
        sheet: u32,
        row: i32,
        column: i32,
    },
    GetStyleForCell {
        sheet: u32,
        row: i32,
        column: i32,
    },
    GetCellStyleOrNone {
        sheet: u32,
        row: i32,
        column: i32,
    },
    SetColumnStyle {
        sheet: u32,
        column: i32,
        style: StyleWords<'l>,
    },
    SetRowStyle {
        sheet: u32,
        row: i32,
        style: StyleWords<'l>,
    },
    GetColumnStyle {
        sheet: u32,
        column: i32,
    },
    GetRowStyle {
        sheet: u32,
        row: i32,
    },
    DeleteColumnStyle {
        sheet: u32,
        column: i32,
    },
    DeleteRowStyle {
        sheet: u32,
        row: i32,
    },
}

/// The command on styles of this name, by the words that are left. Memory is asked for only for a text with an escape.
pub fn styles_in<'l>(alloc: Global, name: &str, rest: Option<&'l str>) -> Made<Styles<'l>>
    ensures exact { IfOk result (λ made. option_map styles_meant made
        ≡ joined (named [] style_rows name.now (words_left rest.entry))) }
    ensures memory { OnErr result (HaveEscape (words_left rest.entry)) }
{
    match name {
        "get_cell_style_index" => match Words::of(alloc, rest)? {
            Some((sheet, (row, (column, ())))) => Ok(Some(Styles::GetCellStyleIndex {
                sheet,
                row,
                column,
            })),
            None => Ok(None),
        },
        "get_style_for_cell" => match Words::of(alloc, rest)? {
            Some((sheet, (row, (column, ())))) => Ok(Some(Styles::GetStyleForCell {
                sheet,
                row,
                column,
            })),
            None => Ok(None),
        },
        "get_cell_style_or_none" => match Words::of(alloc, rest)? {
            Some((sheet, (row, (column, ())))) => Ok(Some(Styles::GetCellStyleOrNone {
                sheet,
                row,
                column,
            })),
            None => Ok(None),
        },
        "set_column_style" => match Words::of(alloc, rest)? {
            Some((sheet, (column, style))) => Ok(Some(Styles::SetColumnStyle {
                sheet,
                column,
                style,
            })),
            None => Ok(None),
        },
        "set_row_style" => match Words::of(alloc, rest)? {
            Some((sheet, (row, style))) => Ok(Some(Styles::SetRowStyle { sheet, row, style })),
            None => Ok(None),
        },
        "get_column_style" => match Words::of(alloc, rest)? {
            Some((sheet, (column, ()))) => Ok(Some(Styles::GetColumnStyle { sheet, column })),
            None => Ok(None),
        },
        "get_row_style" => match Words::of(alloc, rest)? {
            Some((sheet, (row, ()))) => Ok(Some(Styles::GetRowStyle { sheet, row })),
            None => Ok(None),
        },
        "delete_column_style" => match Words::of(alloc, rest)? {
            Some((sheet, (column, ()))) => Ok(Some(Styles::DeleteColumnStyle { sheet, column })),
            None => Ok(None),
        },
        "delete_row_style" => match Words::of(alloc, rest)? {
            Some((sheet, (row, ()))) => Ok(Some(Styles::DeleteRowStyle { sheet, row })),
            None => Ok(None),
        },
        _ => Ok(None),
    }
}
