ghost use Rattle.std.specs.Prelude.{◌≡◌, [], IfOk, OnErr, option_map};
ghost use Rattle.ic_machine.specs.Row.{joined, named};
ghost use Rattle.ic_machine.specs.subjects.Reading.{reading_rows};
ghost use Rattle.ic_words.specs.Words.{HaveEscape, words_left};
ghost use Rattle.ic_words.specs.subjects.Reading.{reading_meant};

use crate::command::Made;
use crate::text::WordText;
use crate::words::Words;
use std::alloc::Global;

/// A command that reads cells.
#[derive(Drop)]
pub enum Reading<'l> {
    GetCellFormula { sheet: u32, row: i32, column: i32 },
    GetLocalizedCellContent { sheet: u32, row: i32, column: i32 },
    GetFormattedCellValue { sheet: u32, row: i32, column: i32 },
    GetCellValueByIndex { sheet: u32, row: i32, column: i32 },
    GetCellValueByRef { text: WordText<'l> },
    GetCellType { sheet: u32, row: i32, column: i32 },
    IsEmptyCell { sheet: u32, row: i32, column: i32 },
    GetAllCells,
    GetSheetMarkup { sheet: u32 },
}

/// The command of this name that reads cells, by the words that are left. Memory is asked for only for a text with an
/// escape.
pub fn reading_in<'l>(alloc: Global, name: &str, rest: Option<&'l str>) -> Made<Reading<'l>>
    ensures exact { IfOk result (λ made. option_map reading_meant made
        ≡ joined (named [] reading_rows name.now (words_left rest.entry))) }
    ensures memory { OnErr result (HaveEscape (words_left rest.entry)) }
{
    match name {
        "get_cell_formula" => match Words::of(alloc, rest)? {
            Some((sheet, (row, (column, ())))) => Ok(Some(Reading::GetCellFormula {
                sheet,
                row,
                column,
            })),
            None => Ok(None),
        },
        "get_localized_cell_content" => match Words::of(alloc, rest)? {
            Some((sheet, (row, (column, ())))) => Ok(Some(Reading::GetLocalizedCellContent {
                sheet,
                row,
                column,
            })),
            None => Ok(None),
        },
        "get_formatted_cell_value" => match Words::of(alloc, rest)? {
            Some((sheet, (row, (column, ())))) => Ok(Some(Reading::GetFormattedCellValue {
                sheet,
                row,
                column,
            })),
            None => Ok(None),
        },
        "get_cell_value_by_index" => match Words::of(alloc, rest)? {
            Some((sheet, (row, (column, ())))) => Ok(Some(Reading::GetCellValueByIndex {
                sheet,
                row,
                column,
            })),
            None => Ok(None),
        },
        "get_cell_value_by_ref" => match Words::of(alloc, rest)? {
            Some((text, ())) => Ok(Some(Reading::GetCellValueByRef { text })),
            None => Ok(None),
        },
        "get_cell_type" => match Words::of(alloc, rest)? {
            Some((sheet, (row, (column, ())))) => Ok(Some(Reading::GetCellType {
                sheet,
                row,
                column,
            })),
            None => Ok(None),
        },
        "is_empty_cell" => match Words::of(alloc, rest)? {
            Some((sheet, (row, (column, ())))) => Ok(Some(Reading::IsEmptyCell {
                sheet,
                row,
                column,
            })),
            None => Ok(None),
        },
        "get_all_cells" => match Words::of(alloc, rest)? {
            Some(()) => Ok(Some(Reading::GetAllCells)),
            None => Ok(None),
        },
        "get_sheet_markup" => match Words::of(alloc, rest)? {
            Some((sheet, ())) => Ok(Some(Reading::GetSheetMarkup { sheet })),
            None => Ok(None),
        },
        _ => Ok(None),
    }
}
