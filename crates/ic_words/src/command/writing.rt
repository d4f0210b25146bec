ghost use Rattle.std.specs.Prelude.{◌≡◌, [], IfOk, OnErr, option_map};
ghost use Rattle.ic_machine.specs.Row.{joined, named};
ghost use Rattle.ic_machine.specs.subjects.Writing.{writing_rows};
ghost use Rattle.ic_words.specs.Words.{HaveEscape, words_left};
ghost use Rattle.ic_words.specs.subjects.Writing.{writing_meant};

use crate::command::Made;
use crate::text::WordText;
use crate::words::Words;
use ic_laws::Amount;
use std::alloc::Global;

/// A command that writes a cell.
#[derive(Drop)]
pub enum Writing<'l> {
    SetUserInput {
        sheet: u32,
        row: i32,
        column: i32,
        text: WordText<'l>,
    },
    UpdateCellWithText {
        sheet: u32,
        row: i32,
        column: i32,
        text: WordText<'l>,
    },
    UpdateCellWithFormula {
        sheet: u32,
        row: i32,
        column: i32,
        text: WordText<'l>,
    },
    UpdateCellWithBool {
        sheet: u32,
        row: i32,
        column: i32,
        truth: bool,
    },
    UpdateCellWithNumber {
        sheet: u32,
        row: i32,
        column: i32,
        amount: Amount,
    },
}

/// The command of this name that writes a cell, by the words that are left. Memory is asked for only for a text with an
/// escape.
pub fn writing_in<'l>(alloc: Global, name: &str, rest: Option<&'l str>) -> Made<Writing<'l>>
    ensures exact { IfOk result (λ made. option_map writing_meant made
        ≡ joined (named [] writing_rows name.now (words_left rest.entry))) }
    ensures memory { OnErr result (HaveEscape (words_left rest.entry)) }
{
    match name {
        "set_user_input" => match Words::of(alloc, rest)? {
            Some((sheet, (row, (column, (text, ()))))) => Ok(Some(Writing::SetUserInput {
                sheet,
                row,
                column,
                text,
            })),
            None => Ok(None),
        },
        "update_cell_with_text" => match Words::of(alloc, rest)? {
            Some((sheet, (row, (column, (text, ()))))) => Ok(Some(Writing::UpdateCellWithText {
                sheet,
                row,
                column,
                text,
            })),
            None => Ok(None),
        },
        "update_cell_with_formula" => match Words::of(alloc, rest)? {
            Some((sheet, (row, (column, (text, ()))))) => Ok(Some(
                Writing::UpdateCellWithFormula {
                    sheet,
                    row,
                    column,
                    text,
                },
            )),
            None => Ok(None),
        },
        "update_cell_with_bool" => match Words::of(alloc, rest)? {
            Some((sheet, (row, (column, (truth, ()))))) => Ok(Some(Writing::UpdateCellWithBool {
                sheet,
                row,
                column,
                truth,
            })),
            None => Ok(None),
        },
        "update_cell_with_number" => match Words::of(alloc, rest)? {
            Some((sheet, (row, (column, (amount, ()))))) => Ok(Some(
                Writing::UpdateCellWithNumber {
                    sheet,
                    row,
                    column,
                    amount,
                },
            )),
            None => Ok(None),
        },
        _ => Ok(None),
    }
}
