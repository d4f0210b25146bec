ghost use Rattle.std.specs.Prelude.{◌≡◌, [], IfOk, OnErr, option_map};
ghost use Rattle.ic_machine.specs.Row.{joined, named};
ghost use Rattle.ic_machine.specs.subjects.Extending.{extending_rows};
ghost use Rattle.ic_words.specs.Words.{HaveEscape, words_left};
ghost use Rattle.ic_words.specs.subjects.Extending.{extending_meant};

use crate::command::Made;
use crate::text::WordText;
use crate::words::Words;
use ic_refs::CellReferenceIndex;
use std::alloc::Global;

/// A command that writes a formula out for another cell, or the one that reads the name of a cell.
#[derive(Drop)]
pub enum Extending<'l> {
    ExtendTo {
        sheet: u32,
        row: i32,
        column: i32,
        target_row: i32,
        target_column: i32,
    },
    ExtendCopiedValue {
        text: WordText<'l>,
        source: CellReferenceIndex,
        target: CellReferenceIndex,
    },
    ParseReference {
        text: WordText<'l>,
    },
}

/// The command of this name that writes a formula out for another cell or reads the name of a cell, by the words that
/// are left. Memory is asked for only for a text with an escape.
pub fn extending_in<'l>(alloc: Global, name: &str, rest: Option<&'l str>) -> Made<Extending<'l>>
    ensures exact { IfOk result (λ made. option_map extending_meant made
        ≡ joined (named [] extending_rows name.now (words_left rest.entry))) }
    ensures memory { OnErr result (HaveEscape (words_left rest.entry)) }
{
    match name {
        "extend_to" => match Words::of(alloc, rest)? {
            Some((sheet, (row, (column, (target_row, (target_column, ())))))) => Ok(Some(
                Extending::ExtendTo {
                    sheet,
                    row,
                    column,
                    target_row,
                    target_column,
                },
            )),
            None => Ok(None),
        },
        "extend_copied_value" => match Words::of(alloc, rest)? {
            Some((text, (sheet, (row, (column, (to_sheet, (to_row, (to_column, ())))))))) => Ok(
                Some(Extending::ExtendCopiedValue {
                    text,
                    source: cell_at(sheet, row, column),
                    target: cell_at(to_sheet, to_row, to_column),
                }),
            ),
            None => Ok(None),
        },
        "parse_reference" => match Words::of(alloc, rest)? {
            Some((text, ())) => Ok(Some(Extending::ParseReference { text })),
            None => Ok(None),
        },
        _ => Ok(None),
    }
}

/// The cell of the sheet at an index, at a row and a column.
fn cell_at(sheet: u32, row: i32, column: i32) -> CellReferenceIndex
    ensures { result ≡ record { sheet = sheet; row = row; column = column } }
{
    CellReferenceIndex { sheet, row, column }
}
