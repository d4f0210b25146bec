ghost use Rattle.std.specs.Prelude.{◌≡◌, ◌⊎◌, [], IfOk, OnErr, false, option_map, true};
ghost use Rattle.ic_tables.specs.Words.{error_words};
ghost use Rattle.ic_machine.specs.Row.{joined, named};
ghost use Rattle.ic_machine.specs.subjects.Arrays.{array_rows};
ghost use Rattle.ic_words.specs.Words.{HaveEscape, copies_values, words_left};
ghost use Rattle.ic_words.specs.subjects.Arrays.{arrays_meant, spill_put_said, value_put_said};

use crate::command::Made;
use crate::text::WordText;
use crate::values::ValueWords;
use crate::words::Words;
use ic_cells::{FormulaValue, SpillValue};
use ic_refs::Area;
use ic_tables::Language;
use std::alloc::Global;

/// A command on arrays, spills and clearing.
#[derive(Drop)]
pub enum Arrays<'l> {
    SetUserArrayFormula {
        sheet: u32,
        row: i32,
        column: i32,
        width: i32,
        height: i32,
        text: WordText<'l>,
    },
    RangeClearContents {
        range: Area,
    },
    RangeClearAll {
        area: Area,
    },
    PutFormulaValue {
        sheet: u32,
        row: i32,
        column: i32,
        value: FormulaValue,
    },
    PutSpill {
        sheet: u32,
        row: i32,
        column: i32,
        width: i32,
        height: i32,
        values: Vec<SpillValue>,
    },
}

/// The command on arrays, spills and clearing of this name, by the words that are left, where this is the language `en`. Memory
/// is asked for only for a text with an escape, and for values.
pub fn arrays_in<'l>(
    alloc: Global,
    english: &Language,
    name: &str,
    rest: Option<&'l str>,
) -> Made<Arrays<'l>>
    ensures exact { IfOk result (λ made. option_map arrays_meant made
        ≡ joined (named (error_words english.now) array_rows name.now (words_left rest.entry))) }
    ensures memory { OnErr result
        (HaveEscape (words_left rest.entry) ⊎ (copies_values name.now ≡ true)) }
{
    match name {
        "put_formula_value" => value_put(alloc, english, rest),
        "put_spill" => spill_put(alloc, english, rest),
        _ => plain_arrays_in(alloc, name, rest),
    }
}

/// The command on arrays, spills and clearing of this name, by the words that are left, unless they are values.
fn plain_arrays_in<'l>(alloc: Global, name: &str, rest: Option<&'l str>) -> Made<Arrays<'l>>
    ensures exact { copies_values name.now ≡ false → IfOk result
        (λ made. option_map arrays_meant made
        ≡ joined (named [] array_rows name.now (words_left rest.entry))) }
    ensures memory { OnErr result (HaveEscape (words_left rest.entry)) }
{
    match name {
        "set_user_array_formula" => match Words::of(alloc, rest)? {
            Some((sheet, (row, (column, (width, (height, (text, ()))))))) => Ok(Some(
                Arrays::SetUserArrayFormula {
                    sheet,
                    row,
                    column,
                    width,
                    height,
                    text,
                },
            )),
            None => Ok(None),
        },
        "range_clear_contents" => match Words::of(alloc, rest)? {
            Some((sheet, (row, (column, (width, (height, ())))))) => Ok(Some(
                Arrays::RangeClearContents {
                    range: area(sheet, row, column, width, height),
                },
            )),
            None => Ok(None),
        },
        "range_clear_all" => match Words::of(alloc, rest)? {
            Some((sheet, (row, (column, (width, (height, ())))))) => Ok(Some(
                Arrays::RangeClearAll {
                    area: area(sheet, row, column, width, height),
                },
            )),
            None => Ok(None),
        },
        _ => Ok(None),
    }
}

/// The area of so many columns and rows from a row and a column on, of the sheet at an index.
fn area(sheet: u32, row: i32, column: i32, width: i32, height: i32) -> Area
    ensures { result ≡ record {
      sheet = sheet;
      row = row;
      column = column;
      width = width;
      height
          = height;
    } }
{
    Area {
        sheet,
        row,
        column,
        width,
        height,
    }
}

/// The command that gives a formula a value, by its words.
fn value_put<'l>(alloc: Global, english: &Language, rest: Option<&'l str>) -> Made<Arrays<'l>>
    ensures { IfOk result (λ made. option_map arrays_meant made
        ≡ value_put_said (error_words english.now) (words_left rest.entry)) }
{
    match ValueWords::of(alloc, english, rest)? {
        Some((sheet, (row, (column, value)))) => Ok(Some(Arrays::PutFormulaValue {
            sheet,
            row,
            column,
            value,
        })),
        None => Ok(None),
    }
}

/// The command that gives an array its values, by its words.
fn spill_put<'l>(alloc: Global, english: &Language, rest: Option<&'l str>) -> Made<Arrays<'l>>
    ensures { IfOk result (λ made. option_map arrays_meant made
        ≡ spill_put_said (error_words english.now) (words_left rest.entry)) }
{
    match ValueWords::of(alloc, english, rest)? {
        Some((sheet, (row, (column, (width, (height, values)))))) => Ok(Some(Arrays::PutSpill {
            sheet,
            row,
            column,
            width,
            height,
            values,
        })),
        None => Ok(None),
    }
}
