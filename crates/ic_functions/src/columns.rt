//! The columns of all rows: the words of each language, and the kinds.
ghost use Rattle.std.specs.Prelude.{◌≡◌, ◌++◌, IfOk, OnOk, chars};
ghost use Rattle.ic_functions.specs.Rows.{all_rows, column, kinds_in, rows_in};

use crate::rows::{a_to_f, first, g_to_z, kind_in, next_row, word_at};
use ic_laws::{Items, OutOfMemory, Text};
use ic_tables::FunctionKind;
use std::alloc::Global;

/// The words at this place of all rows.
pub fn column(alloc: Global, place: usize) -> Result<Items<Text>, OutOfMemory>
    ensures { IfOk result (λ words. words ≡ column place all_rows) }
{
    let mut words = Vec::new(alloc);
    add_column(alloc, &mut words, first::text(), place)?;
    add_column(alloc, &mut words, a_to_f::text(), place)?;
    add_column(alloc, &mut words, g_to_z::text(), place)?;
    Ok(Items::from(words))
}

/// Appends the words at this place of the rows of a text.
fn add_column(
    alloc: Global,
    words: &mut Vec<Text>,
    text: &str,
    place: usize,
) -> Result<(), OutOfMemory>
    ensures { OnOk result (words.new.items ≡ words.old.items
        ++ column place (rows_in (chars text.now))) }
{
    let mut rest = text;
    while let Some((row, after)) = next_row(rest) {
        words.push(Text::from_str(alloc, word_at(row, place))?)?;
        rest = after;
    }
    Ok(())
}

/// The kinds of all rows.
pub fn kinds(alloc: Global) -> Result<Items<FunctionKind>, OutOfMemory>
    ensures { IfOk result (λ kinds. kinds ≡ kinds_in all_rows) }
{
    let mut kinds = Vec::new(alloc);
    add_kinds(&mut kinds, first::text())?;
    add_kinds(&mut kinds, a_to_f::text())?;
    add_kinds(&mut kinds, g_to_z::text())?;
    Ok(Items::from(kinds))
}

/// Appends the kinds of the rows of a text.
fn add_kinds(kinds: &mut Vec<FunctionKind>, text: &str) -> Result<(), OutOfMemory>
    ensures { OnOk result (kinds.new.items ≡ kinds.old.items
        ++ kinds_in (rows_in (chars text.now))) }
{
    let mut rest = text;
    while let Some((row, after)) = next_row(rest) {
        kinds.push(kind_in(row))?;
        rest = after;
    }
    Ok(())
}
