ghost use Rattle.std.specs.Prelude.{◌≡◌, ◌+◌, ◌<◌, None, Some, chars, length, option_map, string_bytes, IfOk, OnErr, OnOk, ◌++◌, codes};
ghost use Rattle.std.specs.FinMap as finite;
ghost use Rattle.ic_laws.specs.CoreBook.{formula_at};
ghost use Rattle.ic_laws.specs.FormulaReading.{cell_tree};
ghost use Rattle.ic_laws.specs.ReadAs.{read_as};
ghost use Rattle.ic_sheets.specs.Sheet.{HasIndexes, cells_of};
ghost use Rattle.ic_tree.specs.Typed.{as_typed};
ghost use Rattle.ic_machine.specs.Styling.{restyled};
ghost use Rattle.ic_machine.specs.subjects.Writing.{unquoted};
ghost use Rattle.ic_parts.specs.Written.{kind_of};

use crate::values::with_quote;
use ic_cells::Styles;
use ic_laws::scan::{push_char, push_text};
use ic_laws::{Bound, Dialect, Formula, OutOfMemory};
use ic_sheets::{FormulaKind, Sheet};
use ic_tables::Tables;
use ic_tree::{is_dynamic, read_typed};
use std::alloc::Global;

/// The tree of a text in a cell: as it stands, or else with a `)` added.
pub fn read_cell<D: Dialect>(alloc: Global, d: &D, text: &str) -> Result<Option<Bound>, OutOfMemory>
    ensures { IfOk result (λ t. option_map as_typed t
        ≡ cell_tree (D.meaning d.now) (chars text.now)) }
{
    match read_typed(alloc, d, text)? {
        Some(tree) => Ok(Some(tree)),
        None => read_closed(alloc, d, text),
    }
}

/// The tree of a text with a `)` added.
fn read_closed<D: Dialect>(alloc: Global, d: &D, text: &str) -> Result<Option<Bound>, OutOfMemory>
    ensures { IfOk result (λ t. option_map as_typed t
        ≡ read_as (D.meaning d.now) (chars text.now ++ codes ")")) }
{
    let mut closed = String::with_capacity(alloc, text.len())?;
    push_text(&mut closed, text)?;
    push_char(&mut closed, ')')?;
    read_typed(alloc, d, closed.as_str())
}

/// The formula in a cell of a sheet.
pub fn formula_at(worksheet: &Sheet, row: i32, column: i32) -> Option<&Formula>
    requires { HasIndexes (length worksheet.now.pool.formulas) worksheet.now.grid }
    ensures { option_map (λ f. f.now) result ≡ formula_at
        (cells_of worksheet.now.pool.formulas (finite.entries worksheet.now.grid.cells)) row
        column }
{
    let cell = worksheet.grid.cells.get(row, column)?;
    let place = cell.get_formula()?;
    worksheet.pool.get(place)
}

/// How many values a formula may have.
pub fn kind_of(formula: &Formula, tables: &Tables) -> FormulaKind
    ensures { result ≡ kind_of tables.now.kinds formula.now }
{
    match formula {
        Formula::Tree(tree) => {
            if is_dynamic(tree, tables) {
                FormulaKind::Dynamic
            } else {
                FormulaKind::Single
            }
        }
        Formula::Raw(_) => FormulaKind::Single,
    }
}

/// The number of a style without its quote flag, which may be new. Memory can be missing, and then nothing has changed.
pub fn without_quote(styles: &mut Styles, style: usize) -> Result<usize, OutOfMemory>
    requires { style < length styles.old }
    ensures number { IfOk result (λ n. n ≡ (restyled unquoted style styles.old).number) }
    ensures styles { OnOk result (styles.new ≡ (restyled unquoted style styles.old).styles) }
    ensures err { OnErr result (styles.new ≡ styles.old) }
{
    with_quote(styles, style, false)
}

/// A text after a sign.
pub fn after_sign(alloc: Global, sign: &str, text: &str) -> Result<String, OutOfMemory>
    ensures { IfOk result (λ s. chars (string_bytes s) ≡ chars sign.now ++ chars text.now) }
{
    let mut out = String::with_capacity(alloc, text.len())?;
    push_text(&mut out, sign)?;
    push_text(&mut out, text)?;
    Ok(out)
}
