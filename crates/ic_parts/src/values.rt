//! Values that are written into cells.
ghost use Rattle.std.specs.Prelude.{◌≡◌, ◌<◌, IfOk, OnErr, OnOk, Some, chars, false, length, true};
ghost use Rattle.ic_cells.specs.Strings.{string_index, with_string};
ghost use Rattle.ic_cells.specs.Style.{style_at, with_format, with_quote_prefix};
ghost use Rattle.ic_cells.specs.declared.cell.Cell.TheVariants as cells;
ghost use Rattle.ic_grid.specs.Shape.{celled};
ghost use Rattle.ic_grid.specs.Style as grid_style;
ghost use Rattle.ic_machine.specs.Refusal.{first_refusal};
ghost use Rattle.ic_machine.specs.Styling.{restyled};
ghost use Rattle.ic_machine.specs.subjects.Writing.{coded, unquoted};
ghost use Rattle.ic_parts.specs.Refused.{TellsOnly};
ghost use Rattle.ic_parts.specs.Values.{IsAmountValue, keeps_code, style_change, value_causes, value_cell, value_strings, with_put};
ghost use Rattle.ic_parts.specs.Written.{cell_causes};

use crate::BookError;
use crate::lists::Lists;
use crate::styled::copy_of;
use ic_cells::{Cell, SharedStrings, Style, Styles};
use ic_grid::Grid;
use ic_input::is_date_code;
use ic_laws::{Amount, Error, LAST_COLUMN, LAST_ROW, OutOfMemory, Text};
use std::alloc::Global;

/// What may be written into a cell and is no formula.
#[derive(Drop)]
pub enum Value<'t> {
    /// Nothing.
    Empty,
    Boolean(bool),
    Number(Amount),
    Error(Error),
    /// A text, which cells share.
    Text(&'t str),
}

/// What becomes of the style that a cell shows.
#[derive(Drop)]
pub enum Restyle<'t> {
    /// Nothing, also of its quote flag.
    Nothing,
    /// It gets the quote flag or loses it.
    Quote(bool),
    /// It gets the code of a typed number, and loses the quote flag.
    Code(&'t str),
}

/// The number of the style that a cell of a sheet shows which may be written.
pub fn style_in(grid: &Grid, row: i32, column: i32) -> Result<usize, BookError>
    ensures shown { IfOk result (λ n. n
        ≡ grid_style.style_at celled grid.now.cells grid.now.rows grid.now.columns (row, column)) }
    ensures refused { TellsOnly result (first_refusal (value_causes grid.now (row, column))) }
{
    if row < 1 || row > LAST_ROW {
        return Err(BookError::InvalidRow);
    }
    if column < 1 || column > LAST_COLUMN {
        return Err(BookError::InvalidColumn);
    }
    allowed_style(grid, row, column)
}

/// The number of the style that a cell of a sheet shows, unless merged cells or an array forbid to write it.
fn allowed_style(grid: &Grid, row: i32, column: i32) -> Result<usize, BookError>
    ensures shown { IfOk result (λ n. n
        ≡ grid_style.style_at celled grid.now.cells grid.now.rows grid.now.columns (row, column)) }
    ensures refused { TellsOnly result (first_refusal (cell_causes grid.now (row, column))) }
{
    match grid.style_to_write(row, column) {
        Ok(style) => Ok(style),
        Err(error) => Err(BookError::from(error)),
    }
}

/// The cell of a value in a style that is changed from the one of a number. The style, and the text that cells share, may
/// be new. Memory can be missing, and then nothing has changed.
pub fn new_cell(
    alloc: Global,
    lists: &mut Lists,
    shown: usize,
    value: &Value<'_>,
    change: &Restyle<'_>,
) -> Result<Cell, OutOfMemory>
    requires { shown < length lists.old.styles }
    ensures cell { IfOk result (λ cell. cell ≡ value_cell lists.old.strings value.now
        (restyled (style_change change.now) shown lists.old.styles).number) }
    ensures lists { OnOk result (lists.new ≡ with_put value.now
        (restyled (style_change change.now) shown lists.old.styles) lists.old) }
    ensures amount { OnOk result (IsAmountValue value.now) }
    ensures err { OnErr result (lists.new ≡ lists.old) }
{
    let count = lists.styles.len();
    let style = changed_style(alloc, &mut lists.styles, shown, change)?;
    match value_cell(&mut lists.strings, value, style) {
        Ok(cell) => Ok(cell),
        Err(error) => {
            lists.styles.truncate(count);
            Err(error)
        }
    }
}

/// The cell of a value in the style of a number. Its text may be new among the shared ones. Memory can be missing, and
/// then nothing has changed.
fn value_cell(
    strings: &mut SharedStrings,
    value: &Value<'_>,
    style: usize,
) -> Result<Cell, OutOfMemory>
    ensures cell { IfOk result (λ cell. cell ≡ value_cell strings.old value.now style) }
    ensures strings { OnOk result (strings.new ≡ value_strings value.now strings.old) }
    ensures amount { OnOk result (IsAmountValue value.now) }
    ensures err { OnErr result (strings.new ≡ strings.old) }
{
    match value {
        Value::Empty => Ok(Cell::EmptyCell { s: style }),
        Value::Boolean(truth) => Ok(Cell::new_boolean(*truth, style)),
        Value::Number(amount) => {
            // What always holds of an amount is known from here on.
            let _ = amount.units();
            Ok(Cell::new_number(*amount, style))
        }
        Value::Error(error) => Ok(Cell::new_error(*error, style)),
        Value::Text(text) => text_cell(strings, text, style),
    }
}

/// The cell of a text in the style of a number.
fn text_cell(strings: &mut SharedStrings, text: &str, style: usize) -> Result<Cell, OutOfMemory>
    ensures cell { IfOk result (λ cell. cell ≡ cells.SharedString
        (string_index (chars text.now) strings.old) style) }
    ensures strings { OnOk result (strings.new ≡ with_string (chars text.now) strings.old) }
    ensures err { OnErr result (strings.new ≡ strings.old) }
{
    let place = strings.index_of_or_create(text)?;
    Ok(Cell::new_string(place, style))
}

/// The number of a style that is changed from the one of a number, which may be new. Memory can be missing, and then
/// nothing has changed.
fn changed_style(
    alloc: Global,
    styles: &mut Styles,
    style: usize,
    change: &Restyle<'_>,
) -> Result<usize, OutOfMemory>
    requires { style < length styles.old }
    ensures number { IfOk result
        (λ n. n ≡ (restyled (style_change change.now) style styles.old).number) }
    ensures styles { OnOk result
        (styles.new ≡ (restyled (style_change change.now) style styles.old).styles) }
    ensures err { OnErr result (styles.new ≡ styles.old) }
{
    match change {
        Restyle::Nothing => Ok(style),
        Restyle::Quote(quoted) => with_quote(styles, style, *quoted),
        Restyle::Code(code) => with_code(alloc, styles, style, code),
    }
}

/// The number of a style with the code of a typed number and without its quote flag, which may be new; a date leaves a code
/// of dates as it is. Memory can be missing, and then nothing has changed.
fn with_code(
    alloc: Global,
    styles: &mut Styles,
    style: usize,
    code: &str,
) -> Result<usize, OutOfMemory>
    requires { style < length styles.old }
    ensures number { IfOk result (λ n. n ≡ (restyled
        (λ s. unquoted (coded (Some (chars code.now)) s)) style styles.old).number) }
    ensures styles { OnOk result (styles.new ≡ (restyled
        (λ s. unquoted (coded (Some (chars code.now)) s)) style styles.old).styles) }
    ensures err { OnErr result (styles.new ≡ styles.old) }
{
    if keeps_code(styles, style, code) {
        return with_quote(styles, style, false);
    }
    let coded = coded_style(alloc, styles, style, code)?;
    styles.get_style_index_or_create(&coded)
}

/// Whether the style of a number keeps its code where a number of this code is typed.
fn keeps_code(styles: &Styles, style: usize, code: &str) -> bool
    requires { style < length styles.now }
    ensures { result ≡ keeps_code (chars code.now) (style_at styles.now style) }
{
    match styles.get_style(style) {
        Some(style) => {
            style.num_fmt.is(code) || (is_date_code(code) && is_date_code(style.num_fmt.as_str()))
        }
        None => unreachable!(),
    }
}

/// The style of a number with this code and without its quote flag.
fn coded_style(
    alloc: Global,
    styles: &Styles,
    style: usize,
    code: &str,
) -> Result<Style, OutOfMemory>
    requires { style < length styles.now }
    ensures { IfOk result (λ s. s
        ≡ unquoted (with_format (chars code.now) (style_at styles.now style))) }
{
    let old = copy_of(styles, alloc, style)?;
    let num_fmt = Text::from_str(alloc, code)?;
    Ok(Style {
        num_fmt,
        quote_prefix: false,
        bold: old.bold,
        fill: old.fill.copy(alloc)?,
    })
}

/// The number of a style with this quote flag, which may be new. Memory can be missing, and then nothing has changed.
pub(crate) fn with_quote(
    styles: &mut Styles,
    style: usize,
    quoted: bool,
) -> Result<usize, OutOfMemory>
    requires { style < length styles.old }
    ensures number { IfOk result
        (λ n. n ≡ (restyled (with_quote_prefix quoted) style styles.old).number) }
    ensures styles { OnOk result
        (styles.new ≡ (restyled (with_quote_prefix quoted) style styles.old).styles) }
    ensures err { OnErr result (styles.new ≡ styles.old) }
{
    if quoted {
        return quoted_style(styles, style);
    }
    unquoted_style(styles, style)
}

/// The same with the flag.
fn quoted_style(styles: &mut Styles, style: usize) -> Result<usize, OutOfMemory>
    requires { style < length styles.old }
    ensures number { IfOk result
        (λ n. n ≡ (restyled (with_quote_prefix true) style styles.old).number) }
    ensures styles { OnOk result
        (styles.new ≡ (restyled (with_quote_prefix true) style styles.old).styles) }
    ensures err { OnErr result (styles.new ≡ styles.old) }
{
    if styles.style_is_quote_prefix(style) {
        return Ok(style);
    }
    styles.get_style_with_quote_prefix(style)
}

/// The same without it.
fn unquoted_style(styles: &mut Styles, style: usize) -> Result<usize, OutOfMemory>
    requires { style < length styles.old }
    ensures number { IfOk result
        (λ n. n ≡ (restyled (with_quote_prefix false) style styles.old).number) }
    ensures styles { OnOk result
        (styles.new ≡ (restyled (with_quote_prefix false) style styles.old).styles) }
    ensures err { OnErr result (styles.new ≡ styles.old) }
{
    if styles.style_is_quote_prefix(style) {
        return styles.get_style_without_quote_prefix(style);
    }
    Ok(style)
}
