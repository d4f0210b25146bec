ghost use Rattle.std.specs.Prelude.{◌≡◌, chars, true};
ghost use Rattle.ic_laws.specs.Position.{is_row, is_column};
ghost use Rattle.ic_refs.specs.R1C1.{Gives, column_after, row_end_at, column_end_at, end_at, last_end, ends_after, ends_of, first_cell, last_cell, first_corner, last_corner, area_of, have_one_kind, referred};

use crate::error::ReferenceError;
use crate::r1c1_part::read_part;
use crate::reference::{CellReferenceIndex, ParsedReference};
use ic_laws::scan::first_char;
use ic_laws::{LAST_COLUMN, LAST_ROW};

/// One end of a reference: a cell has a row and a column, a whole row no column, a whole column no row.
#[derive(Clone, Copy)]
pub(crate) struct End {
    pub(crate) row: Option<i32>,
    pub(crate) column: Option<i32>,
}

// A column part after a row, if there is one.
fn read_column_after(
    cell: CellReferenceIndex,
    row: i32,
    text: &str,
) -> Result<(End, &str), ReferenceError>
    requires { is_column cell.column ≡ true }
    ensures { Gives (λ f. (f.0, chars f.1.now)) result (column_after cell row (chars text.now)) }
{
    match first_char(text) {
        Some(('C' | 'c', after)) => {
            let (column, rest) = read_part(LAST_COLUMN as u32, cell.column, after)?;
            Ok((
                End {
                    row: Some(row),
                    column: Some(column),
                },
                rest,
            ))
        }
        _ => Ok((
            End {
                row: Some(row),
                column: None,
            },
            text,
        )),
    }
}

// A row part and a column part, or the row part alone.
fn read_row_end(cell: CellReferenceIndex, text: &str) -> Result<(End, &str), ReferenceError>
    requires row { is_row cell.row ≡ true }
    requires column { is_column cell.column ≡ true }
    ensures { Gives (λ f. (f.0, chars f.1.now)) result (row_end_at cell (chars text.now)) }
{
    let (row, rest) = read_part(LAST_ROW as u32, cell.row, text)?;
    read_column_after(cell, row, rest)
}

// A column part alone.
fn read_column_end(cell: CellReferenceIndex, text: &str) -> Result<(End, &str), ReferenceError>
    requires { is_column cell.column ≡ true }
    ensures { Gives (λ f. (f.0, chars f.1.now)) result (column_end_at cell (chars text.now)) }
{
    let (column, rest) = read_part(LAST_COLUMN as u32, cell.column, text)?;
    Ok((
        End {
            row: None,
            column: Some(column),
        },
        rest,
    ))
}

// One end at the front, and the rest.
fn read_end(cell: CellReferenceIndex, text: &str) -> Result<(End, &str), ReferenceError>
    requires row { is_row cell.row ≡ true }
    requires column { is_column cell.column ≡ true }
    ensures { Gives (λ f. (f.0, chars f.1.now)) result (end_at cell (chars text.now)) }
{
    match first_char(text) {
        Some(('R' | 'r', after)) => read_row_end(cell, after),
        Some(('C' | 'c', after)) => read_column_end(cell, after),
        _ => Err(ReferenceError::ExpectedLetter),
    }
}

// The second end, which ends the text.
fn read_last_end(
    cell: CellReferenceIndex,
    first: End,
    text: &str,
) -> Result<(End, Option<End>), ReferenceError>
    requires row { is_row cell.row ≡ true }
    requires column { is_column cell.column ≡ true }
    ensures { result ≡ last_end cell first (chars text.now) }
{
    let (last, rest) = read_end(cell, text)?;
    match first_char(rest) {
        None => Ok((first, Some(last))),
        Some(_) => Err(ReferenceError::ExpectedEnd),
    }
}

// What stands after the first end: nothing, or a colon and the second end.
fn read_ends_after(
    cell: CellReferenceIndex,
    first: End,
    text: &str,
) -> Result<(End, Option<End>), ReferenceError>
    requires row { is_row cell.row ≡ true }
    requires column { is_column cell.column ≡ true }
    ensures { result ≡ ends_after cell first (chars text.now) }
{
    match first_char(text) {
        None => Ok((first, None)),
        Some((':', after)) => read_last_end(cell, first, after),
        Some(_) => Err(ReferenceError::ExpectedEnd),
    }
}

/// The ends that the text consists of.
pub(crate) fn read_ends(
    cell: CellReferenceIndex,
    text: &str,
) -> Result<(End, Option<End>), ReferenceError>
    requires row { is_row cell.row ≡ true }
    requires column { is_column cell.column ≡ true }
    ensures { result ≡ ends_of cell (chars text.now) }
{
    let (first, rest) = read_end(cell, text)?;
    read_ends_after(cell, first, rest)
}

// The first cell of what an end stands for.
fn first_cell(sheet: u32, end: End) -> CellReferenceIndex
    ensures { result ≡ first_cell sheet end }
{
    CellReferenceIndex {
        sheet,
        row: end.row.unwrap_or(1),
        column: end.column.unwrap_or(1),
    }
}

// The last cell of what an end stands for.
fn last_cell(sheet: u32, end: End) -> CellReferenceIndex
    ensures { result ≡ last_cell sheet end }
{
    CellReferenceIndex {
        sheet,
        row: end.row.unwrap_or(LAST_ROW),
        column: end.column.unwrap_or(LAST_COLUMN),
    }
}

// The corner at the lower row and the lower column.
fn first_corner(a: CellReferenceIndex, b: CellReferenceIndex) -> CellReferenceIndex
    ensures { result ≡ first_corner a b }
{
    let row = a.row.min(b.row);
    let column = a.column.min(b.column);
    CellReferenceIndex {
        sheet: a.sheet,
        row,
        column,
    }
}

// The corner at the higher row and the higher column.
fn last_corner(a: CellReferenceIndex, b: CellReferenceIndex) -> CellReferenceIndex
    ensures { result ≡ last_corner a b }
{
    let row = a.row.max(b.row);
    let column = a.column.max(b.column);
    CellReferenceIndex {
        sheet: a.sheet,
        row,
        column,
    }
}

// All that lies between two ends, its corners in order.
fn area(sheet: u32, a: End, b: End) -> ParsedReference
    ensures { result ≡ area_of sheet a b }
{
    ParsedReference::Range(
        first_corner(first_cell(sheet, a), first_cell(sheet, b)),
        last_corner(last_cell(sheet, a), last_cell(sheet, b)),
    )
}

// Whether two ends are of one kind: cells, whole rows or whole columns.
fn have_one_kind(a: End, b: End) -> bool
    ensures { result ≡ have_one_kind a b }
{
    a.row.is_some() == b.row.is_some() && a.column.is_some() == b.column.is_some()
}

/// What the ends refer to on a sheet.
pub(crate) fn referred(
    ends: (End, Option<End>),
    sheet: u32,
) -> Result<ParsedReference, ReferenceError>
    ensures { result ≡ referred ends sheet }
{
    let (first, last) = ends;
    match last {
        Some(last) if have_one_kind(first, last) => Ok(area(sheet, first, last)),
        Some(_) => Err(ReferenceError::MixedEnds),
        None if first.row.is_some() && first.column.is_some() => {
            Ok(ParsedReference::CellReference(first_cell(sheet, first)))
        }
        None => Ok(area(sheet, first, first)),
    }
}
