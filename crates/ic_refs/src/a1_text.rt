ghost use Rattle.std.specs.Prelude.{◌≡◌, ◌++◌, ◌∷◌, ◌≤◌, true, nat_abs, chars, string_bytes, OnOk};
ghost use Rattle.ic_laws.specs.Character.{colon};
ghost use Rattle.std.specs.Fmt.{decimal};
ghost use Rattle.ic_laws.specs.Position.{column_count, is_column, is_inside, is_part_inside, is_row, place_at};
ghost use Rattle.ic_refs.specs.A1.{are_whole_columns, are_whole_rows, cell_text, column_text, dollar_of, is_abs, place_text, range_text, row_text};

use crate::a1::Origin;
use crate::column::push_column;
use ic_laws::scan::{push_char, push_text};
use ic_laws::{LAST_COLUMN, LAST_ROW, OutOfMemory, Place, Position, RefPart};
use itoa::Buffer;

// Where a position lies, in a cell whose row or column is the origin.
fn place_at(position: Position, origin: i32) -> i64
    ensures { result ≡ place_at position origin }
{
    match position {
        Position::Abs(number) => i64::from(number),
        Position::Rel(distance) => i64::from(origin) + i64::from(distance),
    }
}

// Whether a corner lies in the sheet.
fn is_part_inside(part: RefPart, origin: Origin) -> bool
    ensures { result ≡ is_part_inside part origin.row origin.column }
{
    let row = place_at(part.row, origin.row);
    let column = place_at(part.column, origin.column);
    1 <= row && row <= i64::from(LAST_ROW) && (1 <= column && column <= i64::from(LAST_COLUMN))
}

// Whether each corner of a place lies in the sheet.
pub(crate) fn is_inside(place: Place, origin: Origin) -> bool
    ensures { result ≡ is_inside place origin.row origin.column }
{
    match place {
        Place::Cell(part) => is_part_inside(part, origin),
        Place::Range(first, last) => is_part_inside(first, origin) && is_part_inside(last, origin),
    }
}

// Appends the dollar sign of an absolute position.
fn push_dollar(out: &mut String, position: Position) -> Result<(), OutOfMemory>
    ensures { OnOk result (chars (string_bytes out.new) ≡ chars (string_bytes out.old)
        ++ dollar_of position) }
{
    match position {
        Position::Abs(_) => push_char(out, '$'),
        Position::Rel(_) => Ok(()),
    }
}

// Appends a number in decimal.
fn push_number(out: &mut String, number: u32) -> Result<(), OutOfMemory>
    ensures { OnOk result (chars (string_bytes out.new) ≡ chars (string_bytes out.old)
        ++ decimal number) }
{
    let mut digits = Buffer::new();
    push_text(out, digits.format(number))
}

// The number of a column in the sheet.
fn number_of_column(position: Position, origin: Origin) -> u32
    requires { is_column (place_at position origin.column) ≡ true }
    ensures same { result ≡ nat_abs (place_at position origin.column) }
    ensures low { 1 ≤ result }
    ensures high { result ≤ column_count }
{
    place_at(position, origin.column) as u32
}

// The number of a row in the sheet.
fn number_of_row(position: Position, origin: Origin) -> u32
    requires { is_row (place_at position origin.row) ≡ true }
    ensures { result ≡ nat_abs (place_at position origin.row) }
{
    place_at(position, origin.row) as u32
}

// Appends a column as it is written in a cell of this column.
fn push_column_at(out: &mut String, position: Position, origin: Origin) -> Result<(), OutOfMemory>
    requires { is_column (place_at position origin.column) ≡ true }
    ensures { OnOk result (chars (string_bytes out.new) ≡ chars (string_bytes out.old)
        ++ column_text origin.column position) }
{
    push_dollar(out, position)?;
    push_column(out, number_of_column(position, origin))
}

// Appends a row as it is written in a cell of this row.
fn push_row_at(out: &mut String, position: Position, origin: Origin) -> Result<(), OutOfMemory>
    requires { is_row (place_at position origin.row) ≡ true }
    ensures { OnOk result (chars (string_bytes out.new) ≡ chars (string_bytes out.old)
        ++ row_text origin.row position) }
{
    push_dollar(out, position)?;
    push_number(out, number_of_row(position, origin))
}

// Appends a cell as it is written in the cell at this row and column.
fn push_cell(out: &mut String, part: RefPart, origin: Origin) -> Result<(), OutOfMemory>
    requires { is_part_inside part origin.row origin.column ≡ true }
    ensures { OnOk result (chars (string_bytes out.new) ≡ chars (string_bytes out.old)
        ++ cell_text origin.row origin.column part) }
{
    push_column_at(out, part.column, origin)?;
    push_row_at(out, part.row, origin)
}

// Whether a position is the absolute one of this number.
fn is_abs(position: Position, number: i32) -> bool
    ensures { result ≡ is_abs position number }
{
    match position {
        Position::Abs(n) => n == number,
        Position::Rel(_) => false,
    }
}

// Whether two corners are whole columns.
fn are_whole_columns(first: RefPart, last: RefPart) -> bool
    ensures { result ≡ are_whole_columns first last }
{
    is_abs(first.row, 1) && is_abs(last.row, LAST_ROW)
}

// Whether two corners are whole rows.
fn are_whole_rows(first: RefPart, last: RefPart) -> bool
    ensures { result ≡ are_whole_rows first last }
{
    is_abs(first.column, 1) && is_abs(last.column, LAST_COLUMN)
}

// Appends two columns with a colon between them.
fn push_columns(
    out: &mut String,
    first: Position,
    last: Position,
    origin: Origin,
) -> Result<(), OutOfMemory>
    requires first { is_column (place_at first origin.column) ≡ true }
    requires last { is_column (place_at last origin.column) ≡ true }
    ensures { OnOk result (chars (string_bytes out.new) ≡ chars (string_bytes out.old)
        ++ (column_text origin.column first ++ colon ∷ column_text origin.column last)) }
{
    push_column_at(out, first, origin)?;
    push_char(out, ':')?;
    push_column_at(out, last, origin)
}

// Appends two rows with a colon between them.
fn push_rows(
    out: &mut String,
    first: Position,
    last: Position,
    origin: Origin,
) -> Result<(), OutOfMemory>
    requires first { is_row (place_at first origin.row) ≡ true }
    requires last { is_row (place_at last origin.row) ≡ true }
    ensures { OnOk result (chars (string_bytes out.new) ≡ chars (string_bytes out.old)
        ++ (row_text origin.row first ++ colon ∷ row_text origin.row last)) }
{
    push_row_at(out, first, origin)?;
    push_char(out, ':')?;
    push_row_at(out, last, origin)
}

// Appends two cells with a colon between them.
fn push_cells(
    out: &mut String,
    first: RefPart,
    last: RefPart,
    origin: Origin,
) -> Result<(), OutOfMemory>
    requires first { is_part_inside first origin.row origin.column ≡ true }
    requires last { is_part_inside last origin.row origin.column ≡ true }
    ensures { OnOk result (chars (string_bytes out.new) ≡ chars (string_bytes out.old)
        ++ (cell_text origin.row origin.column first ++ colon
        ∷ cell_text origin.row origin.column last)) }
{
    push_cell(out, first, origin)?;
    push_char(out, ':')?;
    push_cell(out, last, origin)
}

// Appends a range: whole columns and whole rows in their short form.
fn push_range(
    out: &mut String,
    first: RefPart,
    last: RefPart,
    origin: Origin,
) -> Result<(), OutOfMemory>
    requires first { is_part_inside first origin.row origin.column ≡ true }
    requires last { is_part_inside last origin.row origin.column ≡ true }
    ensures { OnOk result (chars (string_bytes out.new) ≡ chars (string_bytes out.old)
        ++ range_text origin.row origin.column first last) }
{
    if are_whole_columns(first, last) {
        push_columns(out, first.column, last.column, origin)
    } else if are_whole_rows(first, last) {
        push_rows(out, first.row, last.row, origin)
    } else {
        push_cells(out, first, last, origin)
    }
}

// Appends a place as it is written in the cell at this row and column.
pub(crate) fn push_place(out: &mut String, place: Place, origin: Origin) -> Result<(), OutOfMemory>
    requires { is_inside place origin.row origin.column ≡ true }
    ensures { OnOk result (chars (string_bytes out.new) ≡ chars (string_bytes out.old)
        ++ place_text origin.row origin.column place) }
{
    match place {
        Place::Cell(part) => push_cell(out, part, origin),
        Place::Range(first, last) => push_range(out, first, last, origin),
    }
}
