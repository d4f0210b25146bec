ghost use Rattle.std.specs.Prelude.{◌≡◌, ◌-◌, ◌≤◌, ◌≤ℤ◌, pos, true, Some, None, chars, option_and_then, option_map, if◌then◌else◌};
ghost use Rattle.ic_laws.specs.Position.{row_count};
ghost use Rattle.ic_laws.specs.Scan.{past_dollar};
ghost use Rattle.ic_refs.specs.A1.{a1_place_at, cell_at, column_at, has_dollar, IsAnOrigin, pair_at, past_colon, read_position, row_at, whole_columns, whole_rows};

use crate::column::read_letters;
use crate::find::PlaceForm;
use crate::number::read_number;
use ic_laws::scan::first_char;
use ic_laws::{LAST_COLUMN, LAST_ROW, Place, Position, RefPart};

/// The cell in which a reference is read or spelled.
#[derive(Clone, Copy)]
pub(crate) struct Origin {
    pub(crate) row: i32,
    pub(crate) column: i32,
}

// Whether a dollar sign stands at the front, and the rest.
fn read_dollar(text: &str) -> (bool, &str)
    ensures dollar { result.0 ≡ has_dollar (chars text.now) }
    ensures rest { chars result.1.now ≡ past_dollar (chars text.now) }
{
    match first_char(text) {
        Some(('$', rest)) => (true, rest),
        _ => (false, text),
    }
}

// The position of a number that was read before this rest. There is none where the number is 0.
fn read_position(absolute: bool, origin: i32, number: u32, rest: &str) -> Option<(Position, &str)>
    requires small { number ≤ row_count }
    requires low { pos 0 ≤ℤ origin }
    requires high { origin ≤ℤ LAST_ROW }
    ensures { option_map (λ f. (f.0, chars f.1.now)) result
        ≡ read_position absolute origin (number, chars rest.now) }
{
    if number == 0 {
        return None;
    }
    let number = number as i32;
    let position = if absolute {
        Position::Abs(number)
    } else {
        Position::Rel(number - origin)
    };
    Some((position, rest))
}

// The column at the front, read at a column, and the rest.
fn read_column(text: &str, column: i32) -> Option<(Position, &str)>
    requires low { pos 0 ≤ℤ column }
    requires high { column ≤ℤ LAST_COLUMN }
    ensures { option_map (λ f. (f.0, chars f.1.now)) result ≡ column_at column (chars text.now) }
{
    let (absolute, letters) = read_dollar(text);
    let (number, rest) = read_letters(letters);
    read_position(absolute, column, number, rest)
}

// The row at the front, read at a row, and the rest.
fn read_row(text: &str, row: i32) -> Option<(Position, &str)>
    requires low { pos 0 ≤ℤ row }
    requires high { row ≤ℤ LAST_ROW }
    ensures { option_map (λ f. (f.0, chars f.1.now)) result ≡ row_at row (chars text.now) }
{
    let (absolute, digits) = read_dollar(text);
    let (number, rest) = read_number(LAST_ROW as u32, digits);
    read_position(absolute, row, number, rest)
}

// The cell at the front, read at a row and a column, and the rest.
pub(crate) fn read_cell(text: &str, origin: Origin) -> Option<(RefPart, &str)>
    requires { IsAnOrigin origin.row origin.column }
    ensures { option_map (λ f. (f.0, chars f.1.now)) result
        ≡ cell_at origin.row origin.column (chars text.now) }
{
    let (column, rest) = read_column(text, origin.column)?;
    let (row, rest) = read_row(rest, origin.row)?;
    Some((RefPart { row, column }, rest))
}

// What stands after a colon at the front.
fn past_colon(text: &str) -> Option<&str>
    ensures { option_map (λ r. chars r.now) result ≡ past_colon (chars text.now) }
{
    let (c, rest) = first_char(text)?;
    if c == ':' { Some(rest) } else { None }
}

// The cell after a colon at the front, and the rest.
fn read_last_cell(text: &str, origin: Origin) -> Option<(RefPart, &str)>
    requires { IsAnOrigin origin.row origin.column }
    ensures { option_map (λ f. (f.0, chars f.1.now)) result
        ≡ option_and_then (cell_at origin.row origin.column) (past_colon (chars text.now)) }
{
    read_cell(past_colon(text)?, origin)
}

// Two rows with a colon between them.
fn read_rows(text: &str, row: i32) -> Option<((Position, Position), &str)>
    requires low { pos 0 ≤ℤ row }
    requires high { row ≤ℤ LAST_ROW }
    ensures { option_map (λ f. (f.0, chars f.1.now)) result
        ≡ pair_at (row_at row) (chars text.now) }
{
    let (first, rest) = read_row(text, row)?;
    let (last, rest) = read_row(past_colon(rest)?, row)?;
    Some(((first, last), rest))
}

impl PlaceForm for Origin {
    ghost place_at = { λ origin text. a1_place_at origin.row origin.column text };

    ghost is_usable = { λ origin. IsAnOrigin origin.row origin.column };

    fn read_place<'t>(&self, text: &'t str) -> Option<(Place, &'t str)> {
        read_place(text, *self)
    }
}

// The longest place at the front, read at a row and a column, and the rest. A text that begins with a column begins with no
// row, and the column is read once.
#[tactic(auto, using(crate::proofs::A1CellLemmas::column_no_row))]
fn read_place(text: &str, origin: Origin) -> Option<(Place, &str)>
    requires { IsAnOrigin origin.row origin.column }
    ensures exact { option_map (λ f. (f.0, chars f.1.now)) result
        ≡ a1_place_at origin.row origin.column (chars text.now) }
{
    let Some((column, rest)) = read_column(text, origin.column) else {
        let ((first, last), rest) = read_rows(text, origin.row)?;
        return Some((whole_rows(first, last), rest));
    };
    if let Some((row, rest)) = read_row(rest, origin.row) {
        let first = RefPart { row, column };
        return match read_last_cell(rest, origin) {
            Some((last, end)) => Some((Place::Range(first, last), end)),
            None => Some((Place::Cell(first), rest)),
        };
    }
    let (last, rest) = read_column(past_colon(rest)?, origin.column)?;
    Some((whole_columns(column, last), rest))
}

// All rows of these columns.
fn whole_columns(first: Position, last: Position) -> Place
    ensures { result ≡ whole_columns first last }
{
    Place::Range(
        RefPart {
            row: Position::Abs(1),
            column: first,
        },
        RefPart {
            row: Position::Abs(LAST_ROW),
            column: last,
        },
    )
}

// All columns of these rows.
fn whole_rows(first: Position, last: Position) -> Place
    ensures { result ≡ whole_rows first last }
{
    Place::Range(
        RefPart {
            row: first,
            column: Position::Abs(1),
        },
        RefPart {
            row: last,
            column: Position::Abs(LAST_COLUMN),
        },
    )
}
