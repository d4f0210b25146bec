ghost use Rattle.std.specs.Prelude.{◌≡◌, ◌≤◌, ◌<◌, ◌^◌, option_map, IfOk, IfSome, chars};
ghost use Rattle.ic_refs.specs.Longest.{FindsLongestAt, read_at};
ghost use Rattle.ic_refs.specs.Sheet.{reference_at};
ghost use Rattle.ic_refs.specs.Stored.{SpellsStored, digits_at, distance_at, part_at, position_at, cell_at, place_from, stored_place_at};

use crate::find::{PlaceForm, read_reference};
use crate::number::read_number;
use ic_laws::scan::first_char;
use ic_laws::{LAST_COLUMN, LAST_ROW, OutOfMemory, Place, Position, RefPart, RefToken};
use std::alloc::Global;

/// The longest reference in the stored form that begins at this byte of the text, and the number of its bytes. None
/// where there is none, past the end of the text, and inside a character.
pub fn read_rc(
    alloc: Global,
    text: &str,
    at: usize,
) -> Result<Option<(RefToken, usize)>, OutOfMemory>
    ensures exact { IfOk result (λ found. found
        ≡ read_at (reference_at stored_place_at) text.now at) }
    ensures longest { IfOk result (λ found. FindsLongestAt SpellsStored text.now at found) }
{
    read_stored(alloc, text, at)
}

// The same, with the clause that says it all.
fn read_stored(
    alloc: Global,
    text: &str,
    at: usize,
) -> Result<Option<(RefToken, usize)>, OutOfMemory>
    ensures { IfOk result (λ found. found ≡ read_at (reference_at stored_place_at) text.now at) }
{
    read_reference(alloc, &StoredForm, text, at)
}

// The stored form.
struct StoredForm;

impl PlaceForm for StoredForm {
    ghost place_at = { λ _ text. stored_place_at text };

    ghost is_usable = { λ _. Unit {0} };

    fn read_place<'t>(&self, text: &'t str) -> Option<(Place, &'t str)> {
        read_place(text)
    }
}

// The digits of a distance less than the length, and what stands after the bracket that closes it.
fn read_digits(length: u32, text: &str) -> Option<(u32, &str)>
    requires { length < 2 ^ 31 }
    ensures exact { option_map (λ f. (f.0, chars f.1.now)) result
        ≡ digits_at length (chars text.now) }
    ensures within { IfSome result (λ f. f.0 ≤ length) }
{
    let (first, _) = first_char(text)?;
    if !first.is_ascii_digit() {
        return None;
    }
    let (number, rest) = read_number(length.saturating_sub(1), text);
    let (bracket, rest) = first_char(rest)?;
    if bracket == ']' {
        Some((number, rest))
    } else {
        None
    }
}

// The distance after an opening bracket.
fn read_distance(length: u32, text: &str) -> Option<(Position, &str)>
    requires { length < 2 ^ 31 }
    ensures { option_map (λ f. (f.0, chars f.1.now)) result ≡ distance_at length (chars text.now) }
{
    let (c, after) = first_char(text)?;
    if c == '-' {
        let (number, rest) = read_digits(length, after)?;
        return Some((Position::Rel(-(number as i32)), rest));
    }
    let (number, rest) = read_digits(length, text)?;
    Some((Position::Rel(number as i32), rest))
}

// What stands after the letter of a row or a column of a sheet of this length.
fn read_part(length: u32, text: &str) -> Option<(Position, &str)>
    requires { length < 2 ^ 31 }
    ensures { option_map (λ f. (f.0, chars f.1.now)) result ≡ part_at length (chars text.now) }
{
    let (c, after) = first_char(text)?;
    if c == '[' {
        return read_distance(length, after);
    }
    let (number, rest) = read_number(length, text);
    if number == 0 {
        return None;
    }
    Some((Position::Abs(number as i32), rest))
}

// The row or the column at the front, by its letter.
fn read_position(letter: char, length: u32, text: &str) -> Option<(Position, &str)>
    requires { length < 2 ^ 31 }
    ensures { option_map (λ f. (f.0, chars f.1.now)) result
        ≡ position_at letter length (chars text.now) }
{
    let (c, after) = first_char(text)?;
    if c == letter {
        read_part(length, after)
    } else {
        None
    }
}

// The cell at the front.
fn read_cell(text: &str) -> Option<(RefPart, &str)>
    ensures { option_map (λ f. (f.0, chars f.1.now)) result ≡ cell_at (chars text.now) }
{
    let (row, rest) = read_position('R', LAST_ROW as u32, text)?;
    let (column, rest) = read_position('C', LAST_COLUMN as u32, rest)?;
    Some((RefPart { row, column }, rest))
}

// The place that begins with a cell, and the rest.
fn read_after(first: RefPart, text: &str) -> (Place, &str)
    ensures { (result.0, chars result.1.now) ≡ place_from first (chars text.now) }
{
    let Some((c, after)) = first_char(text) else {
        return (Place::Cell(first), text);
    };
    if c != ':' {
        return (Place::Cell(first), text);
    }
    match read_cell(after) {
        Some((last, rest)) => (Place::Range(first, last), rest),
        None => (Place::Cell(first), text),
    }
}

// The longest place in the stored form at the front, and the rest.
fn read_place(text: &str) -> Option<(Place, &str)>
    ensures { option_map (λ f. (f.0, chars f.1.now)) result ≡ stored_place_at (chars text.now) }
{
    let (first, rest) = read_cell(text)?;
    Some(read_after(first, rest))
}
