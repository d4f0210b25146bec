ghost use Rattle.std.specs.Prelude.{◌≡◌, ◌↔◌, ◌&&◌, ◌++◌, ℕ, List, true, false, Some, chars, string_bytes, option_map, IfOk, IfSome, IsNone, OnOk};
ghost use Rattle.ic_laws.specs.Scan.{IsEnd};
ghost use Rattle.ic_laws.specs.Position.{is_column, is_inside, is_row};
ghost use Rattle.ic_refs.specs.A1.{a1_at, a1_text, is_shown_spellable, is_spellable, place_text, SpellsA1};
ghost use Rattle.ic_refs.specs.Longest.{FindsLongestAt, read_at};

use crate::a1::Origin;
use crate::a1_text::{is_inside, push_place};
use crate::column::{is_valid_column_number, is_valid_row};
use crate::find::read_reference;
use crate::sheet::push_sheet;
use ic_laws::{OutOfMemory, Place, RefToken, lent_name};
use std::alloc::Global;

// Whether a cell lies in the sheet.
fn is_in_sheet(cell: Origin) -> bool
    ensures { result ≡ (is_row cell.row && is_column cell.column) }
{
    is_valid_row(cell.row) && is_valid_column_number(cell.column)
}

// The longest reference that begins at a byte.
fn read_in_cell(
    alloc: Global,
    text: &str,
    at: usize,
    origin: Origin,
) -> Result<Option<(RefToken, usize)>, OutOfMemory>
    ensures { IfOk result (λ found. found ≡ read_at (a1_at origin.row origin.column) text.now at) }
{
    if !is_in_sheet(origin) {
        return Ok(None);
    }
    read_reference(alloc, &origin, text, at)
}

/// The longest reference in the A1 form that begins at this byte of the text, read in the cell at this row and column,
/// both from 1, and its length in bytes. A position with a dollar sign is absolute, one without is the distance from
/// the cell. None where no reference begins there, past the end and inside a character, and where the cell lies
/// outside the sheet.
pub fn read_a1(
    alloc: Global,
    text: &str,
    at: usize,
    row: i32,
    column: i32,
) -> Result<Option<(RefToken, usize)>, OutOfMemory>
    ensures exact { IfOk result (λ found. found ≡ read_at (a1_at row column) text.now at) }
    ensures longest { IfOk result (λ found. FindsLongestAt (SpellsA1 row column) text.now at
        found) }
{
    read_in_cell(alloc, text, at, Origin { row, column })
}

// The reference as it is written in a cell.
fn spell_in_cell(alloc: Global, r: &RefToken, origin: Origin) -> Result<Option<String>, OutOfMemory>
    ensures { IfOk result (λ text. option_map (λ t. chars (string_bytes t)) text
        ≡ a1_text origin.row origin.column r.now) }
{
    if !is_in_sheet(origin) || !is_inside(r.place, origin) {
        return Ok(None);
    }
    let mut text = String::new(alloc);
    push_sheet(&mut text, lent_name(&r.sheet))?;
    push_place(&mut text, r.place, origin)?;
    Ok(Some(text))
}

/// The reference as it is written in the A1 form in the cell at this row and column, both from 1. A range of all rows
/// or all columns has the short form. None exactly where the cell or a corner of the reference lies outside the sheet.
///
/// What it gives is read back, where the name of the sheet is a valid one or there is none: before each end `read_a1`
/// finds this reference and no longer one.
pub fn spell_a1(
    alloc: Global,
    r: &RefToken,
    row: i32,
    column: i32,
) -> Result<Option<String>, OutOfMemory>
    ensures exact { IfOk result (λ text. option_map (λ t. chars (string_bytes t)) text
        ≡ a1_text row column r.now) }
    ensures none { IfOk result (λ text. IsNone text ↔ (is_spellable row column r.now ≡ false)) }
    ensures again { is_shown_spellable row column r.now ≡ true
        → IfOk result (λ text. IfSome text (λ t. (rest : List ℕ) → IsEnd rest
        → a1_at row column (chars (string_bytes t) ++ rest) ≡ Some (r.now, rest))) }
{
    spell_in_cell(alloc, r, Origin { row, column })
}

/// Whether a place can be written in the A1 form in the cell at this row and column, both from 1: whether the cell and
/// each corner of the place lie in the sheet.
pub fn is_a1_place(place: Place, row: i32, column: i32) -> bool
    ensures { result ≡ (is_row row && is_column column && is_inside place row column) }
{
    let origin = Origin { row, column };
    is_in_sheet(origin) && is_inside(place, origin)
}

/// Appends a place as it is written in the A1 form in the cell at this row and column, both from 1. A range of all rows
/// or all columns has the short form. Each corner has to lie in the sheet; `is_a1_place` tells it.
pub fn push_a1_place(
    out: &mut String,
    place: Place,
    row: i32,
    column: i32,
) -> Result<(), OutOfMemory>
    requires { is_inside place row column ≡ true }
    ensures { OnOk result (chars (string_bytes out.new) ≡ chars (string_bytes out.old)
        ++ place_text row column place) }
{
    push_place(out, place, Origin { row, column })
}
