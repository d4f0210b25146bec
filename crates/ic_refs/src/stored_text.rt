ghost use Rattle.std.specs.Prelude.{◌≡◌, ◌++◌, List, ℕ, true, Some, IfOk, OnOk, chars, string_bytes};
ghost use Rattle.std.specs.Fmt.{signed_decimal};
ghost use Rattle.ic_laws.specs.Scan.{IsEnd};
ghost use Rattle.ic_refs.specs.Sheet.{reference_at};
ghost use Rattle.ic_refs.specs.Stored.{is_stored_spellable, stored_place_at, position_text, cell_text, place_text, stored_text};

use crate::sheet::push_sheet;
use ic_laws::scan::push_char;
use ic_laws::{OutOfMemory, Place, Position, RefPart, RefToken, lent_name};
use std::alloc::Global;

/// The reference in the stored form.
///
/// What it gives is read back, where its numbers are within the limits of that form and the name of the sheet is a valid
/// one or there is none: before each end `read_rc` finds this reference and no longer one.
pub fn spell_rc(alloc: Global, r: &RefToken) -> Result<String, OutOfMemory>
    ensures exact { IfOk result (λ text. chars (string_bytes text) ≡ stored_text r.now) }
    ensures again { is_stored_spellable r.now ≡ true → (rest : List ℕ) → IsEnd rest
        → IfOk result (λ text. reference_at stored_place_at (chars (string_bytes text) ++ rest)
        ≡ Some (r.now, rest)) }
{
    spelled_reference(alloc, r)
}

// The reference in the stored form, by its text alone.
fn spelled_reference(alloc: Global, r: &RefToken) -> Result<String, OutOfMemory>
    ensures { IfOk result (λ text. chars (string_bytes text) ≡ stored_text r.now) }
{
    let mut out = String::new(alloc);
    push_sheet(&mut out, lent_name(&r.sheet))?;
    push_rc_place(&mut out, r.place)?;
    Ok(out)
}

/// Appends a place in the stored form.
pub fn push_rc_place(out: &mut String, place: Place) -> Result<(), OutOfMemory>
    ensures { OnOk result (chars (string_bytes out.new) ≡ chars (string_bytes out.old)
        ++ place_text place) }
{
    match place {
        Place::Cell(part) => push_cell(out, part),
        Place::Range(first, last) => {
            push_cell(out, first)?;
            push_char(out, ':')?;
            push_cell(out, last)
        }
    }
}

// Appends a cell.
fn push_cell(out: &mut String, part: RefPart) -> Result<(), OutOfMemory>
    ensures { OnOk result (chars (string_bytes out.new) ≡ chars (string_bytes out.old)
        ++ cell_text part) }
{
    push_position(out, 'R', part.row)?;
    push_position(out, 'C', part.column)
}

// Appends a row or a column after its letter.
fn push_position(out: &mut String, letter: char, position: Position) -> Result<(), OutOfMemory>
    ensures { OnOk result (chars (string_bytes out.new) ≡ chars (string_bytes out.old)
        ++ position_text letter position) }
{
    push_char(out, letter)?;
    match position {
        Position::Abs(number) => push_number(out, number),
        Position::Rel(distance) => {
            push_char(out, '[')?;
            push_number(out, distance)?;
            push_char(out, ']')
        }
    }
}

// Appends a number in decimal.
fn push_number(out: &mut String, number: i32) -> Result<(), OutOfMemory>
    ensures { OnOk result (chars (string_bytes out.new) ≡ chars (string_bytes out.old)
        ++ signed_decimal number) }
{
    write!(out, "{number}")?;
    Ok(())
}
