ghost use Rattle.std.specs.Prelude.{◌≡◌, pos, Some, None, chars, encode_utf8_all, option_map, IfOk, MatchOption};
ghost use Rattle.std.specs.Fn.{FnReturnsAt};
ghost use Rattle.ic_laws.specs.Position.{place_at};
ghost use Rattle.ic_laws.specs.declared.reference.RefPart.{RefPart};
ghost use Rattle.ic_refs.specs.A1.{SpellsCell, a1_place_at};
ghost use Rattle.ic_refs.specs.Formula.{IsSheetOf, ParsesFormula, UnlessMemory, a1_cell_of, a1_reference, cell_on, formula_token, is_absolute, not_a_reference, place_on, whole_of};
ghost use Rattle.ic_refs.specs.FormulaForm.{TellsFormula};
ghost use Rattle.ic_refs.specs.Referred.{LiesInSheet};
ghost use Rattle.ic_refs.specs.Sheet.{reference_at};
ghost use Rattle.ic_refs.specs.Token.{token_of};
ghost use Rattle.ic_refs.specs.Written.{name_of};

use crate::a1::{Origin, read_cell};
use crate::find::{FoundReference, find_reference};
use crate::trim::trimmed;
use crate::written::WrittenName;
use crate::{A1Reference, CellReferenceIndex, ParsedReference, ReferenceError};
use ic_laws::scan::{has_word_characters, is_nothing};
use ic_laws::{Place, Position, RefPart};
use std::alloc::Global;

/// From the corner of the sheet each position is its number.
const CORNER: Origin = Origin { row: 0, column: 0 };

/// The cell that the whole text is in the A1 form. None exactly where it is none.
pub fn parse_reference_a1(text: &str) -> Option<A1Reference>
    ensures exact { result ≡ a1_cell_of (chars text.now) }
    ensures spelled { MatchOption result ((part : RefPart)
        → SpellsCell (pos 0) (pos 0) (chars text.now) part → ⊥)
        (λ r. (part : RefPart) × SpellsCell (pos 0) (pos 0) (chars text.now) part
        × (r ≡ a1_reference part)) }
{
    whole_cell(text)
}

// The same, with the clause that says it all.
fn whole_cell(text: &str) -> Option<A1Reference>
    ensures { result ≡ a1_cell_of (chars text.now) }
{
    let (part, rest) = read_cell(text, CORNER)?;
    if is_nothing(rest) {
        Some(a1_reference(part))
    } else {
        None
    }
}

// A cell with its numbers and its dollar signs.
fn a1_reference(part: RefPart) -> A1Reference
    ensures { result ≡ a1_reference part }
{
    A1Reference {
        row: number_of(part.row),
        column: number_of(part.column),
        absolute_row: is_absolute(part.row),
        absolute_column: is_absolute(part.column),
    }
}

// Where a position lies that was read from the corner of the sheet.
fn number_of(position: Position) -> i32
    ensures { result ≡ place_at position (pos 0) }
{
    match position {
        Position::Abs(number) => number,
        Position::Rel(number) => number,
    }
}

// Whether a position has a dollar sign.
fn is_absolute(position: Position) -> bool
    ensures { result ≡ is_absolute position }
{
    matches!(position, Position::Abs(_))
}

impl ParsedReference {
    /// What a text refers to: a cell or a range in the A1 form, with a sheet's name or without. Blanks around it are
    /// dropped. `context` is the sheet where no name is written, and `find` gives the number of a sheet by its name.
    ///
    /// Err tells the first that holds: the text is no reference, `NotReference` where it is empty or a word and
    /// `OneToken` elsewhere; no sheet's name is written and there is no context, `NoSheetKnown`; `find` knows no sheet
    /// of this name, `SheetUnknown`. Memory may run out on the way, `OutOfMemory`.
    pub fn parse_reference_formula<F: Fn(&str) -> Option<u32>>(
        alloc: Global,
        context: Option<u32>,
        text: &str,
        find: F,
    ) -> Result<ParsedReference, ReferenceError>
        requires { F.IsAlwaysCallable find }
        ensures exact { UnlessMemory result (ParsesFormula
            (λ name answer. FnReturnsAt F.Fn find (encode_utf8_all name) answer) context
            (formula_token (chars text.now))) }

        // What is answered is what the text spells.
        ensures spelled { TellsFormula (λ name answer. FnReturnsAt F.Fn find (encode_utf8_all name)
            answer) context (chars text.now) result }
        ensures inside { IfOk result LiesInSheet }
    {
        whole_text(alloc, context, text, find)
    }
}

// The same, with the clause that says it all.
fn whole_text<F: Fn(&str) -> Option<u32>>(
    alloc: Global,
    context: Option<u32>,
    text: &str,
    find: F,
) -> Result<ParsedReference, ReferenceError>
    requires { F.IsAlwaysCallable find }
    ensures { UnlessMemory result (ParsesFormula
        (λ name answer. FnReturnsAt F.Fn find (encode_utf8_all name) answer) context
        (formula_token (chars text.now))) }
{
    let token = trimmed(text);
    let Some(found) = whole_reference(token) else {
        return Err(not_a_reference(token));
    };
    let sheet = sheet_of(alloc, found.sheet, context, find)?;
    Ok(place_on(found.place, sheet))
}

// The reference that the whole text is.
fn whole_reference(text: &str) -> Option<FoundReference<'_>>
    ensures { option_map token_of result ≡ whole_of
        (reference_at (a1_place_at (pos 0) (pos 0)) (chars text.now)) }
{
    let found = find_reference(&CORNER, text)?;
    if is_nothing(found.rest) {
        Some(found)
    } else {
        None
    }
}

// What stands in place of a reference: a word or nothing, or anything else.
fn not_a_reference(text: &str) -> ReferenceError
    ensures { result ≡ not_a_reference (chars text.now) }
{
    if has_word_characters(text) {
        ReferenceError::NotReference
    } else {
        ReferenceError::OneToken
    }
}

// The sheet that a reference is on: the one that is known where no name is written, else the one of this name.
pub(crate) fn sheet_of<F: Fn(&str) -> Option<u32>>(
    alloc: Global,
    sheet: Option<WrittenName<'_>>,
    known: Option<u32>,
    find: F,
) -> Result<u32, ReferenceError>
    requires { F.IsAlwaysCallable find }
    ensures { UnlessMemory result (IsSheetOf (λ name answer. FnReturnsAt F.Fn find
        (encode_utf8_all name) answer) known (option_map name_of sheet.entry)) }
{
    let Some(written) = sheet else {
        return known.ok_or(ReferenceError::NoSheetKnown);
    };
    let name = written.name(alloc)?;
    match find(name.as_str()) {
        Some(number) => Ok(number),
        None => Err(ReferenceError::SheetUnknown(name)),
    }
}

// A place on a sheet, its corners as they are written.
fn place_on(place: Place, sheet: u32) -> ParsedReference
    ensures { result ≡ place_on place sheet }
{
    match place {
        Place::Cell(part) => ParsedReference::CellReference(cell_on(sheet, part)),
        Place::Range(first, last) => ParsedReference::Range(
            cell_on(sheet, first),
            cell_on(sheet, last),
        ),
    }
}

// A corner on a sheet.
fn cell_on(sheet: u32, part: RefPart) -> CellReferenceIndex
    ensures { result ≡ cell_on sheet part }
{
    CellReferenceIndex {
        sheet,
        row: number_of(part.row),
        column: number_of(part.column),
    }
}
