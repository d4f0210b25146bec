//! The names that a passing sheet can't have.
ghost use Rattle.std.specs.Prelude.{◌≡◌, ◌≤◌, ◌++◌, IfOk, OnOk, flat_map, length, map, option_map};
ghost use Rattle.std.specs.List.{slice_get};
ghost use Rattle.std.specs.Option.{option_to_list};
ghost use Rattle.ic_parts.specs.Book.{core_of};
ghost use Rattle.ic_parts.specs.Lent.{placed};
ghost use Rattle.ic_dump.specs.Passing.{taken_names, unfound_of};
ghost use Rattle.ic_dump.specs.Records.{core_seen};

use crate::sheets::SheetSeen;
use crate::unfound::{Names, push_unfound_of};
use ic_book::{Model, PlacedFormula};
use ic_laws::OutOfMemory;
use std::alloc::Global;

/// The names of a book's sheets, given these and the number of its definitions, and those of sheets that formulas name and that
/// weren't found. Only memory can be missing.
pub(crate) fn taken_names<'b>(
    alloc: Global,
    model: &'b Model<'_>,
    sheets: &'b [SheetSeen<'b>],
    count: usize,
) -> Result<Names<'b>, OutOfMemory>
    requires sheets { map core_seen sheets.now ≡ (core_of model.now.book).sheets }
    requires definitions { length model.now.book.definitions ≤ count }
    ensures { IfOk result (λ names. map (λ name. name.now) names.items
        ≡ taken_names (core_of model.now.book)) }
{
    let mut names = Vec::new(alloc);
    push_own(&mut names, sheets)?;
    push_unfound_in(&mut names, sheets)?;
    push_unfound_by(&mut names, model, count)?;
    Ok(names)
}

/// Puts the names of these sheets at the end.
fn push_own<'b>(names: &mut Names<'b>, sheets: &'b [SheetSeen<'b>]) -> Result<(), OutOfMemory>
    ensures { OnOk result (map (λ name. name.now) names.new.items
        ≡ map (λ name. name.now) names.old.items ++ map (λ s. s.name.now.name) sheets.now) }
{
    for sheet in sheets {
        names.push(&sheet.name.name)?;
    }
    Ok(())
}

/// Puts the names of sheets that the formulas of these sheets' cells name and that weren't found at the end.
fn push_unfound_in<'b>(
    names: &mut Names<'b>,
    sheets: &'b [SheetSeen<'b>],
) -> Result<(), OutOfMemory>
    ensures { OnOk result (map (λ name. name.now) names.new.items
        ≡ map (λ name. name.now) names.old.items ++ flat_map unfound_of
        (flat_map (λ s. map (λ cell. cell.1) s.cells) (map core_seen sheets.now))) }
{
    for sheet in sheets {
        push_unfound_among(names, sheet.cells.as_slice())?;
    }
    Ok(())
}

/// Those of these formulas.
fn push_unfound_among<'b>(
    names: &mut Names<'b>,
    cells: &'b [PlacedFormula<'b>],
) -> Result<(), OutOfMemory>
    ensures { OnOk result (map (λ name. name.now) names.new.items
        ≡ map (λ name. name.now) names.old.items
        ++ flat_map unfound_of (map (λ cell. cell.1) (map placed cells.now))) }
{
    for cell in cells {
        push_unfound_of(names, cell.formula)?;
    }
    Ok(())
}

/// Those of the bodies of definitions, of which there are so many.
fn push_unfound_by<'b>(
    names: &mut Names<'b>,
    model: &'b Model<'_>,
    count: usize,
) -> Result<(), OutOfMemory>
    requires { length model.now.book.definitions ≤ count }
    ensures { OnOk result (map (λ name. name.now) names.new.items
        ≡ map (λ name. name.now) names.old.items
        ++ flat_map unfound_of (map (λ d. d.body) model.now.book.definitions)) }
{
    for index in 0..count {
        push_body(names, model, index)?;
    }
    Ok(())
}

/// Those of the body of the definition at an index, where there is one.
fn push_body<'b>(
    names: &mut Names<'b>,
    model: &'b Model<'_>,
    index: usize,
) -> Result<(), OutOfMemory>
    ensures { OnOk result (map (λ name. name.now) names.new.items
        ≡ map (λ name. name.now) names.old.items ++ flat_map unfound_of
        (option_to_list (option_map (λ d. d.body) (slice_get model.now.book.definitions index)))) }
{
    match model.parsed_definition(index) {
        Some(body) => push_unfound_of(names, body),
        None => Ok(()),
    }
}
