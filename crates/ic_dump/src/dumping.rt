//! A book as command lines.
ghost use Rattle.std.specs.Prelude.{◌≡◌, IfOk, None, OnOk, map};
ghost use Rattle.ic_parts.specs.Book.{core_of, notations_in};
ghost use Rattle.ic_workbooks.specs.Workbook.{defined_name_of};
ghost use Rattle.ic_dump.specs.English.{IsEnglish};
ghost use Rattle.ic_dump.specs.Lines.{dump_lines};
ghost use Rattle.ic_dump.specs.Rebuilds.{Rebuilds};
ghost use Rattle.ic_dump.specs.Records.{core_seen};
ghost use Rattle.ic_dump.specs.Refused.{Tells, cause_of, raw_body};
ghost use Rattle.ic_dump.specs.Stages.{HasFewNames};

use crate::DumpError;
use crate::english::english_of;
use crate::formulas::push_cells;
use crate::refused::{raw_body, rereading};
use crate::sheets::{SheetSeen, sheets_seen};
use crate::stages::{push_bodies, push_defining, push_deleting, push_inserting, push_naming};
use crate::standing::standing_sheets;
use ic_book::{Model, Notation};
use ic_cells::DefinedName;
use ic_laws::OutOfMemory;
use ic_lines::Line;
use std::alloc::Global;

/// The lines that rebuild the sheets of a book with their ids, its definitions and the formulas of its cells, from a new book in
/// en, en and UTC: each is accepted in its turn, and the book after them has the same sheets, definitions and formulas. They are in
/// English, whatever notation is in force. Values, styles and layout aren't told.
///
/// `RawBody` exactly where the body of a definition is a text that doesn't read, then `Rereads` where that of a cell is, but
/// reads in English, alone or with a `)`, or has nothing in it; each names the first. No tree is refused. `OutOfMemory` may come
/// in place of any of these.
pub fn dump(alloc: Global, model: &Model<'_>) -> Result<Vec<Line>, DumpError>
    ensures lines { IfOk result (λ lines. lines.items
        ≡ dump_lines (notations_in model.now.book) (core_of model.now.book)) }
    ensures refused { Tells result
        (cause_of (notations_in model.now.book) (core_of model.now.book)) }
    ensures rebuilds { IfOk result (λ lines.
        Rebuilds model.now.book.tables lines.items (core_of model.now.book)) }
{
    let english = english_of(model);
    let names = model.sheet_names()?;
    let definitions = model.defined_names()?;
    let definitions = definitions.as_slice();
    let sheets = sheets_seen(alloc, model, names.as_slice())?;
    let sheets = sheets.as_slice();
    refuse(alloc, model, &english, sheets, definitions)?;
    let lines = lines_of(alloc, model, &english, sheets, definitions)?;
    Ok(lines)
}

/// Refuses a book that has no lines.
fn refuse(
    alloc: Global,
    model: &Model<'_>,
    english: &Notation<'_>,
    sheets: &[SheetSeen<'_>],
    definitions: &[DefinedName],
) -> Result<(), DumpError>
    requires english { IsEnglish model.now.book english.now }
    requires sheets { map core_seen sheets.now ≡ (core_of model.now.book).sheets }
    requires definitions { definitions.now
        ≡ map (defined_name_of model.now.book) model.now.book.definitions }
    ensures { Tells result (cause_of (notations_in model.now.book) (core_of model.now.book)) }
{
    match raw_body(alloc, model, definitions)? {
        None => refuse_cells(alloc, model, english, sheets),
        Some(key) => Err(DumpError::RawBody(key)),
    }
}

/// The same where no body is a text that doesn't read.
fn refuse_cells(
    alloc: Global,
    model: &Model<'_>,
    english: &Notation<'_>,
    sheets: &[SheetSeen<'_>],
) -> Result<(), DumpError>
    requires english { IsEnglish model.now.book english.now }
    requires sheets { map core_seen sheets.now ≡ (core_of model.now.book).sheets }
    requires none { raw_body (core_of model.now.book) ≡ None }
    ensures { Tells result (cause_of (notations_in model.now.book) (core_of model.now.book)) }
{
    match rereading(alloc, model, english, sheets)? {
        None => Ok(()),
        Some(site) => Err(DumpError::Rereads(site)),
    }
}

/// The lines of a book that isn't refused.
fn lines_of(
    alloc: Global,
    model: &Model<'_>,
    english: &Notation<'_>,
    sheets: &[SheetSeen<'_>],
    definitions: &[DefinedName],
) -> Result<Vec<Line>, OutOfMemory>
    requires english { IsEnglish model.now.book english.now }
    requires sheets { map core_seen sheets.now ≡ (core_of model.now.book).sheets }
    requires definitions { definitions.now
        ≡ map (defined_name_of model.now.book) model.now.book.definitions }
    requires none { cause_of (notations_in model.now.book) (core_of model.now.book) ≡ None }
    ensures lines { IfOk result (λ lines. lines.items
        ≡ dump_lines (notations_in model.now.book) (core_of model.now.book)) }

    // What the law on these lines asks of the names.
    ensures few { OnOk result (HasFewNames (core_of model.now.book)) }
{
    let standing = standing_sheets(alloc, model, sheets, definitions)?;
    let all = standing.sheets.as_slice();
    let mut lines = Vec::new(alloc);
    push_naming(alloc, &mut lines, all)?;
    push_inserting(alloc, &mut lines, all)?;
    push_defining(alloc, &mut lines, &standing, definitions)?;
    push_bodies(alloc, &mut lines, &standing, definitions)?;
    push_deleting(alloc, &mut lines, sheets.len(), all.len())?;
    push_cells(alloc, &mut lines, model, english, sheets)?;
    Ok(lines)
}
