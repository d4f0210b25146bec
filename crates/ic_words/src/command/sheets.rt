ghost use Rattle.std.specs.Prelude.{◌≡◌, [], IfOk, OnErr, option_map};
ghost use Rattle.ic_machine.specs.Row.{joined, named};
ghost use Rattle.ic_machine.specs.subjects.Sheets.{sheet_rows};
ghost use Rattle.ic_words.specs.Words.{HaveEscape, words_left};
ghost use Rattle.ic_words.specs.subjects.Sheets.{sheets_meant};

use crate::command::Made;
use crate::text::WordText;
use crate::words::Words;
use std::alloc::Global;

/// A command on the list of sheets. An id is None where the sheet gets a fresh one.
#[derive(Drop)]
pub enum Sheets<'l> {
    AddSheet {
        name: WordText<'l>,
    },
    InsertSheet {
        name: WordText<'l>,
        index: u32,
        id: Option<u32>,
    },
    NewSheet,
    DuplicateSheet {
        sheet: u32,
    },
    RenameSheet {
        old: WordText<'l>,
        new: WordText<'l>,
    },
    RenameSheetByIndex {
        sheet: u32,
        name: WordText<'l>,
    },
    MoveSheet {
        sheet: u32,
        to: u32,
    },
    DeleteSheet {
        sheet: u32,
    },
    DeleteSheetByName {
        name: WordText<'l>,
    },
    DeleteSheetBySheetId {
        id: u32,
    },
    GetNewSheetId,
    GetWorksheetsProperties,
}

/// The command on the list of sheets of this name, by the words that are left. Memory is asked for only for a text with
/// an escape.
pub fn sheets_in<'l>(alloc: Global, name: &str, rest: Option<&'l str>) -> Made<Sheets<'l>>
    ensures exact { IfOk result (λ made. option_map sheets_meant made
        ≡ joined (named [] sheet_rows name.now (words_left rest.entry))) }
    ensures memory { OnErr result (HaveEscape (words_left rest.entry)) }
{
    match name {
        "add_sheet" => match Words::of(alloc, rest)? {
            Some((name, ())) => Ok(Some(Sheets::AddSheet { name })),
            None => Ok(None),
        },
        "insert_sheet" => match Words::of(alloc, rest)? {
            Some((name, (index, (id, ())))) => Ok(Some(Sheets::InsertSheet { name, index, id })),
            None => Ok(None),
        },
        "new_sheet" => match Words::of(alloc, rest)? {
            Some(()) => Ok(Some(Sheets::NewSheet)),
            None => Ok(None),
        },
        "duplicate_sheet" => match Words::of(alloc, rest)? {
            Some((sheet, ())) => Ok(Some(Sheets::DuplicateSheet { sheet })),
            None => Ok(None),
        },
        "rename_sheet" => match Words::of(alloc, rest)? {
            Some((old, (new, ()))) => Ok(Some(Sheets::RenameSheet { old, new })),
            None => Ok(None),
        },
        "rename_sheet_by_index" => match Words::of(alloc, rest)? {
            Some((sheet, (name, ()))) => Ok(Some(Sheets::RenameSheetByIndex { sheet, name })),
            None => Ok(None),
        },
        "move_sheet" => match Words::of(alloc, rest)? {
            Some((sheet, (to, ()))) => Ok(Some(Sheets::MoveSheet { sheet, to })),
            None => Ok(None),
        },
        "delete_sheet" => match Words::of(alloc, rest)? {
            Some((sheet, ())) => Ok(Some(Sheets::DeleteSheet { sheet })),
            None => Ok(None),
        },
        "delete_sheet_by_name" => match Words::of(alloc, rest)? {
            Some((name, ())) => Ok(Some(Sheets::DeleteSheetByName { name })),
            None => Ok(None),
        },
        "delete_sheet_by_sheet_id" => match Words::of(alloc, rest)? {
            Some((id, ())) => Ok(Some(Sheets::DeleteSheetBySheetId { id })),
            None => Ok(None),
        },
        "get_new_sheet_id" => match Words::of(alloc, rest)? {
            Some(()) => Ok(Some(Sheets::GetNewSheetId)),
            None => Ok(None),
        },
        "get_worksheets_properties" => match Words::of(alloc, rest)? {
            Some(()) => Ok(Some(Sheets::GetWorksheetsProperties)),
            None => Ok(None),
        },
        _ => Ok(None),
    }
}
