ghost use Rattle.std.specs.Prelude.{◌≡◌, ◌+◌, ◌≤◌, chars, string_bytes, string_capacity, string_len};
ghost use Rattle.ic_machine.specs.Command.{OnSheets};
ghost use Rattle.ic_words.specs.Reply.{reply_room};
ghost use Rattle.ic_words.specs.Subject.{subject_of};
ghost use Rattle.ic_words.specs.Words.{words_left};
ghost use Rattle.ic_words.specs.declared.command.subject.Subject.TheVariants as subjects;
ghost use Rattle.ic_words.specs.subjects.Sheets.{sheets_meant};
ghost use Rattle.ic_commands.specs.Answered.{Answers, RepliesTo};

use crate::told::{bad_line, emptied, told, told_named};
use ic_book::Model;
use ic_laws::OutOfMemory;
use ic_words::{Sheets, sheets_in};
use std::alloc::Global;

/// Replies to the command on the list of sheets of this name, by the words that are left, in the memory of a text that
/// is needed no more: as to a line that is no command, where there is none of the name or the words don't fit it.
pub(crate) fn reply_sheets(
    alloc: Global,
    model: &mut Model<'_>,
    name: &str,
    rest: Option<&str>,
    last: String,
) -> Result<String, OutOfMemory>
    requires { subject_of name.now ≡ subjects.Sheets }
    ensures { RepliesTo (chars name.now) (words_left rest.entry) model.old model.new result }
{
    let command = sheets_in(alloc, name, rest)?;
    let reply = emptied(last)?;
    match command {
        Some(command) => answer_sheets(model, command, reply),
        None => Ok(bad_line(reply)),
    }
}

/// Does a command on the list of sheets, and puts its reply behind a text that has room for one without a field.
#[tactic(auto, using(crate::proofs::AnswerLemmas::only_read))]
fn answer_sheets(
    model: &mut Model<'_>,
    command: Sheets<'_>,
    reply: String,
) -> Result<String, OutOfMemory>
    requires { string_len reply + reply_room ≤ string_capacity reply }
    ensures { Answers (OnSheets (sheets_meant command.entry)) model.old model.new
        (string_bytes reply) result }
{
    match command {
        Sheets::AddSheet { name } => told(model.add_sheet(name.as_str()), reply),
        Sheets::InsertSheet { name, index, id } => told(
            model.insert_sheet(name.as_str(), index, id),
            reply,
        ),
        Sheets::NewSheet => told_named(model.new_sheet(), reply),
        Sheets::DuplicateSheet { sheet } => told_named(model.duplicate_sheet(sheet), reply),
        Sheets::RenameSheet { old, new } => told(
            model.rename_sheet(old.as_str(), new.as_str()),
            reply,
        ),
        Sheets::RenameSheetByIndex { sheet, name } => told(
            model.rename_sheet_by_index(sheet, name.as_str()),
            reply,
        ),
        Sheets::MoveSheet { sheet, to } => told(model.move_sheet(sheet, to), reply),
        Sheets::DeleteSheet { sheet } => told(model.delete_sheet(sheet), reply),
        Sheets::DeleteSheetByName { name } => told(
            model.delete_sheet_by_name(name.as_str()),
            reply,
        ),
        Sheets::DeleteSheetBySheetId { id } => told(model.delete_sheet_by_sheet_id(id), reply),
        Sheets::GetNewSheetId => told(Ok(model.get_new_sheet_id()), reply),
        Sheets::GetWorksheetsProperties => told(model.get_worksheets_properties(), reply),
    }
}
