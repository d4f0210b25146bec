ghost use Rattle.std.specs.Prelude.{◌≡◌, ◌+◌, ◌≤◌, chars, string_bytes, string_capacity, string_len};
ghost use Rattle.ic_machine.specs.Command.{OnReading};
ghost use Rattle.ic_words.specs.Reply.{reply_room};
ghost use Rattle.ic_words.specs.Subject.{subject_of};
ghost use Rattle.ic_words.specs.Words.{words_left};
ghost use Rattle.ic_words.specs.declared.command.subject.Subject.TheVariants as subjects;
ghost use Rattle.ic_words.specs.subjects.Reading.{reading_meant};
ghost use Rattle.ic_commands.specs.Answered.{Answers, RepliesTo};

use crate::told::{bad_line, emptied, told};
use ic_book::Model;
use ic_laws::OutOfMemory;
use ic_words::{Reading, reading_in};
use std::alloc::Global;

/// Replies to the command that reads cells of this name, by the words that are left, in the memory of a text that is
/// needed no more: as to a line that is no command, where there is none of the name or the words don't fit it.
pub(crate) fn reply_reading(
    alloc: Global,
    model: &mut Model<'_>,
    name: &str,
    rest: Option<&str>,
    last: String,
) -> Result<String, OutOfMemory>
    requires { subject_of name.now ≡ subjects.Reading }
    ensures { RepliesTo (chars name.now) (words_left rest.entry) model.old model.new result }
{
    let command = reading_in(alloc, name, rest)?;
    let reply = emptied(last)?;
    match command {
        Some(command) => answer_reading(model, command, reply),
        None => Ok(bad_line(reply)),
    }
}

/// Does a command that reads cells, and puts its reply behind a text that has room for one without a field.
#[tactic(auto, using(crate::proofs::AnswerLemmas::only_read))]
fn answer_reading(
    model: &mut Model<'_>,
    command: Reading<'_>,
    reply: String,
) -> Result<String, OutOfMemory>
    requires { string_len reply + reply_room ≤ string_capacity reply }
    ensures { Answers (OnReading (reading_meant command.entry)) model.old model.new
        (string_bytes reply) result }
{
    match command {
        Reading::GetCellFormula { sheet, row, column } => told(
            model.get_cell_formula(sheet, row, column),
            reply,
        ),
        Reading::GetLocalizedCellContent { sheet, row, column } => told(
            model.get_localized_cell_content(sheet, row, column),
            reply,
        ),
        Reading::GetFormattedCellValue { sheet, row, column } => told(
            model.get_formatted_cell_value(sheet, row, column),
            reply,
        ),
        Reading::GetCellValueByIndex { sheet, row, column } => told(
            model.get_cell_value_by_index(sheet, row, column),
            reply,
        ),
        Reading::GetCellValueByRef { text } => told(
            model.get_cell_value_by_ref(text.as_str()),
            reply,
        ),
        Reading::GetCellType { sheet, row, column } => told(
            model.get_cell_type(sheet, row, column),
            reply,
        ),
        Reading::IsEmptyCell { sheet, row, column } => told(
            model.is_empty_cell(sheet, row, column),
            reply,
        ),
        Reading::GetAllCells => told(model.get_all_cells(), reply),
        Reading::GetSheetMarkup { sheet } => told(model.sheet_markup(sheet), reply),
    }
}
