ghost use Rattle.std.specs.Prelude.{◌≡◌, ◌+◌, ◌≤◌, chars, string_bytes, string_capacity, string_len};
ghost use Rattle.ic_machine.specs.Command.{OnWriting};
ghost use Rattle.ic_words.specs.Reply.{reply_room};
ghost use Rattle.ic_words.specs.Subject.{subject_of};
ghost use Rattle.ic_words.specs.Words.{words_left};
ghost use Rattle.ic_words.specs.declared.command.subject.Subject.TheVariants as subjects;
ghost use Rattle.ic_words.specs.subjects.Writing.{writing_meant};
ghost use Rattle.ic_commands.specs.Answered.{Answers, RepliesTo};

use crate::told::{bad_line, emptied, told};
use ic_book::Model;
use ic_laws::OutOfMemory;
use ic_words::{Writing, writing_in};
use std::alloc::Global;

/// Replies to the command that writes a cell of this name, by the words that are left, in the memory of a text that is
/// needed no more: as to a line that is no command, where there is none of the name or the words don't fit it.
pub(crate) fn reply_writing(
    alloc: Global,
    model: &mut Model<'_>,
    name: &str,
    rest: Option<&str>,
    last: String,
) -> Result<String, OutOfMemory>
    requires { subject_of name.now ≡ subjects.Writing }
    ensures { RepliesTo (chars name.now) (words_left rest.entry) model.old model.new result }
{
    let command = writing_in(alloc, name, rest)?;
    let reply = emptied(last)?;
    match command {
        Some(command) => answer_writing(model, command, reply),
        None => Ok(bad_line(reply)),
    }
}

/// Does a command that writes a cell, and puts its reply behind a text that has room for one without a field.
#[tactic(auto, using(crate::proofs::AnswerLemmas::only_read))]
fn answer_writing(
    model: &mut Model<'_>,
    command: Writing<'_>,
    reply: String,
) -> Result<String, OutOfMemory>
    requires { string_len reply + reply_room ≤ string_capacity reply }
    ensures { Answers (OnWriting (writing_meant command.entry)) model.old model.new
        (string_bytes reply) result }
{
    match command {
        Writing::SetUserInput {
            sheet,
            row,
            column,
            text,
        } => told(model.type_text(sheet, row, column, text.as_str()), reply),
        Writing::UpdateCellWithText {
            sheet,
            row,
            column,
            text,
        } => told(
            model.update_cell_with_text(sheet, row, column, text.as_str()),
            reply,
        ),
        Writing::UpdateCellWithFormula {
            sheet,
            row,
            column,
            text,
        } => told(model.type_formula(sheet, row, column, text.as_str()), reply),
        Writing::UpdateCellWithBool {
            sheet,
            row,
            column,
            truth,
        } => told(
            model.update_cell_with_bool(sheet, row, column, truth),
            reply,
        ),
        Writing::UpdateCellWithNumber {
            sheet,
            row,
            column,
            amount,
        } => told(
            model.update_cell_with_number(sheet, row, column, amount),
            reply,
        ),
    }
}
