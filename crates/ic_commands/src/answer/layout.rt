ghost use Rattle.std.specs.Prelude.{◌≡◌, ◌+◌, ◌≤◌, chars, string_bytes, string_capacity, string_len};
ghost use Rattle.ic_machine.specs.Command.{OnLayout};
ghost use Rattle.ic_words.specs.Reply.{reply_room};
ghost use Rattle.ic_words.specs.Subject.{subject_of};
ghost use Rattle.ic_words.specs.Words.{words_left};
ghost use Rattle.ic_words.specs.declared.command.subject.Subject.TheVariants as subjects;
ghost use Rattle.ic_words.specs.subjects.Layout.{layout_meant};
ghost use Rattle.ic_commands.specs.Answered.{Answers, RepliesTo};

use crate::told::{bad_line, emptied, told};
use ic_book::Model;
use ic_laws::OutOfMemory;
use ic_words::{Layout, layout_in};
use std::alloc::Global;

/// Replies to the command on the layout of rows and columns of this name, by the words that are left, in the memory of
/// a text that is needed no more: as to a line that is no command, where there is none of the name or the words don't
/// fit it.
pub(crate) fn reply_layout(
    alloc: Global,
    model: &mut Model<'_>,
    name: &str,
    rest: Option<&str>,
    last: String,
) -> Result<String, OutOfMemory>
    requires { subject_of name.now ≡ subjects.Layout }
    ensures { RepliesTo (chars name.now) (words_left rest.entry) model.old model.new result }
{
    let command = layout_in(alloc, name, rest)?;
    let reply = emptied(last)?;
    match command {
        Some(command) => answer_layout(model, command, reply),
        None => Ok(bad_line(reply)),
    }
}

/// Does a command on the layout of rows and columns, and puts its reply behind a text that has room for one without a field.
#[tactic(auto, using(crate::proofs::AnswerLemmas::only_read))]
fn answer_layout(
    model: &mut Model<'_>,
    command: Layout,
    reply: String,
) -> Result<String, OutOfMemory>
    requires { string_len reply + reply_room ≤ string_capacity reply }
    ensures { Answers (OnLayout (layout_meant command)) model.old model.new (string_bytes reply)
        result }
{
    match command {
        Layout::SetColumnWidth {
            sheet,
            column,
            width,
        } => told(model.set_column_width(sheet, column, width), reply),
        Layout::SetRowHeight { sheet, row, height } => told(
            model.set_row_height(sheet, row, height),
            reply,
        ),
        Layout::GetColumnWidth { sheet, column } => told(
            model.get_column_width(sheet, column),
            reply,
        ),
        Layout::GetRowHeight { sheet, row } => told(model.get_row_height(sheet, row), reply),
        Layout::SetColumnHidden {
            sheet,
            column,
            hidden,
        } => told(model.set_column_hidden(sheet, column, hidden), reply),
        Layout::SetRowHidden { sheet, row, hidden } => told(
            model.set_row_hidden(sheet, row, hidden),
            reply,
        ),
        Layout::IsColumnHidden { sheet, column } => told(
            model.is_column_hidden(sheet, column),
            reply,
        ),
        Layout::IsRowHidden { sheet, row } => told(model.is_row_hidden(sheet, row), reply),
    }
}
