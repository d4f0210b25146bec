ghost use Rattle.std.specs.Prelude.{◌≡◌, ◌+◌, ◌≤◌, chars, string_bytes, string_capacity, string_len};
ghost use Rattle.ic_machine.specs.Command.{OnStyles};
ghost use Rattle.ic_words.specs.Reply.{reply_room};
ghost use Rattle.ic_words.specs.Subject.{subject_of};
ghost use Rattle.ic_words.specs.Words.{words_left};
ghost use Rattle.ic_words.specs.declared.command.subject.Subject.TheVariants as subjects;
ghost use Rattle.ic_words.specs.subjects.Styles.{styles_meant};
ghost use Rattle.ic_commands.specs.Answered.{Answers, RepliesTo};

use crate::told::{bad_line, emptied, told};
use ic_book::Model;
use ic_laws::OutOfMemory;
use ic_words::{Styles, styles_in};
use std::alloc::Global;

/// Replies to the command on styles of this name, by the words that are left, in the memory of a text that is needed no
/// more: as to a line that is no command, where there is none of the name or the words don't fit it.
pub(crate) fn reply_styles(
    alloc: Global,
    model: &mut Model<'_>,
    name: &str,
    rest: Option<&str>,
    last: String,
) -> Result<String, OutOfMemory>
    requires { subject_of name.now ≡ subjects.Styles }
    ensures { RepliesTo (chars name.now) (words_left rest.entry) model.old model.new result }
{
    let command = styles_in(alloc, name, rest)?;
    let reply = emptied(last)?;
    match command {
        Some(command) => answer_styles(alloc, model, command, reply),
        None => Ok(bad_line(reply)),
    }
}

/// Does a command on styles, and puts its reply behind a text that has room for one without a field.
#[tactic(auto, using(crate::proofs::AnswerLemmas::only_read))]
fn answer_styles(
    alloc: Global,
    model: &mut Model<'_>,
    command: Styles<'_>,
    reply: String,
) -> Result<String, OutOfMemory>
    requires { string_len reply + reply_room ≤ string_capacity reply }
    ensures { Answers (OnStyles (styles_meant command.entry)) model.old model.new
        (string_bytes reply) result }
{
    match command {
        Styles::GetCellStyleIndex { sheet, row, column } => told(
            model.get_cell_style_index(sheet, row, column),
            reply,
        ),
        Styles::GetStyleForCell { sheet, row, column } => told(
            model.get_style_for_cell(sheet, row, column),
            reply,
        ),
        Styles::GetCellStyleOrNone { sheet, row, column } => told(
            model.get_cell_style_or_none(sheet, row, column),
            reply,
        ),
        Styles::SetColumnStyle {
            sheet,
            column,
            style,
        } => {
            let style = style.to_style(alloc)?;
            told(model.set_column_style(sheet, column, &style), reply)
        }
        Styles::SetRowStyle { sheet, row, style } => {
            let style = style.to_style(alloc)?;
            told(model.set_row_style(sheet, row, &style), reply)
        }
        Styles::GetColumnStyle { sheet, column } => told(
            model.get_column_style(sheet, column),
            reply,
        ),
        Styles::GetRowStyle { sheet, row } => told(model.get_row_style(sheet, row), reply),
        Styles::DeleteColumnStyle { sheet, column } => told(
            model.delete_column_style(sheet, column),
            reply,
        ),
        Styles::DeleteRowStyle { sheet, row } => told(model.delete_row_style(sheet, row), reply),
    }
}
