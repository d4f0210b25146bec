ghost use Rattle.std.specs.Prelude.{◌≡◌, ◌+◌, ◌≤◌, chars, string_bytes, string_capacity, string_len};
ghost use Rattle.ic_machine.specs.Command.{OnTabs};
ghost use Rattle.ic_words.specs.Reply.{reply_room};
ghost use Rattle.ic_words.specs.Subject.{subject_of};
ghost use Rattle.ic_words.specs.Words.{words_left};
ghost use Rattle.ic_words.specs.declared.command.subject.Subject.TheVariants as subjects;
ghost use Rattle.ic_words.specs.subjects.Tabs.{tabs_meant};
ghost use Rattle.ic_commands.specs.Answered.{Answers, RepliesTo};

use crate::told::{bad_line, emptied, told};
use ic_book::Model;
use ic_cells::Theme;
use ic_laws::{OutOfMemory, Text};
use ic_words::{Tabs, color_of, tabs_in};
use std::alloc::Global;

/// Replies to the command on tabs or the theme of this name, by the words that are left, in the memory of a text that
/// is needed no more: as to a line that is no command, where there is none of the name or the words don't fit it.
pub(crate) fn reply_tabs(
    alloc: Global,
    model: &mut Model<'_>,
    name: &str,
    rest: Option<&str>,
    last: String,
) -> Result<String, OutOfMemory>
    requires { subject_of name.now ≡ subjects.Tabs }
    ensures { RepliesTo (chars name.now) (words_left rest.entry) model.old model.new result }
{
    let command = tabs_in(alloc, name, rest)?;
    let reply = emptied(last)?;
    match command {
        Some(command) => answer_tabs(alloc, model, command, reply),
        None => Ok(bad_line(reply)),
    }
}

/// Does a command on tabs or the theme, and puts its reply behind a text that has room for one without a field.
#[tactic(auto, using(crate::proofs::AnswerLemmas::only_read))]
fn answer_tabs(
    alloc: Global,
    model: &mut Model<'_>,
    command: Tabs<'_>,
    reply: String,
) -> Result<String, OutOfMemory>
    requires { string_len reply + reply_room ≤ string_capacity reply }
    ensures { Answers (OnTabs (tabs_meant command.entry)) model.old model.new (string_bytes reply)
        result }
{
    match command {
        Tabs::SetTheme { name } => {
            let name = Text::from(name.into_string(alloc)?);
            told(model.set_theme(Theme { name }), reply)
        }
        Tabs::GetTheme => told(model.get_theme(), reply),
        Tabs::SetFrozenRows { sheet, count } => told(model.set_frozen_rows(sheet, count), reply),
        Tabs::SetFrozenColumns { sheet, count } => told(
            model.set_frozen_columns(sheet, count),
            reply,
        ),
        Tabs::GetFrozenRowsCount { sheet } => told(model.get_frozen_rows_count(sheet), reply),
        Tabs::GetFrozenColumnsCount { sheet } => told(model.get_frozen_columns_count(sheet), reply),
        Tabs::SetSheetColor { sheet, color } => {
            let color = color_of(alloc, &color)?;
            told(model.set_sheet_color(sheet, &color), reply)
        }
        Tabs::SetSheetState { sheet, state } => told(model.set_sheet_state(sheet, state), reply),
        Tabs::SetShowGridLines { sheet, shows } => told(
            model.set_show_grid_lines(sheet, shows),
            reply,
        ),
    }
}
