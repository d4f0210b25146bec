ghost use Rattle.std.specs.Prelude.{◌≡◌, ◌+◌, ◌≤◌, chars, string_bytes, string_capacity, string_len};
ghost use Rattle.ic_machine.specs.Command.{OnArrays};
ghost use Rattle.ic_words.specs.Reply.{reply_room};
ghost use Rattle.ic_words.specs.Subject.{subject_of};
ghost use Rattle.ic_words.specs.Words.{words_left};
ghost use Rattle.ic_words.specs.declared.command.subject.Subject.TheVariants as subjects;
ghost use Rattle.ic_words.specs.subjects.Arrays.{arrays_meant};
ghost use Rattle.ic_commands.specs.Answered.{Answers, RepliesTo};

use crate::answer::english_of;
use crate::told::{bad_line, emptied, told};
use ic_book::Model;
use ic_laws::OutOfMemory;
use ic_words::{Arrays, arrays_in};
use std::alloc::Global;

/// Replies to the command on arrays, spills and clearing of this name, by the words that are left, in the memory of a
/// text that is needed no more: as to a line that is no command, where there is none of the name or the words don't fit
/// it.
pub(crate) fn reply_arrays(
    alloc: Global,
    model: &mut Model<'_>,
    name: &str,
    rest: Option<&str>,
    last: String,
) -> Result<String, OutOfMemory>
    requires { subject_of name.now ≡ subjects.Arrays }
    ensures { RepliesTo (chars name.now) (words_left rest.entry) model.old model.new result }
{
    let command = arrays_in(alloc, english_of(model), name, rest)?;
    let reply = emptied(last)?;
    match command {
        Some(command) => answer_arrays(model, command, reply),
        None => Ok(bad_line(reply)),
    }
}

/// Does a command on arrays, spills and clearing, and puts its reply behind a text that has room for one without a field.
fn answer_arrays(
    model: &mut Model<'_>,
    command: Arrays<'_>,
    reply: String,
) -> Result<String, OutOfMemory>
    requires { string_len reply + reply_room ≤ string_capacity reply }
    ensures { Answers (OnArrays (arrays_meant command.entry)) model.old model.new
        (string_bytes reply) result }
{
    match command {
        Arrays::SetUserArrayFormula {
            sheet,
            row,
            column,
            width,
            height,
            text,
        } => told(
            model.set_user_array_formula(sheet, row, column, width, height, text.as_str()),
            reply,
        ),
        Arrays::RangeClearContents { range } => told(model.range_clear_contents(&range), reply),
        Arrays::RangeClearAll { area } => told(model.range_clear_all(&area), reply),
        Arrays::PutFormulaValue {
            sheet,
            row,
            column,
            value,
        } => told(model.put_formula_value(sheet, row, column, value), reply),
        Arrays::PutSpill {
            sheet,
            row,
            column,
            width,
            height,
            values,
        } => told(
            model.put_spill(sheet, row, column, width, height, values),
            reply,
        ),
    }
}
