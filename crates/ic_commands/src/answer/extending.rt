ghost use Rattle.std.specs.Prelude.{◌≡◌, ◌+◌, ◌≤◌, chars, string_bytes, string_capacity, string_len};
ghost use Rattle.ic_machine.specs.Command.{OnExtending};
ghost use Rattle.ic_words.specs.Reply.{reply_room};
ghost use Rattle.ic_words.specs.Subject.{subject_of};
ghost use Rattle.ic_words.specs.Words.{words_left};
ghost use Rattle.ic_words.specs.declared.command.subject.Subject.TheVariants as subjects;
ghost use Rattle.ic_words.specs.subjects.Extending.{extending_meant};
ghost use Rattle.ic_commands.specs.Answered.{Answers, RepliesTo};

use crate::told::{bad_line, emptied, told};
use ic_book::Model;
use ic_laws::OutOfMemory;
use ic_words::{Extending, extending_in};
use std::alloc::Global;

/// Replies to the command that writes a formula out for another cell or reads the name of a cell of this name, by the
/// words that are left, in the memory of a text that is needed no more: as to a line that is no command, where there is
/// none of the name or the words don't fit it.
pub(crate) fn reply_extending(
    alloc: Global,
    model: &mut Model<'_>,
    name: &str,
    rest: Option<&str>,
    last: String,
) -> Result<String, OutOfMemory>
    requires { subject_of name.now ≡ subjects.Extending }
    ensures { RepliesTo (chars name.now) (words_left rest.entry) model.old model.new result }
{
    let command = extending_in(alloc, name, rest)?;
    let reply = emptied(last)?;
    match command {
        Some(command) => answer_extending(model, command, reply),
        None => Ok(bad_line(reply)),
    }
}

/// Does a command that writes a formula out for another cell or reads the name of a cell, and puts its reply behind a text
/// that has room for one without a field.
#[tactic(auto, using(crate::proofs::AnswerLemmas::only_read))]
fn answer_extending(
    model: &mut Model<'_>,
    command: Extending<'_>,
    reply: String,
) -> Result<String, OutOfMemory>
    requires { string_len reply + reply_room ≤ string_capacity reply }
    ensures { Answers (OnExtending (extending_meant command.entry)) model.old model.new
        (string_bytes reply) result }
{
    match command {
        Extending::ExtendTo {
            sheet,
            row,
            column,
            target_row,
            target_column,
        } => told(
            model.extend_to(sheet, row, column, target_row, target_column),
            reply,
        ),
        Extending::ExtendCopiedValue {
            text,
            source,
            target,
        } => told(
            model.extend_copied_value(text.as_str(), &source, &target),
            reply,
        ),
        Extending::ParseReference { text } => told(model.parse_reference(text.as_str()), reply),
    }
}
