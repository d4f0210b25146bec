ghost use Rattle.std.specs.Prelude.{◌≡◌, ◌+◌, ◌≤◌, chars, string_bytes, string_capacity, string_len};
ghost use Rattle.ic_machine.specs.Command.{OnDefinitions};
ghost use Rattle.ic_words.specs.Reply.{reply_room};
ghost use Rattle.ic_words.specs.Subject.{subject_of};
ghost use Rattle.ic_words.specs.Words.{words_left};
ghost use Rattle.ic_words.specs.declared.command.subject.Subject.TheVariants as subjects;
ghost use Rattle.ic_words.specs.subjects.Definitions.{definitions_meant};
ghost use Rattle.ic_commands.specs.Answered.{Answers, RepliesTo};

use crate::told::{bad_line, emptied, told};
use ic_book::Model;
use ic_laws::OutOfMemory;
use ic_words::{Definitions, definitions_in};
use std::alloc::Global;

/// Replies to the command on definitions of this name, by the words that are left, in the memory of a text that is
/// needed no more: as to a line that is no command, where there is none of the name or the words don't fit it.
pub(crate) fn reply_definitions(
    alloc: Global,
    model: &mut Model<'_>,
    name: &str,
    rest: Option<&str>,
    last: String,
) -> Result<String, OutOfMemory>
    requires { subject_of name.now ≡ subjects.Definitions }
    ensures { RepliesTo (chars name.now) (words_left rest.entry) model.old model.new result }
{
    let command = definitions_in(alloc, name, rest)?;
    let reply = emptied(last)?;
    match command {
        Some(command) => answer_definitions(model, command, reply),
        None => Ok(bad_line(reply)),
    }
}

/// Does a command on definitions, and puts its reply behind a text that has room for one without a field.
#[tactic(auto, using(crate::proofs::AnswerLemmas::only_read))]
fn answer_definitions(
    model: &mut Model<'_>,
    command: Definitions<'_>,
    reply: String,
) -> Result<String, OutOfMemory>
    requires { string_len reply + reply_room ≤ string_capacity reply }
    ensures { Answers (OnDefinitions (definitions_meant command.entry)) model.old model.new
        (string_bytes reply) result }
{
    match command {
        Definitions::NewDefinedName { name, scope, body } => told(
            model.new_defined_name(name.as_str(), scope, body.as_str()),
            reply,
        ),
        Definitions::DeleteDefinedName { name, scope } => told(
            model.delete_defined_name(name.as_str(), scope),
            reply,
        ),
        Definitions::UpdateDefinedName { update } => told(
            model.update_defined_name(
                update.name.as_str(),
                update.scope,
                update.new_name.as_str(),
                update.new_scope,
                update.body.as_str(),
            ),
            reply,
        ),
        Definitions::WouldCapture { update } => told(
            model.would_capture(
                update.name.as_str(),
                update.scope,
                update.new_name.as_str(),
                update.new_scope,
                update.body.as_str(),
            ),
            reply,
        ),
        Definitions::IsValidDefinedName { name, scope, body } => told(
            model.is_valid_defined_name(name.as_str(), scope, body.as_str()),
            reply,
        ),
        Definitions::GetDefinedNameList => told(model.get_defined_name_list(), reply),
    }
}
