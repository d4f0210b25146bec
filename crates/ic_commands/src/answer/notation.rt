ghost use Rattle.std.specs.Prelude.{◌≡◌, ◌+◌, ◌≤◌, chars, string_bytes, string_capacity, string_len};
ghost use Rattle.ic_machine.specs.Command.{OnNotation};
ghost use Rattle.ic_words.specs.Reply.{reply_room};
ghost use Rattle.ic_words.specs.Subject.{subject_of};
ghost use Rattle.ic_words.specs.Words.{words_left};
ghost use Rattle.ic_words.specs.declared.command.subject.Subject.TheVariants as subjects;
ghost use Rattle.ic_words.specs.subjects.Notation.{notation_meant};
ghost use Rattle.ic_commands.specs.Answered.{Answers, RepliesTo};

use crate::told::{bad_line, emptied, told};
use ic_book::Model;
use ic_laws::OutOfMemory;
use ic_words::{Notation, notation_in};
use std::alloc::Global;

/// Replies to the command on the locale, the language and the time zone of this name, by the words that are left, in
/// the memory of a text that is needed no more: as to a line that is no command, where there is none of the name or the
/// words don't fit it.
pub(crate) fn reply_notation(
    alloc: Global,
    model: &mut Model<'_>,
    name: &str,
    rest: Option<&str>,
    last: String,
) -> Result<String, OutOfMemory>
    requires { subject_of name.now ≡ subjects.Notation }
    ensures { RepliesTo (chars name.now) (words_left rest.entry) model.old model.new result }
{
    let command = notation_in(alloc, name, rest)?;
    let reply = emptied(last)?;
    match command {
        Some(command) => answer_notation(model, command, reply),
        None => Ok(bad_line(reply)),
    }
}

/// Does a command on the locale, the language and the time zone, and puts its reply behind a text that has room for one
/// without a field.
#[tactic(auto, using(crate::proofs::AnswerLemmas::only_read))]
fn answer_notation(
    model: &mut Model<'_>,
    command: Notation<'_>,
    reply: String,
) -> Result<String, OutOfMemory>
    requires { string_len reply + reply_room ≤ string_capacity reply }
    ensures { Answers (OnNotation (notation_meant command.entry)) model.old model.new
        (string_bytes reply) result }
{
    match command {
        Notation::SetLocale { id } => told(model.set_locale(id.as_str()), reply),
        Notation::SetLanguage { id } => told(model.set_language(id.as_str()), reply),
        Notation::SetTimezone { id } => told(model.set_timezone(id.as_str()), reply),
        Notation::GetLocale => told(model.get_locale(), reply),
        Notation::GetLanguage => told(model.get_language(), reply),
        Notation::GetTimezone => told(model.get_timezone(), reply),
        Notation::GetFmtSettings => told(model.get_fmt_settings(), reply),
    }
}
