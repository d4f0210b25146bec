//! What a call did, told by a reply.
ghost use Rattle.std.specs.Prelude.{◌≡◌, ◌+◌, ◌++◌, ◌≤◌, [], Err, IfOk, OnErr, Some, chars, false, string_bytes, string_capacity, string_len, true};
ghost use Rattle.ic_laws.specs.Name.{is_sheet_name};
ghost use Rattle.ic_machine.specs.Fields.{named_sheet_fields};
ghost use Rattle.ic_machine.specs.Refusal.{BadLine, Refusal};
ghost use Rattle.ic_machine.specs.Reply.{reply_bytes};
ghost use Rattle.ic_words.specs.Reply.{reply_room};
ghost use Rattle.ic_parts.specs.Refused.{refusal_of};
ghost use Rattle.ic_parts.specs.declared.error.BookError.TheVariants as errors;
ghost use Rattle.ic_commands.specs.Answered.{Tells};

use ic_book::BookError;
use ic_laws::OutOfMemory;
use ic_words::{Fields, REPLY_ROOM, error_reply, named_reply, ok_reply};

/// The text with nothing in it, and with room for a reply.
pub(crate) fn emptied(mut text: String) -> Result<String, OutOfMemory>
    ensures bytes { IfOk result (λ reply. string_bytes reply ≡ []) }
    ensures room { IfOk result (λ reply. string_len reply + reply_room ≤ string_capacity reply) }
{
    text.clear();
    text.reserve(REPLY_ROOM)?;
    Ok(text)
}

/// Puts what a line that is no command is replied with behind a text.
pub(crate) fn bad_line(reply: String) -> String
    requires { string_len reply + reply_room ≤ string_capacity reply }
    ensures { string_bytes result ≡ string_bytes reply ++ reply_bytes (Err BadLine) }
{
    error_reply(reply, BookError::BadLine.name())
}

/// Puts what a call did behind a text as a reply. There is none where memory ran out.
pub(crate) fn told<T: Fields>(
    done: Result<T, BookError>,
    reply: String,
) -> Result<String, OutOfMemory>
    requires { string_len reply + reply_room ≤ string_capacity reply }
    ensures { Tells T.fields T.memory done (string_bytes reply) result }
{
    match done {
        Ok(value) => ok_reply(reply, &value),
        Err(e) => refused(&e, reply),
    }
}

/// Puts what a call did that made a sheet and answers its name and its index behind a text as a reply. There is none only
/// where memory ran out in the call: the reply of a name fits into the room.
pub(crate) fn told_named(
    done: Result<(String, u32), BookError>,
    reply: String,
) -> Result<String, OutOfMemory>
    requires room { string_len reply + reply_room ≤ string_capacity reply }
    requires named { IfOk done
        (λ named. is_sheet_name (chars (string_bytes named.0)) ≡ true) }
    ensures { Tells named_sheet_fields false done (string_bytes reply) result }
{
    match done {
        Ok(named) => Ok(named_reply(reply, named.0.as_str(), named.1)),
        Err(e) => refused(&e, reply),
    }
}

/// Puts the refusal that an error tells behind a text. There is none where memory ran out.
fn refused(e: &BookError, reply: String) -> Result<String, OutOfMemory>
    requires { string_len reply + reply_room ≤ string_capacity reply }
    ensures ok { IfOk result (λ text. (refusal : Refusal) × (refusal_of e.now ≡ Some refusal)
        × (string_bytes text ≡ string_bytes reply ++ reply_bytes (Err refusal))) }
    ensures err { OnErr result (e.now ≡ errors.OutOfMemory) }
{
    match e {
        BookError::OutOfMemory => Err(OutOfMemory),
        _ => Ok(error_reply(reply, e.name())),
    }
}
