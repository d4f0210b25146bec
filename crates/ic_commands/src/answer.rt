ghost use Rattle.std.specs.Prelude.{◌≡◌, IfOk, OnErr, OnOk, chars, false, string_bytes};
ghost use Rattle.ic_machine.specs.Command.{commands};
ghost use Rattle.ic_machine.specs.Reply.{reply_text};
ghost use Rattle.ic_tables.specs.Words.{error_words};
ghost use Rattle.ic_machine.specs.Step.{english_errors, line_step};
ghost use Rattle.ic_lines.specs.Reading.{has_line_feed};
ghost use Rattle.ic_words.specs.Words.{words_left};
ghost use Rattle.ic_parts.specs.Whole.{whole_of};
ghost use Rattle.ic_commands.specs.Answered.{DoesLine, LeavesLine, RepliesTo};

mod arrays;
mod definitions;
mod extending;
mod layout;
mod notation;
mod reading;
mod sheets;
mod styles;
mod tabs;
mod writing;

use arrays::reply_arrays;
use definitions::reply_definitions;
use extending::reply_extending;
use ic_book::Model;
use ic_laws::{OutOfMemory, Text};
use ic_lines::Line;
use ic_tables::Language;
use ic_words::{Subject, first_word, subject_of};
use layout::reply_layout;
use notation::reply_notation;
use reading::reply_reading;
use sheets::reply_sheets;
use std::alloc::Global;
use styles::reply_styles;
use tabs::reply_tabs;
use writing::reply_writing;

/// One step of the machine: what a line does to the book, and its reply with the line feed at its end. A line that is no
/// command, is refused or only asks leaves all that a model is, the formulas that sheets keep and their look-ups too; one
/// on the locale or the language leaves the look-ups. For the others the whole book is as the command leaves it. Where
/// memory runs out the book is as it was.
pub fn reply_to(alloc: Global, model: &mut Model<'_>, line: &Line) -> Result<String, OutOfMemory>
    ensures whole { IfOk result
        (λ reply. DoesLine line.now model.old model.new (string_bytes reply)) }
    ensures err { OnErr result (model.new.book ≡ model.old.book) }
{
    reply_in(alloc, model, line, String::new(alloc))
}

/// One step of the machine, as `reply_to`, with the reply in the memory of a text that is needed no more: it takes none where
/// that has room for one without a field.
pub fn reply_in(
    alloc: Global,
    model: &mut Model<'_>,
    line: &Line,
    last: String,
) -> Result<String, OutOfMemory>
    ensures whole { IfOk result
        (λ reply. DoesLine line.now model.old model.new (string_bytes reply)) }
    ensures err { OnErr result (model.new.book ≡ model.old.book) }
{
    reply_to_text(alloc, model, line.text().as_str(), last)
}

/// One step of the machine, as `reply_in`, for a line by its characters. One with a line feed in it is answered as any other.
pub fn reply_to_text(
    alloc: Global,
    model: &mut Model<'_>,
    line: &str,
    last: String,
) -> Result<String, OutOfMemory>
    ensures whole { IfOk result
        (λ reply. DoesLine (chars line.now) model.old model.new (string_bytes reply)) }
    ensures err { OnErr result (model.new.book ≡ model.old.book) }
{
    let (name, rest) = first_word(line);
    reply_to_words(alloc, model, name, rest, last)
}

/// One step of the machine for a name and the words that are left: by the one subject that may have the name.
fn reply_to_words(
    alloc: Global,
    model: &mut Model<'_>,
    name: &str,
    rest: Option<&str>,
    last: String,
) -> Result<String, OutOfMemory>
    ensures { RepliesTo (chars name.now) (words_left rest.entry) model.old model.new result }
{
    match subject_of(name) {
        Subject::Sheets => reply_sheets(alloc, model, name, rest, last),
        Subject::Definitions => reply_definitions(alloc, model, name, rest, last),
        Subject::Notation => reply_notation(alloc, model, name, rest, last),
        Subject::Writing => reply_writing(alloc, model, name, rest, last),
        Subject::Reading => reply_reading(alloc, model, name, rest, last),
        Subject::Extending => reply_extending(alloc, model, name, rest, last),
        Subject::Styles => reply_styles(alloc, model, name, rest, last),
        Subject::Layout => reply_layout(alloc, model, name, rest, last),
        Subject::Tabs => reply_tabs(alloc, model, name, rest, last),
        Subject::Arrays => reply_arrays(alloc, model, name, rest, last),
    }
}

/// One step of the machine, as `reply_to`, with the reply as a line: without the line feed at its end.
pub fn answer_line(alloc: Global, model: &mut Model<'_>, line: &Line) -> Result<Line, OutOfMemory>
    ensures told { IfOk result
        (λ reply. reply ≡ reply_text (line_step commands (whole_of model.old.book) line.now).1) }
    ensures whole { OnOk result (LeavesLine line.now model.old model.new) }
    ensures err { OnErr result (model.new.book ≡ model.old.book) }
{
    let mut reply = reply_to(alloc, model, line)?;
    reply.pop();
    Ok(whole(reply))
}

/// The language `en` of the book's tables, by whose words error values are said.
pub fn english_of<'a>(model: &Model<'a>) -> &'a Language
    ensures { error_words result.now ≡ english_errors (whole_of model.now.book) }
{
    model.tables().get_default_language()
}

/// The text as a line, which it is.
fn whole(text: String) -> Line
    requires { has_line_feed (chars (string_bytes text)) ≡ false }
    ensures { result ≡ chars (string_bytes text) }
{
    match Line::new(Text::from(text)) {
        Some(line) => line,
        None => unreachable!(),
    }
}
