ghost use Rattle.std.specs.Prelude.{◌≡◌, ◌≢◌, ◌⊎◌, [], IfOk, OnErr, chars, option_map, true};
ghost use Rattle.ic_laws.specs.Lines.{words_of};
ghost use Rattle.ic_tables.specs.Words.{error_words};
ghost use Rattle.ic_machine.specs.Command.{command_in, commands};
ghost use Rattle.ic_machine.specs.Row.{joined, named};
ghost use Rattle.ic_words.specs.Command.{command_meant};
ghost use Rattle.ic_words.specs.Subject.{subject_of};
ghost use Rattle.ic_words.specs.Words.{CopyValues, HaveEscape, copies_values, words_left};
ghost use Rattle.ic_words.specs.declared.command.subject.Subject.TheVariants as subjects;

pub mod arrays;
pub mod definitions;
pub mod extending;
pub mod layout;
pub mod notation;
pub mod reading;
pub mod sheets;
pub mod styles;
pub mod subject;
pub mod tabs;
pub mod writing;

use crate::words::first_word;
use arrays::Arrays;
use definitions::Definitions;
use extending::Extending;
use ic_laws::OutOfMemory;
use ic_tables::Language;
use layout::Layout;
use notation::Notation;
use reading::Reading;
use sheets::Sheets;
use std::alloc::Global;
use styles::Styles;
use subject::{
    Subject, in_arrays, in_definitions, in_extending, in_layout, in_notation, in_reading,
    in_sheets, in_styles, in_tabs, in_writing, subject_of,
};
use tabs::Tabs;
use writing::Writing;

/// A command, by its subject. Sheets are told by their index from 0 in the order of the book, or by name or id; rows and
/// columns count from 1. The scope of a definition is the index of a sheet, or None where it is the whole book.
#[derive(Drop)]
pub enum Command<'l> {
    Sheets(Sheets<'l>),
    Definitions(Definitions<'l>),
    Notation(Notation<'l>),
    Writing(Writing<'l>),
    Reading(Reading<'l>),
    Extending(Extending<'l>),
    Styles(Styles<'l>),
    Layout(Layout),
    Tabs(Tabs<'l>),
    Arrays(Arrays<'l>),
}

/// The command of a name and the words after it. None where there is none of the name, or the words don't fit it.
pub type Made<C> = Result<Option<C>, OutOfMemory>;

/// The command that a line is, where this is the language `en`; None where it is none: another name, fewer or
/// more words, a number that isn't one of its type, a value that is none, or a wrong escape. Memory is asked for only for a
/// text with an escape, and for values.
pub fn command_in<'l>(
    alloc: Global,
    english: &Language,
    line: &'l str,
) -> Result<Option<Command<'l>>, OutOfMemory>
    ensures exact { IfOk result (λ command. option_map command_meant command
        ≡ command_in (error_words english.now) commands (chars line.now)) }
    ensures memory { OnErr result
        (HaveEscape (words_of (chars line.now)) ⊎ CopyValues (words_of (chars line.now))) }
{
    let (name, rest) = first_word(line);
    command_named(alloc, english, name, rest)
}

/// The command of this name, with the words that are left.
fn command_named<'l>(
    alloc: Global,
    english: &Language,
    name: &str,
    rest: Option<&'l str>,
) -> Result<Option<Command<'l>>, OutOfMemory>
    ensures exact { IfOk result
        (λ command. option_map command_meant command ≡ joined
        (named (error_words english.now) commands (chars name.now) (words_left rest.entry))) }
    ensures memory { OnErr result
        (HaveEscape (words_left rest.entry) ⊎ (copies_values (chars name.now) ≡ true)) }
{
    match subject_of(name) {
        Subject::Arrays => in_arrays(alloc, english, name, rest),
        told => plain_command(alloc, told, name, rest),
    }
}

/// The command of this name, where the one subject that may have it is told and takes no values for words.
fn plain_command<'l>(
    alloc: Global,
    told: Subject,
    name: &str,
    rest: Option<&'l str>,
) -> Made<Command<'l>>
    requires told { subject_of name.now ≡ told }
    requires plain { told ≢ subjects.Arrays }
    ensures exact { IfOk result
        (λ command. option_map command_meant command
        ≡ joined (named [] commands name.now (words_left rest.entry))) }
    ensures memory { OnErr result (HaveEscape (words_left rest.entry)) }
{
    match told {
        Subject::Sheets => in_sheets(alloc, name, rest),
        Subject::Definitions => in_definitions(alloc, name, rest),
        Subject::Notation => in_notation(alloc, name, rest),
        Subject::Writing => in_writing(alloc, name, rest),
        Subject::Reading => in_reading(alloc, name, rest),
        Subject::Extending => in_extending(alloc, name, rest),
        Subject::Styles => in_styles(alloc, name, rest),
        Subject::Layout => in_layout(alloc, name, rest),
        Subject::Tabs => in_tabs(alloc, name, rest),
        Subject::Arrays => unreachable!(),
    }
}
