//! The one subject that may have a name.
ghost use Rattle.std.specs.Prelude.{◌≡◌, ◌⊎◌, [], IfOk, OnErr, chars, option_map, true};
ghost use Rattle.ic_tables.specs.Words.{error_words};
ghost use Rattle.ic_machine.specs.Command.{commands};
ghost use Rattle.ic_machine.specs.Row.{joined, named};
ghost use Rattle.ic_words.specs.Command.{command_meant};
ghost use Rattle.ic_words.specs.Subject.{subject_of};
ghost use Rattle.ic_words.specs.Words.{HaveEscape, copies_values, words_left};
ghost use Rattle.ic_words.specs.declared.command.subject.Subject.TheVariants as subjects;

use super::arrays::arrays_in;
use super::definitions::definitions_in;
use super::extending::extending_in;
use super::layout::layout_in;
use super::notation::notation_in;
use super::reading::reading_in;
use super::sheets::sheets_in;
use super::styles::styles_in;
use super::tabs::tabs_in;
use super::writing::writing_in;
use crate::command::{Command, Made};
use ic_tables::Language;
use std::alloc::Global;

/// What commands are about.
#[derive(Clone, Copy)]
pub enum Subject {
    Sheets,
    Definitions,
    Notation,
    Writing,
    Reading,
    Extending,
    Styles,
    Layout,
    Tabs,
    Arrays,
}

/// The one subject that may have a name: its length and one letter tell the subjects of all commands apart. Of a name that no
/// command has it tells any.
pub fn subject_of(name: &str) -> Subject
    ensures { result ≡ subject_of name.now }
{
    let bytes = name.as_bytes();
    match bytes.len() {
        9 => match bytes[7] {
            b'e' => Subject::Sheets,
            b'l' => Subject::Arrays,
            b't' => Subject::Extending,
            _ => Subject::Tabs,
        },
        10 => match bytes[0] {
            b'm' => Subject::Sheets,
            _ => Subject::Notation,
        },
        12 => match bytes[2] {
            b't' => Subject::Notation,
            _ => Subject::Sheets,
        },
        13 => match bytes[4] {
            b'd' => Subject::Definitions,
            b'o' => Subject::Layout,
            b'r' => Subject::Styles,
            _ => Subject::Reading,
        },
        14 => match bytes[4] {
            b'r' => Subject::Layout,
            _ => Subject::Writing,
        },
        15 => match bytes[0] {
            b'd' => Subject::Sheets,
            b'p' => Subject::Extending,
            b'r' => Subject::Arrays,
            _ => Subject::Tabs,
        },
        16 => match bytes[13] {
            b'_' => Subject::Sheets,
            b'a' => Subject::Definitions,
            b'd' => Subject::Layout,
            b'n' => Subject::Notation,
            b'y' => Subject::Styles,
            _ => Subject::Reading,
        },
        17 => match bytes[0] {
            b'p' => Subject::Arrays,
            _ => Subject::Layout,
        },
        18 => match bytes[0] {
            b'g' => Subject::Styles,
            _ => Subject::Tabs,
        },
        19 => match bytes[9] {
            b'f' => Subject::Definitions,
            b'l' => Subject::Styles,
            b'p' => Subject::Extending,
            _ => Subject::Tabs,
        },
        20 => match bytes[0] {
            b'd' => Subject::Sheets,
            b'g' => Subject::Styles,
            _ => Subject::Arrays,
        },
        21 => match bytes[4] {
            b'c' => Subject::Reading,
            b'f' => Subject::Tabs,
            b'm' => Subject::Sheets,
            b't' => Subject::Writing,
            _ => Subject::Definitions,
        },
        22 => match bytes[0] {
            b'g' => Subject::Styles,
            _ => Subject::Arrays,
        },
        23 => match bytes[0] {
            b'g' => Subject::Reading,
            _ => Subject::Writing,
        },
        24 => match bytes[7] {
            b'c' => Subject::Writing,
            b'm' => Subject::Reading,
            b's' => Subject::Sheets,
            _ => Subject::Tabs,
        },
        26 => Subject::Reading,
        _ => Subject::Sheets,
    }
}

/// The command of this name that writes a cell, where no other subject has the name.
pub(crate) fn in_writing<'l>(alloc: Global, name: &str, rest: Option<&'l str>) -> Made<Command<'l>>
    requires { subject_of name.now ≡ subjects.Writing }
    ensures exact { IfOk result
        (λ command. option_map command_meant command
        ≡ joined (named [] commands name.now (words_left rest.entry))) }
    ensures memory { OnErr result (HaveEscape (words_left rest.entry)) }
{
    match writing_in(alloc, name, rest)? {
        Some(command) => Ok(Some(Command::Writing(command))),
        None => Ok(None),
    }
}

/// The command of this name that reads cells, where no other subject has the name.
pub(crate) fn in_reading<'l>(alloc: Global, name: &str, rest: Option<&'l str>) -> Made<Command<'l>>
    requires { subject_of name.now ≡ subjects.Reading }
    ensures exact { IfOk result
        (λ command. option_map command_meant command
        ≡ joined (named [] commands name.now (words_left rest.entry))) }
    ensures memory { OnErr result (HaveEscape (words_left rest.entry)) }
{
    match reading_in(alloc, name, rest)? {
        Some(command) => Ok(Some(Command::Reading(command))),
        None => Ok(None),
    }
}

/// The command of this name on arrays, spills and clearing, where no other subject has the name.
pub(crate) fn in_arrays<'l>(
    alloc: Global,
    english: &Language,
    name: &str,
    rest: Option<&'l str>,
) -> Made<Command<'l>>
    requires { subject_of name.now ≡ subjects.Arrays }
    ensures exact { IfOk result
        (λ command. option_map command_meant command ≡ joined
        (named (error_words english.now) commands (chars name.now) (words_left rest.entry))) }
    ensures memory { OnErr result
        (HaveEscape (words_left rest.entry) ⊎ (copies_values name.now ≡ true)) }
{
    match arrays_in(alloc, english, name, rest)? {
        Some(command) => Ok(Some(Command::Arrays(command))),
        None => Ok(None),
    }
}

/// The command of this name on definitions, where no other subject has the name.
pub(crate) fn in_definitions<'l>(
    alloc: Global,
    name: &str,
    rest: Option<&'l str>,
) -> Made<Command<'l>>
    requires { subject_of name.now ≡ subjects.Definitions }
    ensures exact { IfOk result
        (λ command. option_map command_meant command
        ≡ joined (named [] commands name.now (words_left rest.entry))) }
    ensures memory { OnErr result (HaveEscape (words_left rest.entry)) }
{
    match definitions_in(alloc, name, rest)? {
        Some(command) => Ok(Some(Command::Definitions(command))),
        None => Ok(None),
    }
}

/// The command of this name that extends a cell, where no other subject has the name.
pub(crate) fn in_extending<'l>(
    alloc: Global,
    name: &str,
    rest: Option<&'l str>,
) -> Made<Command<'l>>
    requires { subject_of name.now ≡ subjects.Extending }
    ensures exact { IfOk result
        (λ command. option_map command_meant command
        ≡ joined (named [] commands name.now (words_left rest.entry))) }
    ensures memory { OnErr result (HaveEscape (words_left rest.entry)) }
{
    match extending_in(alloc, name, rest)? {
        Some(command) => Ok(Some(Command::Extending(command))),
        None => Ok(None),
    }
}

/// The command of this name on styles, where no other subject has the name.
pub(crate) fn in_styles<'l>(alloc: Global, name: &str, rest: Option<&'l str>) -> Made<Command<'l>>
    requires { subject_of name.now ≡ subjects.Styles }
    ensures exact { IfOk result
        (λ command. option_map command_meant command
        ≡ joined (named [] commands name.now (words_left rest.entry))) }
    ensures memory { OnErr result (HaveEscape (words_left rest.entry)) }
{
    match styles_in(alloc, name, rest)? {
        Some(command) => Ok(Some(Command::Styles(command))),
        None => Ok(None),
    }
}

/// The command of this name on rows and columns, where no other subject has the name.
pub(crate) fn in_layout<'l>(alloc: Global, name: &str, rest: Option<&'l str>) -> Made<Command<'l>>
    requires { subject_of name.now ≡ subjects.Layout }
    ensures exact { IfOk result
        (λ command. option_map command_meant command
        ≡ joined (named [] commands name.now (words_left rest.entry))) }
    ensures memory { OnErr result (HaveEscape (words_left rest.entry)) }
{
    match layout_in(alloc, name, rest)? {
        Some(command) => Ok(Some(Command::Layout(command))),
        None => Ok(None),
    }
}

/// The command of this name on sheets, where no other subject has the name.
pub(crate) fn in_sheets<'l>(alloc: Global, name: &str, rest: Option<&'l str>) -> Made<Command<'l>>
    requires { subject_of name.now ≡ subjects.Sheets }
    ensures exact { IfOk result
        (λ command. option_map command_meant command
        ≡ joined (named [] commands name.now (words_left rest.entry))) }
    ensures memory { OnErr result (HaveEscape (words_left rest.entry)) }
{
    match sheets_in(alloc, name, rest)? {
        Some(command) => Ok(Some(Command::Sheets(command))),
        None => Ok(None),
    }
}

/// The command of this name on tabs or the theme, where no other subject has the name.
pub(crate) fn in_tabs<'l>(alloc: Global, name: &str, rest: Option<&'l str>) -> Made<Command<'l>>
    requires { subject_of name.now ≡ subjects.Tabs }
    ensures exact { IfOk result
        (λ command. option_map command_meant command
        ≡ joined (named [] commands name.now (words_left rest.entry))) }
    ensures memory { OnErr result (HaveEscape (words_left rest.entry)) }
{
    match tabs_in(alloc, name, rest)? {
        Some(command) => Ok(Some(Command::Tabs(command))),
        None => Ok(None),
    }
}

/// The command of this name on the notation, where no other subject has the name.
pub(crate) fn in_notation<'l>(alloc: Global, name: &str, rest: Option<&'l str>) -> Made<Command<'l>>
    requires { subject_of name.now ≡ subjects.Notation }
    ensures exact { IfOk result
        (λ command. option_map command_meant command
        ≡ joined (named [] commands name.now (words_left rest.entry))) }
    ensures memory { OnErr result (HaveEscape (words_left rest.entry)) }
{
    match notation_in(alloc, name, rest)? {
        Some(command) => Ok(Some(Command::Notation(command))),
        None => Ok(None),
    }
}
