ghost use Rattle.std.specs.Prelude.{◌≡◌, [], IfOk, OnErr, option_map};
ghost use Rattle.ic_machine.specs.Row.{joined, named};
ghost use Rattle.ic_machine.specs.Word.{Done, OfScope, OfText, Then};
ghost use Rattle.ic_machine.specs.subjects.Definitions.{definition_rows};
ghost use Rattle.ic_words.specs.Words.{HaveEscape, words_left};
ghost use Rattle.ic_words.specs.subjects.Definitions.{definitions_meant, update_words};

use crate::command::Made;
use crate::text::WordText;
use crate::words::Words;
use ic_laws::OutOfMemory;
use std::alloc::Global;

/// An update of a definition: its name and scope, and those that it gets with a new body. A scope is the index from 0 of
/// a sheet, or None where it is the whole book.
pub struct DefinitionUpdate<'l> {
    pub name: WordText<'l>,
    pub scope: Option<u32>,
    pub new_name: WordText<'l>,
    pub new_scope: Option<u32>,
    pub body: WordText<'l>,
}

impl Drop for DefinitionUpdate<'_> {
    fn drop(self) {
        let Self {
            name,
            scope: _,
            new_name,
            new_scope: _,
            body,
        } = self;
        drop(name);
        drop(new_name);
        drop(body);
    }
}

impl<'l> Words<'l> for DefinitionUpdate<'l> {
    ghost forms = { Then OfText (Then OfScope (Then OfText (Then OfScope (Then OfText Done)))) };

    ghost says = { update_words };

    fn of(
        alloc: Global,
        rest: Option<&'l str>,
    ) -> Result<Option<DefinitionUpdate<'l>>, OutOfMemory> {
        match Words::of(alloc, rest)? {
            Some((name, (scope, (new_name, (new_scope, (body, ())))))) => Ok(Some(
                DefinitionUpdate {
                    name,
                    scope,
                    new_name,
                    new_scope,
                    body,
                },
            )),
            None => Ok(None),
        }
    }
}

/// A command on definitions.
#[derive(Drop)]
pub enum Definitions<'l> {
    NewDefinedName {
        name: WordText<'l>,
        scope: Option<u32>,
        body: WordText<'l>,
    },
    DeleteDefinedName {
        name: WordText<'l>,
        scope: Option<u32>,
    },
    UpdateDefinedName {
        update: DefinitionUpdate<'l>,
    },
    WouldCapture {
        update: DefinitionUpdate<'l>,
    },
    IsValidDefinedName {
        name: WordText<'l>,
        scope: Option<u32>,
        body: WordText<'l>,
    },
    GetDefinedNameList,
}

/// The command on definitions of this name, by the words that are left. Memory is asked for only for a text with an
/// escape.
pub fn definitions_in<'l>(alloc: Global, name: &str, rest: Option<&'l str>) -> Made<Definitions<'l>>
    ensures exact { IfOk result (λ made. option_map definitions_meant made
        ≡ joined (named [] definition_rows name.now (words_left rest.entry))) }
    ensures memory { OnErr result (HaveEscape (words_left rest.entry)) }
{
    match name {
        "new_defined_name" => match Words::of(alloc, rest)? {
            Some((name, (scope, (body, ())))) => Ok(Some(Definitions::NewDefinedName {
                name,
                scope,
                body,
            })),
            None => Ok(None),
        },
        "delete_defined_name" => match Words::of(alloc, rest)? {
            Some((name, (scope, ()))) => Ok(Some(Definitions::DeleteDefinedName { name, scope })),
            None => Ok(None),
        },
        "update_defined_name" => match Words::of(alloc, rest)? {
            Some(update) => Ok(Some(Definitions::UpdateDefinedName { update })),
            None => Ok(None),
        },
        "would_capture" => match Words::of(alloc, rest)? {
            Some(update) => Ok(Some(Definitions::WouldCapture { update })),
            None => Ok(None),
        },
        "is_valid_defined_name" => match Words::of(alloc, rest)? {
            Some((name, (scope, (body, ())))) => Ok(Some(Definitions::IsValidDefinedName {
                name,
                scope,
                body,
            })),
            None => Ok(None),
        },
        "get_defined_name_list" => match Words::of(alloc, rest)? {
            Some(()) => Ok(Some(Definitions::GetDefinedNameList)),
            None => Ok(None),
        },
        _ => Ok(None),
    }
}
