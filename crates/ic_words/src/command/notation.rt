ghost use Rattle.std.specs.Prelude.{◌≡◌, [], IfOk, OnErr, option_map};
ghost use Rattle.ic_machine.specs.Row.{joined, named};
ghost use Rattle.ic_machine.specs.subjects.Notation.{notation_rows};
ghost use Rattle.ic_words.specs.Words.{HaveEscape, words_left};
ghost use Rattle.ic_words.specs.subjects.Notation.{notation_meant};

use crate::command::Made;
use crate::text::WordText;
use crate::words::Words;
use std::alloc::Global;

/// A command on the locale, the language and the time zone.
#[derive(Drop)]
pub enum Notation<'l> {
    SetLocale { id: WordText<'l> },
    SetLanguage { id: WordText<'l> },
    SetTimezone { id: WordText<'l> },
    GetLocale,
    GetLanguage,
    GetTimezone,
    GetFmtSettings,
}

/// The command on the locale, the language and the time zone of this name, by the words that are left. Memory is asked
/// for only for a text with an escape.
pub fn notation_in<'l>(alloc: Global, name: &str, rest: Option<&'l str>) -> Made<Notation<'l>>
    ensures exact { IfOk result (λ made. option_map notation_meant made
        ≡ joined (named [] notation_rows name.now (words_left rest.entry))) }
    ensures memory { OnErr result (HaveEscape (words_left rest.entry)) }
{
    match name {
        "set_locale" => match Words::of(alloc, rest)? {
            Some((id, ())) => Ok(Some(Notation::SetLocale { id })),
            None => Ok(None),
        },
        "set_language" => match Words::of(alloc, rest)? {
            Some((id, ())) => Ok(Some(Notation::SetLanguage { id })),
            None => Ok(None),
        },
        "set_timezone" => match Words::of(alloc, rest)? {
            Some((id, ())) => Ok(Some(Notation::SetTimezone { id })),
            None => Ok(None),
        },
        "get_locale" => match Words::of(alloc, rest)? {
            Some(()) => Ok(Some(Notation::GetLocale)),
            None => Ok(None),
        },
        "get_language" => match Words::of(alloc, rest)? {
            Some(()) => Ok(Some(Notation::GetLanguage)),
            None => Ok(None),
        },
        "get_timezone" => match Words::of(alloc, rest)? {
            Some(()) => Ok(Some(Notation::GetTimezone)),
            None => Ok(None),
        },
        "get_fmt_settings" => match Words::of(alloc, rest)? {
            Some(()) => Ok(Some(Notation::GetFmtSettings)),
            None => Ok(None),
        },
        _ => Ok(None),
    }
}
