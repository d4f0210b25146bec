ghost use Rattle.std.specs.Prelude.{◌≡◌, ◌<◌, ◌++◌, ◌∷◌, [], length, chars, option_map, string_bytes, IfOk, IfSome, MatchOption, OnOk};
ghost use Rattle.ic_laws.specs.Name.{is_forbidden, is_sheet_name};
ghost use Rattle.ic_refs.specs.Written.{name_of, spelled, undoubled};

use ic_laws::scan::{first_char, push_char};
use ic_laws::{OutOfMemory, Text};
use std::alloc::Global;

/// How a sheet's name is written.
#[derive(Clone, Copy)]
pub(crate) enum Quoting {
    /// As it is.
    Plain,
    /// Each quote in it twice.
    Doubled,
}

/// A sheet's name as it is written.
#[derive(Clone, Copy)]
pub(crate) struct WrittenName<'t> {
    /// The name, or what stands between its quotes.
    pub(crate) inside: &'t str,
    pub(crate) quoting: Quoting,
}

impl<'t> WrittenName<'t> {
    /// The name that is written.
    pub(crate) fn name(&self, alloc: Global) -> Result<Text, OutOfMemory>
        ensures { IfOk result (λ t. t ≡ name_of self.now) }
    {
        match self.quoting {
            Quoting::Plain => Text::from_str(alloc, self.inside),
            Quoting::Doubled => undoubled(alloc, self.inside),
        }
    }

    /// Whether it is a sheet's name: 1 to 31 characters, none of `\ / * ? : [ ]`.
    pub(crate) fn is_sheet_name(&self) -> bool
        ensures { result ≡ is_sheet_name (name_of self.now) }
    {
        spells_sheet_name(self.inside, self.quoting)
    }
}

/// A name whose quotes are doubled.
fn undoubled(alloc: Global, inside: &str) -> Result<Text, OutOfMemory>
    ensures { IfOk result (λ t. t ≡ undoubled (chars inside.now)) }
{
    let mut name = String::with_capacity(alloc, inside.len())?;
    push_undoubled(&mut name, inside)?;
    Ok(Text::from(name))
}

/// Appends a name whose quotes are doubled.
fn push_undoubled(out: &mut String, inside: &str) -> Result<(), OutOfMemory>
    ensures { OnOk result (chars (string_bytes out.new) ≡ chars (string_bytes out.old)
        ++ undoubled (chars inside.now)) }
{
    let mut rest = inside;
    while let Some((c, after)) = first_undoubled(rest) {
        push_char(out, c)?;
        rest = after;
    }
    Ok(())
}

/// The most characters of a sheet's name.
const LONGEST_NAME: usize = 31;

/// Whether the name that is written so is a sheet's name.
pub(crate) fn spells_sheet_name(inside: &str, quoting: Quoting) -> bool
    ensures { result ≡ is_sheet_name (spelled quoting (chars inside.now)) }
{
    let mut count = 0;
    let mut rest = inside;
    while let Some((c, after)) = first_spelled(rest, quoting) {
        if count == LONGEST_NAME || is_forbidden(c) {
            return false;
        }
        count += 1;
        rest = after;
    }
    count > 0
}

/// Whether no sheet's name has this character.
fn is_forbidden(c: char) -> bool
    ensures { result ≡ is_forbidden c }
{
    matches!(c, '\\' | '/' | '*' | '?' | ':' | '[' | ']')
}

/// The first character of a name that is written so, and what is written after it.
fn first_spelled(inside: &str, quoting: Quoting) -> Option<(char, &str)>
    ensures parts { MatchOption result (spelled quoting (chars inside.now) ≡ [])
        (λ p. spelled quoting (chars inside.now) ≡ p.0 ∷ spelled quoting (chars p.1.now)) }
    ensures shorter { IfSome result (λ p. length p.1.now < length inside.now) }
{
    match quoting {
        Quoting::Plain => first_char(inside),
        Quoting::Doubled => first_undoubled(inside),
    }
}

/// The first character of a name whose quotes are doubled, and what is written after it.
fn first_undoubled(inside: &str) -> Option<(char, &str)>
    ensures parts { MatchOption result (undoubled (chars inside.now) ≡ [])
        (λ p. undoubled (chars inside.now) ≡ p.0 ∷ undoubled (chars p.1.now)) }
    ensures shorter { IfSome result (λ p. length p.1.now < length inside.now) }
{
    let (c, after) = first_char(inside)?;
    if c != '\'' {
        return Some((c, after));
    }
    match first_char(after) {
        Some((_, more)) => Some((c, more)),
        None => Some((c, after)),
    }
}

/// The name that is written, if there is one.
pub(crate) fn owned_name(
    alloc: Global,
    name: Option<WrittenName<'_>>,
) -> Result<Option<Text>, OutOfMemory>
    ensures { IfOk result (λ t. t ≡ option_map name_of name.entry) }
{
    match name {
        None => Ok(None),
        Some(name) => Ok(Some(name.name(alloc)?)),
    }
}
