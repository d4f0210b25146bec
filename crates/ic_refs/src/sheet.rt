ghost use Rattle.std.specs.Prelude.{◌≡◌, ◌<◌, length, IfSome, ◌++◌, ◌∷◌, ◌||◌, ◌==◌, false, None, chars, string_bytes, MatchOption, OnOk, option_and_then, option_map};
ghost use Rattle.std.specs.Option.{option_copied};
ghost use Rattle.ic_laws.specs.Character.{dollar, quote};
ghost use Rattle.ic_laws.specs.Scan.{first_is, is_digit};
ghost use Rattle.ic_laws.specs.SheetText.{is_quote, before_bang, name_in_quotes, sheet_at, sheet_text};
ghost use Rattle.ic_laws.specs.Tree.{is_written_sheet};
ghost use Rattle.ic_refs.specs.Written.{ClosesAt, name_of, plain_name};

use crate::name::{is_valid_sheet_name, needs_quotes, push_quoted};
use crate::written::{Quoting, WrittenName};
use ic_laws::OutOfMemory;
use ic_laws::scan::{begins_with, first_char, front_of, past_plain, push_char};

/// The sheet's name at the front of a text, and what stands after its `!`. None where no valid name stands there: so where
/// a cell with a dollar sign or a number begins.
pub(crate) fn find_sheet(text: &str) -> Option<(WrittenName<'_>, &str)>
    ensures { option_map (λ f. (name_of f.0, chars f.1.now)) result ≡ sheet_at (chars text.now) }
{
    let (c, after) = first_char(text)?;
    if c == '\'' {
        quoted_sheet(after)
    } else if begins_no_name(c) {
        None
    } else {
        plain_sheet(text)
    }
}

/// Whether a dollar sign or a number begins with it: no sheet's name does without quotes.
fn begins_no_name(c: char) -> bool
    ensures { result ≡ (c == dollar || is_digit c) }
{
    c == '$' || c.is_ascii_digit()
}

/// The sheet's name after an opening quote, and what stands after its `!`.
fn quoted_sheet(text: &str) -> Option<(WrittenName<'_>, &str)>
    ensures { option_map (λ f. (name_of f.0, chars f.1.now)) result
        ≡ option_and_then (λ f. before_bang f.0 f.1) (name_in_quotes (chars text.now)) }
{
    let (name, rest) = name_in_quotes(text)?;
    before_bang(name, rest)
}

/// The sheet's name without quotes at the front, and what stands after its `!`. Most texts have no `!` there, and nothing
/// else is asked of them.
fn plain_sheet(text: &str) -> Option<(WrittenName<'_>, &str)>
    ensures { option_map (λ f. (name_of f.0, chars f.1.now)) result
        ≡ option_and_then (λ f. before_bang f.0 f.1) (plain_name (chars text.now)) }
{
    let rest = past_plain(text);
    if !begins_with(rest, '!') {
        return None;
    }
    let inside = front_of(text, rest);
    if needs_quotes(inside) {
        return None;
    }
    let name = WrittenName {
        inside,
        quoting: Quoting::Plain,
    };
    before_bang(name, rest)
}

/// The name after an opening quote, and what stands after the quote that closes it. None where none does.
pub(crate) fn name_in_quotes(text: &str) -> Option<(WrittenName<'_>, &str)>
    ensures { option_map (λ f. (name_of f.0, chars f.1.now)) result
        ≡ name_in_quotes (chars text.now) }
{
    let closing = closing_quote(text)?;
    let (_, rest) = first_char(closing)?;
    let inside = front_of(text, closing);
    Some((
        WrittenName {
            inside,
            quoting: Quoting::Doubled,
        },
        rest,
    ))
}

/// What stands after an opening quote from the quote on that closes the name.
fn closing_quote(text: &str) -> Option<&str>
    ensures { MatchOption result (name_in_quotes (chars text.now) ≡ None)
        (λ closing. ClosesAt (chars text.now) (chars closing.now)) }
{
    let mut rest = text;
    while let Some((c, after)) = first_char(rest) {
        if c != '\'' {
            rest = after;
            continue;
        }
        match past_quote(after) {
            Some(more) => rest = more,
            None => return Some(rest),
        }
    }
    None
}

/// What stands after the quote at the front, if there is one.
fn past_quote(text: &str) -> Option<&str>
    ensures cases { MatchOption result (first_is is_quote (chars text.now) ≡ false)
        (λ rest. chars text.now ≡ quote ∷ chars rest.now) }
    ensures shorter { IfSome result (λ rest. length rest.now < length text.now) }
{
    let (c, after) = first_char(text)?;
    if c == '\'' { Some(after) } else { None }
}

/// The name, if it is a sheet's and a `!` follows it, and what stands after the `!`.
fn before_bang<'t>(name: WrittenName<'t>, rest: &'t str) -> Option<(WrittenName<'t>, &'t str)>
    ensures { option_map (λ f. (name_of f.0, chars f.1.now)) result
        ≡ before_bang (name_of name.entry) (chars rest.now) }
{
    let (c, after) = first_char(rest)?;
    if c == '!' && name.is_sheet_name() {
        Some((name, after))
    } else {
        None
    }
}

/// Whether a sheet may have this name, if there is one.
pub fn is_written_name(sheet: Option<&str>) -> bool
    ensures { result ≡ is_written_sheet (option_map chars (option_copied sheet.entry)) }
{
    match sheet {
        None => true,
        Some(name) => is_valid_sheet_name(name),
    }
}

/// Appends a sheet's name as it is spelled before a reference, with the `!` after it; nothing where there is none.
pub fn push_sheet(out: &mut String, sheet: Option<&str>) -> Result<(), OutOfMemory>
    ensures { OnOk result (chars (string_bytes out.new) ≡ chars (string_bytes out.old)
        ++ sheet_text (option_map chars (option_copied sheet.entry))) }
{
    let Some(name) = sheet else {
        return Ok(());
    };
    push_quoted(out, name)?;
    push_char(out, '!')
}
