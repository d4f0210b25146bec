ghost use Rattle.std.specs.Prelude.{◌≡◌, ◌++◌, ◌==◌, chars, codes, option_map, string_bytes, OnOk};
ghost use Rattle.std.specs.List.{list_any};
ghost use Rattle.ic_laws.specs.Scan.{is_blank, past_run};
ghost use Rattle.ic_laws.specs.Scene.{past_front};
ghost use Rattle.ic_tables.specs.Formats.{may_stand_in_symbol};
ghost use Rattle.ic_input.specs.Code.{code_text, digits_code, has_up_to, is_date_code, is_no_hash, is_percent, is_symbol, number_code, stands_beside, supported};

use crate::convention::is_nothing;
use ic_laws::OutOfMemory;
use ic_laws::scan::{first_char, front_of, push_text, same_text};
use std::marker::Model;

/// What the code of a number asks for: a text before the digits, one after them, and whether two decimals are shown.
#[derive(Drop)]
pub(crate) struct NumberCode<'t> {
    pub(crate) before: &'t str,
    pub(crate) after: &'t str,
    pub(crate) decimals: bool,
}

impl<'t> Model for NumberCode<'t> {
    ghost use Rattle.std.specs.Prelude.{chars};
    ghost use Rattle.ic_input.specs.Code.{CodeParts};

    ghost Value = { CodeParts };

    ghost view = { λ c. record { before = chars c.before.now; after = chars c.after.now; decimals = c.decimals } };
}

/// Whether the code is one of dates: `yyyy-mm-dd`, `dd/mm/yyyy` or `m/d/yyyy`.
#[tactic(auto, using(crate::proofs::LiteralLemmas::literals))]
pub fn is_date_code(code: &str) -> bool
    ensures { result ≡ is_date_code (chars code.now) }
{
    same_text(code, "m/d/yyyy") || same_text(code, "dd/mm/yyyy") || same_text(code, "yyyy-mm-dd")
}

/// The parts of a number's code. None exactly where numbers aren't shown by it.
pub(crate) fn number_code(code: &str) -> Option<NumberCode<'_>>
    ensures { result ≡ number_code (chars code.now) }
{
    let rest = past_symbol(code);
    let before = front_of(code, rest);
    let after = past_front("#,##0", rest)?;
    match past_front(".00", after) {
        Some(after) => supported(before, true, after),
        None => supported(before, false, after),
    }
}

// These parts, where numbers are shown by them.
fn supported<'t>(before: &'t str, decimals: bool, after: &'t str) -> Option<NumberCode<'t>>
    ensures { result ≡ supported (chars before.entry.now) decimals (chars after.entry.now) }
{
    if is_beside(before, after) {
        Some(NumberCode {
            before,
            after,
            decimals,
        })
    } else {
        None
    }
}

// Whether nothing stands beside digits, a percent sign after them, or one symbol at one side.
fn is_beside(before: &str, after: &str) -> bool
    ensures { result ≡ stands_beside is_symbol (chars before.now) (chars after.now) }
{
    match first_char(before) {
        None => is_nothing(after) || is_percent(after) || is_symbol(after),
        Some(_) => is_nothing(after) && is_symbol(before),
    }
}

/// Whether it is a percent sign alone.
pub(crate) fn is_percent(text: &str) -> bool
    ensures { result ≡ is_percent (chars text.now) }
{
    match first_char(text) {
        Some((c, rest)) => c == '%' && is_nothing(rest),
        None => false,
    }
}

// Whether it is a symbol: one to four characters that are no digit, no blank and no mark of numbers and formats.
fn is_symbol(text: &str) -> bool
    ensures { result ≡ is_symbol (chars text.now) }
{
    match first_char(text) {
        Some(_) => has_up_to(4, text),
        None => false,
    }
}

fn has_up_to(most: usize, text: &str) -> bool
    ensures { result ≡ has_up_to most (chars text.now) }
{
    match first_char(text) {
        Some((c, rest)) => most > 0 && may_stand_in_symbol(c) && has_up_to(most - 1, rest),
        None => true,
    }
}

fn may_stand_in_symbol(c: char) -> bool
    ensures { result ≡ may_stand_in_symbol c }
{
    !c.is_ascii_digit() && !is_blank(c) && !is_mark(c)
}

fn is_blank(c: char) -> bool
    ensures { result ≡ is_blank c }
{
    matches!(c, ' ' | '\t' | '\n' | '\r')
}

fn is_mark(c: char) -> bool
    ensures { result ≡ list_any (λ x. c == x) (codes "#,.%\"+-='") }
{
    matches!(c, '#' | ',' | '.' | '%' | '"' | '+' | '-' | '=' | '\'')
}

// What stands after the characters that are no `#`.
fn past_symbol(text: &str) -> &str
    ensures { chars result.now ≡ past_run is_no_hash (chars text.now) }
{
    let mut rest = text;
    while let Some((c, after)) = first_char(rest) {
        if c == '#' {
            break;
        }
        rest = after;
    }
    rest
}

// What stands after this front of a text. None exactly where it begins otherwise.
fn past_front<'t>(front: &str, text: &'t str) -> Option<&'t str>
    ensures { option_map (λ rest. chars rest.now) result
        ≡ past_front (chars front.now) (chars text.now) }
{
    let mut front = front;
    let mut rest = text;
    while let Some((c, more)) = first_char(front) {
        let (d, after) = first_char(rest)?;
        if c != d {
            return None;
        }
        front = more;
        rest = after;
    }
    Some(rest)
}

/// Appends the code that asks for these parts.
#[tactic(auto, using(crate::proofs::LiteralLemmas::literals))]
pub(crate) fn push_code(text: &mut String, code: &NumberCode<'_>) -> Result<(), OutOfMemory>
    ensures { OnOk result (chars (string_bytes text.new) ≡ chars (string_bytes text.old)
        ++ code_text code.now) }
{
    push_text(text, code.before)?;
    push_text(text, digits_code(code.decimals))?;
    push_text(text, code.after)
}

#[tactic(auto, using(crate::proofs::LiteralLemmas::literals))]
fn digits_code(decimals: bool) -> &'static str
    ensures { chars result.now ≡ digits_code decimals }
{
    if decimals { "#,##0.00" } else { "#,##0" }
}
