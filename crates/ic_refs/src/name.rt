ghost use Rattle.std.specs.Prelude.{◌≡◌, ◌++◌, codes, ◌&&◌, ◌||◌, ◌==◌, nat_lt, length, chars, string_bytes, OnOk, IfOk};
ghost use Rattle.ic_laws.specs.Character.{dot};
ghost use Rattle.ic_laws.specs.Name.{agrees, in_quotes, is_c, is_identifier, is_numbered, is_r1c1_cell, is_sheet_name, is_variable, needs_quotes, quoted};
ghost use Rattle.ic_laws.specs.Scan.{first_is, is_digit};
ghost use Rattle.ic_laws.specs.SheetText.{doubled, doubled_char};

use crate::written::{Quoting, spells_sheet_name};
use ic_laws::scan::{
    are_digits, begins_with_digit, first_char, is_a1_cell, is_c, is_lone, is_nothing, is_r,
    is_variable_form, past_digits, past_plain, push_char, push_text,
};
use ic_laws::{OutOfMemory, agree};
use std::alloc::Global;

/// Whether the text may name a sheet: 1 to 31 characters, none of `\ / * ? : [ ]`.
pub fn is_valid_sheet_name(name: &str) -> bool
    ensures { result ≡ is_sheet_name (chars name.now) }
{
    spells_sheet_name(name, Quoting::Plain)
}

/// Whether the text may name a variable of a formula: a word that is no boolean, no A1 cell and, unless it is a lone R
/// or C, no reference by row and column numbers.
pub fn is_valid_a1_identifier(name: &str) -> bool
    ensures { result ≡ is_variable (chars name.now) }
{
    is_variable_form(name) && !is_boolean(name)
}

/// Whether the text may name a definition: a variable that is no lone R or C, LET or LAMBDA.
#[tactic(auto, using(crate::proofs::NameLemmas::literals))]
pub fn is_valid_identifier(name: &str) -> bool
    ensures { result ≡ is_identifier (chars name.now) }
{
    is_valid_a1_identifier(name) && !is_lone(name) && !agree(name, "LET") && !agree(name, "LAMBDA")
}

/// Whether it agrees with `true` or `false`.
#[tactic(auto, using(crate::proofs::NameLemmas::literals))]
fn is_boolean(name: &str) -> bool
    ensures { result ≡ (agrees (chars name.now) (codes "true")
        || agrees (chars name.now) (codes "false")) }
{
    agree(name, "true") || agree(name, "false")
}

/// Whether a sheet's name stands between quotes before a reference, since it could be read as something else there.
#[tactic(auto, using(ic_laws::proofs::RunLemmas::nothing_left))]
pub(crate) fn needs_quotes(name: &str) -> bool
    ensures { result ≡ needs_quotes (chars name.now) }
{
    !is_nothing(past_plain(name))
        || begins_with_digit_or_dot(name)
        || is_a1_cell(name)
        || is_r1c1_cell(name)
}

/// Whether a digit or a dot stands at the front.
fn begins_with_digit_or_dot(text: &str) -> bool
    ensures { result ≡ first_is (λ c. is_digit c || c == dot) (chars text.now) }
{
    let Some((c, _)) = first_char(text) else {
        return false;
    };
    c.is_ascii_digit() || c == '.'
}

/// Whether it is R, at least one digit, C, and at least one digit.
fn is_r1c1_cell(text: &str) -> bool
    ensures { result ≡ is_r1c1_cell (chars text.now) }
{
    let Some((c, after)) = first_char(text) else {
        return false;
    };
    is_r(c) && begins_with_digit(after) && is_counted_column(past_digits(after))
}

/// C and at least one digit.
fn is_counted_column(text: &str) -> bool
    ensures { result ≡ (is_numbered is_c (chars text.now) && nat_lt 1 (length (chars text.now))) }
{
    let Some((c, digits)) = first_char(text) else {
        return false;
    };
    is_c(c) && are_digits(digits) && !is_nothing(digits)
}

/// The name as it stands before a reference: between quotes with each of its own doubled, where it needs them.
pub fn quote_name(alloc: Global, name: &str) -> Result<String, OutOfMemory>
    ensures { IfOk result (λ s. chars (string_bytes s) ≡ quoted (chars name.now)) }
{
    let mut out = String::with_capacity(alloc, name.len())?;
    push_quoted(&mut out, name)?;
    Ok(out)
}

/// Appends the name as it stands before a reference: between quotes with each of its own doubled, where it needs them.
pub fn push_quoted(out: &mut String, name: &str) -> Result<(), OutOfMemory>
    ensures { OnOk result (chars (string_bytes out.new) ≡ chars (string_bytes out.old)
        ++ quoted (chars name.now)) }
{
    if needs_quotes(name) {
        push_in_quotes(out, name)
    } else {
        push_text(out, name)
    }
}

/// Appends the name between quotes, each of its own doubled.
fn push_in_quotes(out: &mut String, name: &str) -> Result<(), OutOfMemory>
    ensures { OnOk result (chars (string_bytes out.new) ≡ chars (string_bytes out.old)
        ++ in_quotes (chars name.now)) }
{
    push_char(out, '\'')?;
    push_doubled(out, name)?;
    push_char(out, '\'')
}

/// Appends the name, each quote doubled.
fn push_doubled(out: &mut String, name: &str) -> Result<(), OutOfMemory>
    ensures { OnOk result (chars (string_bytes out.new) ≡ chars (string_bytes out.old)
        ++ doubled (chars name.now)) }
{
    let mut rest = name;
    while let Some((c, after)) = first_char(rest) {
        push_char_doubled(out, c)?;
        rest = after;
    }
    Ok(())
}

/// Appends a character, a quote twice.
fn push_char_doubled(out: &mut String, c: char) -> Result<(), OutOfMemory>
    ensures { OnOk result (chars (string_bytes out.new) ≡ chars (string_bytes out.old)
        ++ doubled_char c) }
{
    if c == '\'' {
        push_char(out, '\'')?;
    }
    push_char(out, c)
}
