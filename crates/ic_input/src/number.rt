//! Numbers as they are typed, without their sign.
ghost use Rattle.std.specs.Prelude.{◌≡◌, ◌<◌, ◌≤◌, ◌+◌, ◌^◌, ◌&&◌, ◌||◌, not, nat_le, nat_lt, min, pos, chars, length, option_map, true};
ghost use Rattle.std.specs.Str.Parse.{digits_value};
ghost use Rattle.ic_laws.specs.Scan.{first_is, past_run};
ghost use Rattle.ic_input.specs.Code.{stands_beside};
ghost use Rattle.ic_input.specs.Convention.{begins_currency, is_currency};
ghost use Rattle.ic_input.specs.Number.{code_for, decimals_at, from_digits, may_begin, most_decimals, past_decimals, stands_before, units_if, unsigned_number, with_after};

use crate::code::{NumberCode, is_percent};
use crate::convention::{group_of, is_currency, is_nothing};
use crate::digits::{Digits, Groups, digits_at, groups_at};
use ic_laws::Amount;
use ic_laws::scan::{begins_with, first_char, front_of};
use ic_tables::Locale;

/// A number, and the parts of the code that shows it as it was typed, if it needs one.
#[derive(Drop)]
pub(crate) struct Number<'t> {
    pub(crate) amount: Amount,
    pub(crate) code: Option<NumberCode<'t>>,
}

/// The number that the whole text is: digits plain or in groups of three, decimals, and a currency at one side or a
/// percent sign after them.
pub(crate) fn unsigned_number<'t>(text: &'t str, locale: &Locale) -> Option<Number<'t>>
    ensures value { result ≡ unsigned_number locale.now (chars text.entry.now) }
{
    if !may_begin(text, locale) {
        return None;
    }
    let body = past_other(text, locale.decimal_separator());
    from_digits(front_of(text, body), body, locale)
}

// Whether a number may begin as a text does. Most texts that are none are told by this.
fn may_begin(text: &str, locale: &Locale) -> bool
    ensures { result ≡ first_is (may_begin locale.now) (chars text.now) }
{
    let Some((c, _)) = first_char(text) else {
        return false;
    };
    c.is_ascii_digit() || c == locale.decimal_separator() || begins_currency(c, locale)
}

// Whether a currency begins with a character.
fn begins_currency(c: char, locale: &Locale) -> bool
    ensures { result ≡ begins_currency locale.now c }
{
    c == '$' || c == '€' || begins_with(locale.currency.symbol.as_str(), c)
}

// What stands after the characters that no digits begin with. ASCII characters are told by their bytes.
fn past_other(text: &str, decimal: char) -> &str
    ensures { chars result.now ≡ past_run (stands_before decimal) (chars text.now) }
{
    let bytes = text.as_bytes();
    let mut at = 0;
    while at < bytes.len() && is_other_byte(bytes[at], decimal) {
        at += 1;
    }
    let (_, rest) = text.split_at(at);
    past_other_characters(rest, decimal)
}

// Whether it is an ASCII character that no digits begin with.
fn is_other_byte(byte: u8, decimal: char) -> bool
    ensures ascii { result ≡ true → byte < 128 }
    ensures other { result ≡ true → stands_before decimal byte ≡ true }
{
    byte.is_ascii() && !byte.is_ascii_digit() && char::from(byte) != decimal
}

// The same, told by characters.
fn past_other_characters(text: &str, decimal: char) -> &str
    ensures { chars result.now ≡ past_run (stands_before decimal) (chars text.now) }
{
    let mut rest = text;
    while let Some((c, after)) = first_char(rest) {
        if c.is_ascii_digit() || c == decimal {
            break;
        }
        rest = after;
    }
    rest
}

// The same, with what stands before the digits.
fn from_digits<'t>(before: &'t str, body: &'t str, locale: &Locale) -> Option<Number<'t>>
    ensures { result ≡ from_digits locale.now (chars before.entry.now) (chars body.entry.now) }
{
    let first = digits_at(body);
    let groups = groups_at(first.value, first.rest, group_of(locale));
    if !may_stand_before_groups(first.count, groups.are_some) {
        return None;
    }
    let decimals = decimals_at(groups.rest, locale.decimal_separator());
    with_after(locale, before, &groups, first.count, &decimals)
}

// Whether so many digits may stand before groups, if there are any.
fn may_stand_before_groups(count: usize, groups: bool) -> bool
    ensures { result ≡ (not groups || nat_lt 0 count && nat_le count 3) }
{
    !groups || 1 <= count && count <= 3
}

// The digits after a separator at the front of a text, and what stands after them.
fn decimals_at(text: &str, decimal: char) -> Digits<'_>
    ensures value { result.value ≡ min (digits_value 10 (decimals_at decimal (chars text.now)))
        (10 ^ 20) }
    ensures count { result.count ≡ length (decimals_at decimal (chars text.now)) }
    ensures rest { chars result.rest.now ≡ past_decimals decimal (chars text.now) }
    ensures short { result.count + length result.rest.now ≤ length text.now }
{
    match first_char(text) {
        Some((c, rest)) => {
            if c == decimal {
                digits_at(rest)
            } else {
                no_digits(text)
            }
        }
        None => no_digits(text),
    }
}

// No digits before this text.
fn no_digits(text: &str) -> Digits<'_>
    ensures none { (result.value ≡ 0) × (result.count ≡ 0) }
    ensures rest { result.rest.now ≡ text.now }
{
    Digits {
        value: 0,
        count: 0,
        rest: text,
    }
}

// The number of these digits, with what stands around them.
fn with_after<'t>(
    locale: &Locale,
    before: &'t str,
    whole: &Groups<'t>,
    whole_count: usize,
    decimals: &Digits<'t>,
) -> Option<Number<'t>>
    requires whole { whole.now.value ≤ 10 ^ 20 }
    requires fraction { decimals.now.value ≤ 10 ^ 20 }
    requires few { whole_count + decimals.now.count < 2 ^ 64 }
    ensures { result ≡ with_after locale.now (chars before.entry.now) whole.now.are_some
        whole.now.value whole_count decimals.now.value decimals.now.count
        (chars decimals.now.rest.now) }
{
    let after = decimals.rest;
    if !is_beside(locale, before, after) {
        return None;
    }
    let amount = amount_if(
        most_decimals(after),
        whole.value,
        whole_count,
        decimals.value,
        decimals.count,
    )?;
    Some(Number {
        amount,
        code: code_for(whole.are_some, before, after, decimals.count > 0),
    })
}

// Whether nothing stands beside digits, a percent sign after them, or one currency at one side.
fn is_beside(locale: &Locale, before: &str, after: &str) -> bool
    ensures { result ≡ stands_beside (is_currency locale.now) (chars before.now) (chars after.now) }
{
    match first_char(before) {
        None => is_nothing(after) || is_percent(after) || is_currency(locale, after),
        Some(_) => is_nothing(after) && is_currency(locale, before),
    }
}

// How many decimals there may be before this.
fn most_decimals(after: &str) -> u32
    ensures value { result ≡ most_decimals (chars after.now) }
    ensures bound { result ≤ 9 }
{
    if is_percent(after) { 7 } else { 9 }
}

// The amount of digits that write these numbers, and are so many, where the last unit stands so many places after the
// separator.
fn amount_if(
    places: u32,
    whole: u128,
    whole_count: usize,
    fraction: u128,
    count: usize,
) -> Option<Amount>
    requires places { places ≤ 9 }
    requires whole { whole ≤ 10 ^ 20 }
    requires fraction { fraction ≤ 10 ^ 20 }
    requires few { whole_count + count < 2 ^ 64 }
    ensures { result ≡ option_map pos (units_if places whole whole_count fraction count) }
{
    if count > places as usize || (whole_count == 0 && count == 0) {
        return None;
    }
    let units = whole * scale(places) + fraction * scale(places - count as u32);
    Amount::from_units(units as i128)
}

// Ten to the power of at most nine.
fn scale(places: u32) -> u128
    requires { places ≤ 9 }
    ensures value { result ≡ 10 ^ places }
    ensures bounds { (0 < result) × (result ≤ 10 ^ 9) }
{
    10u128.pow(places)
}

// The parts of the code that shows a number as it was typed. A plain number needs none.
fn code_for<'t>(
    grouped: bool,
    before: &'t str,
    after: &'t str,
    decimals: bool,
) -> Option<NumberCode<'t>>
    ensures { result ≡ code_for grouped (chars before.entry.now) (chars after.entry.now) decimals }
{
    if grouped || !is_nothing(before) || !is_nothing(after) {
        Some(NumberCode {
            before,
            after,
            decimals,
        })
    } else {
        None
    }
}
