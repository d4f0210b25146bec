//! How an amount is shown by a format code.
ghost use Rattle.std.specs.Prelude.{◌≡◌, ◌<◌, ◌≤◌, ◌^◌, ◌+◌, ◌/◌, ◌%◌, ◌++◌, ◌∷◌, ◌⊎◌, true, ℕ, List, MatchOption, chars, string_bytes, IfOk, OnOk};
ghost use Rattle.std.specs.Fmt.{decimal};
ghost use Rattle.ic_laws.specs.Amount.{amount_text, is_amount};
ghost use Rattle.ic_input.specs.Code.{is_date_code};
ghost use Rattle.ic_input.specs.Convention as conventions;
ghost use Rattle.ic_tables.specs.Formats as formats;
ghost use Rattle.ic_input.specs.Date.{IsShownDay, last_day, two_digits};
ghost use Rattle.ic_input.specs.Formatted.{IsDateShown, IsFormatted, IsNoDate, IsWholeDay, digits_text, nearest, number_text, sign_text, step_of};
ghost use Rattle.ic_input.specs.Group.{in_threes};

use crate::amount::amount_text;
use crate::code::{NumberCode, is_date_code, is_percent, number_code};
use crate::convention::group_of;
use crate::date::{civil_of, push_day};
use crate::push::{push_digit, push_number, push_two_digits};
use ic_laws::scan::{push_char, push_text};
use ic_laws::{Amount, OutOfMemory};
use ic_tables::Locale;
use std::alloc::Global;

/// The text of an amount by a format code.
///
/// Codes of numbers are `#,##0` and `#,##0.00`, with a percent sign after them or a symbol of one to four characters at
/// one side; they are rounded half away from zero, and a minus stands first where the rounded value isn't 0. Codes of
/// dates show a whole day number from 1 to 2,958,465. By any other code, and by one of dates where the amount is no day,
/// it is the amount's text.
pub fn format_amount(
    alloc: Global,
    v: Amount,
    code: &str,
    locale: &Locale,
) -> Result<String, OutOfMemory>
    ensures shown { IfOk result (λ s. IsFormatted locale.now (chars code.now) v
        (chars (string_bytes s))) }
    ensures only { IfOk result (λ s. (text : List ℕ)
        → IsFormatted locale.now (chars code.now) v text → text ≡ chars (string_bytes s)) }
{
    formatted(alloc, v, code, locale)
}

// The same, with the clause that says that it is so shown.
fn formatted(alloc: Global, v: Amount, code: &str, locale: &Locale) -> Result<String, OutOfMemory>
    ensures { IfOk result (λ s. IsFormatted locale.now (chars code.now) v
        (chars (string_bytes s))) }
{
    match number_code(code) {
        Some(parts) => number_text(alloc, v.units(), &parts, locale),
        None => other_text(alloc, v, code, locale),
    }
}

// The text of an amount by a code that isn't one of numbers.
fn other_text(alloc: Global, v: Amount, code: &str, locale: &Locale) -> Result<String, OutOfMemory>
    ensures { IfOk result (λ s. (IsDateShown (chars code.now) v (chars (string_bytes s)))
        ⊎ ((IsNoDate (chars code.now) v) × (chars (string_bytes s)
        ≡ amount_text (formats.decimal_separator locale.now) v))) }
{
    match day_by(code, v.units()) {
        Some(n) => day_text(alloc, code, n),
        None => amount_text(alloc, v, locale.decimal_separator()),
    }
}

// The day number that an amount is, if the code is one of dates.
fn day_by(code: &str, units: i128) -> Option<u32>
    ensures { MatchOption result (IsNoDate (chars code.now) units)
        (λ n. (is_date_code (chars code.now) ≡ true) × (IsWholeDay units n)) }
{
    if is_date_code(code) {
        whole_day(units)
    } else {
        None
    }
}

// The day number that an amount is, if it is one.
fn whole_day(units: i128) -> Option<u32>
    ensures { MatchOption result ((n : ℕ) → ¬ (IsWholeDay units n)) (λ n. IsWholeDay units n) }
{
    if units % 1_000_000_000 == 0 && 1_000_000_000 <= units && units <= 2_958_465_000_000_000 {
        Some((units / 1_000_000_000) as u32)
    } else {
        None
    }
}

// A day by the code of dates.
fn day_text(alloc: Global, code: &str, n: u32) -> Result<String, OutOfMemory>
    requires first { 1 ≤ n }
    requires last { n ≤ last_day }
    ensures { IfOk result (λ s. IsShownDay (chars code.now) n (chars (string_bytes s))) }
{
    let mut text = String::new(alloc);
    push_day(&mut text, code, &civil_of(n))?;
    Ok(text)
}

// An amount by the code of numbers that asks for these parts.
fn number_text(
    alloc: Global,
    units: i128,
    code: &NumberCode<'_>,
    locale: &Locale,
) -> Result<String, OutOfMemory>
    requires { is_amount units ≡ true }
    ensures { IfOk result (λ s. chars (string_bytes s) ≡ number_text locale.now code.now units) }
{
    let places = nearest(units.unsigned_abs(), step_of(code.decimals, code.after));
    let mut text = String::new(alloc);
    push_sign(&mut text, units, places)?;
    push_text(&mut text, code.before)?;
    push_digits(&mut text, locale, code.decimals, places)?;
    push_text(&mut text, code.after)?;
    Ok(text)
}

// The number of steps that is nearest, the greater one where two are as near.
fn nearest(units: u128, step: u128) -> u128
    requires units { units < 10 ^ 27 }
    requires some { 0 < step }
    requires small { step ≤ 10 ^ 9 }
    ensures { result ≡ nearest step units }
{
    (units + step / 2) / step
}

// How many units the last place has that is shown.
fn step_of(decimals: bool, after: &str) -> u128
    ensures value { result ≡ step_of decimals (chars after.now) }
    ensures bounds { (10 ^ 5 ≤ result) × (result ≤ 10 ^ 9) }
{
    let one: u128 = if is_percent(after) {
        10_000_000
    } else {
        1_000_000_000
    };
    if decimals { one / 100 } else { one }
}

// Appends the minus of an amount below 0 that isn't rounded to 0.
fn push_sign(text: &mut String, units: i128, places: u128) -> Result<(), OutOfMemory>
    ensures { OnOk result (chars (string_bytes text.new) ≡ chars (string_bytes text.old)
        ++ sign_text units places) }
{
    if units < 0 && places != 0 {
        push_char(text, '-')?;
    }
    Ok(())
}

// Appends a number of last places in groups, with two decimals or none.
fn push_digits(
    text: &mut String,
    locale: &Locale,
    decimals: bool,
    places: u128,
) -> Result<(), OutOfMemory>
    requires { places < 10 ^ 30 }
    ensures { OnOk result (chars (string_bytes text.new) ≡ chars (string_bytes text.old)
        ++ digits_text (conventions.group_of locale.now) (formats.decimal_separator locale.now)
        decimals places) }
{
    if !decimals {
        return push_grouped(text, places, group_of(locale));
    }
    push_grouped(text, places / 100, group_of(locale))?;
    push_char(text, locale.decimal_separator())?;
    push_two_digits(text, (places % 100) as u32)
}

// Appends a number in groups of three digits.
fn push_grouped(text: &mut String, n: u128, group: char) -> Result<(), OutOfMemory>
    requires { n < 10 ^ 30 }
    ensures { OnOk result (chars (string_bytes text.new) ≡ chars (string_bytes text.old)
        ++ in_threes group (decimal n)) }
{
    if n < 1000 {
        return push_number(text, n);
    }
    push_grouped(text, n / 1000, group)?;
    push_char(text, group)?;
    push_three_digits(text, (n % 1000) as u32)?;
    Ok(())
}

// Appends a number below 1,000 in three digits.
fn push_three_digits(text: &mut String, n: u32) -> Result<(), OutOfMemory>
    requires { n < 1000 }
    ensures { OnOk result (chars (string_bytes text.new) ≡ chars (string_bytes text.old)
        ++ (48 + n / 100) ∷ two_digits (n % 100)) }
{
    push_digit(text, n / 100)?;
    push_two_digits(text, n % 100)
}
