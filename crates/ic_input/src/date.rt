//! Dates: their day numbers, how they are typed and how they are shown.
ghost use Rattle.std.specs.Prelude.{◌≡◌, ◌<◌, ◌≤◌, ◌++◌, chars, length, option_map, string_bytes, IfSome, MatchOption, OnOk};
ghost use Rattle.std.specs.Fmt.{decimal};
ghost use Rattle.ic_laws.specs.AmountFront.{past_some};
ghost use Rattle.ic_laws.specs.Character.{minus};
ghost use Rattle.ic_input.specs.Convention.{short_date, slash};
ghost use Rattle.ic_input.specs.Date.{IsDay, IsDigit, IsNoDigit, date_text, day_of, field_at, four_digits, three_fields, in_range, iso_number, joined, last_day, past_mark, short_day_of, short_number, two_digits};

use crate::convention::is_nothing;
use crate::push::{push_four_digits, push_number, push_two_digits};
use ic_laws::OutOfMemory;
use ic_laws::scan::{first_char, push_char, same_text};
use ic_tables::Locale;
use jiff_core::civil::Date;

/// The number that digits at the front of a text write, and how many they are.
#[derive(Drop)]
pub(crate) struct Field {
    value: u32,
    count: usize,
}

/// Three fields with marks between them.
#[derive(Drop)]
pub(crate) struct Fields {
    first: Field,
    second: Field,
    third: Field,
}

/// The number of the day that the whole text is, as `2026-01-15`.
pub(crate) fn iso_number(text: &str) -> Option<u32>
    ensures { result ≡ iso_number (chars text.now) }
{
    let date = three_fields(text, '-', 4, 2)?;
    if date.first.count == 4 && date.second.count == 2 && date.third.count == 2 {
        day_of(date.first.value, date.second.value, date.third.value)
    } else {
        None
    }
}

/// The number of the day that the whole text is by the locale's short dates.
pub(crate) fn short_number(text: &str, locale: &Locale) -> Option<u32>
    ensures { result ≡ short_number (short_date locale.now) (chars text.now) }
{
    let date = three_fields(text, '/', 2, 4)?;
    short_day(&date, locale)
}

#[tactic(auto, using(crate::proofs::LiteralLemmas::literals))]
fn short_day(date: &Fields, locale: &Locale) -> Option<u32>
    requires { (date.now.first.value < 10000) × (date.now.second.value < 10000)
        × (date.now.third.value < 10000) }
    ensures { result ≡ short_day_of (short_date locale.now) date.now }
{
    if date.first.count < 1 || date.second.count < 1 || date.third.count != 4 {
        return None;
    }
    if locale.dates.date_formats.short.is("m/d/yyyy") {
        day_of(date.third.value, date.first.value, date.second.value)
    } else {
        day_of(date.third.value, date.second.value, date.first.value)
    }
}

// Three fields with a mark between them: the first of at most so many digits, the second of two, and the last.
fn three_fields(text: &str, mark: char, most: usize, last: usize) -> Option<Fields>
    requires first { most ≤ 4 }
    requires last { last ≤ 4 }
    ensures value { result ≡ three_fields mark most last (chars text.now) }
    ensures small { IfSome result (λ f. (f.first.value < 10000) × (f.second.value < 10000)
        × (f.third.value < 10000)) }
{
    let (first, rest) = field_at(most, text);
    let (second, rest) = field_at(2, past_mark(rest, mark)?);
    let (third, rest) = field_at(last, past_mark(rest, mark)?);
    if is_nothing(rest) {
        Some(Fields {
            first,
            second,
            third,
        })
    } else {
        None
    }
}

// The number that up to so many digits at the front write, and what stands after them.
fn field_at(most: usize, text: &str) -> (Field, &str)
    requires { most ≤ 4 }
    ensures field { result.0 ≡ field_at most (chars text.now) }
    ensures rest { chars result.1.now ≡ past_some most (chars text.now) }
    ensures small { result.0.value < 10000 }
{
    let mut value = 0;
    let mut left = most;
    let mut rest = text;
    while let Some((digit, after)) = digit_at(left, rest) {
        value = value * 10 + digit;
        left -= 1;
        rest = after;
    }
    let count = most - left;
    (Field { value, count }, rest)
}

// The digit at the front of a text, if any more are read, and what stands after it.
fn digit_at(left: usize, text: &str) -> Option<(u32, &str)>
    ensures digit { MatchOption result (IsNoDigit left (chars text.now))
        (λ p. IsDigit left p.0 (chars text.now) (chars p.1.now)) }
    ensures shorter { IfSome result (λ p. length p.1.now < length text.now) }
{
    if left == 0 {
        return None;
    }
    let (c, rest) = first_char(text)?;
    if c.is_ascii_digit() {
        Some((c as u32 - 48, rest))
    } else {
        None
    }
}

// What stands after a mark at the front of a text.
fn past_mark(text: &str, mark: char) -> Option<&str>
    ensures { option_map (λ rest. chars rest.now) result ≡ past_mark mark (chars text.now) }
{
    let (c, rest) = first_char(text)?;
    if c == mark { Some(rest) } else { None }
}

// The number of a day, if the calendar has it and it has a number.
fn day_of(year: u32, month: u32, day: u32) -> Option<u32>
    requires year { year < 10000 }
    requires month { month < 10000 }
    requires day { day < 10000 }
    ensures { result ≡ day_of year month day }
{
    if month > 12 || day > 31 {
        return None;
    }
    match Date::new(year as i16, month as i8, day as i8) {
        Ok(date) => in_range(date.to_unix_epoch_day() + 25_569),
        Err(_) => None,
    }
}

// The number, if it is that of a day from the first to the last.
fn in_range(number: i32) -> Option<u32>
    ensures { result ≡ in_range number }
{
    if 1 <= number && number <= 2_958_465 {
        Some(number as u32)
    } else {
        None
    }
}

/// A day of the calendar, from the year 1899 to 9999.
#[derive(Drop)]
pub(crate) struct Civil {
    year: u32,
    month: u32,
    day: u32,
}

/// The day of a number.
pub(crate) fn civil_of(n: u32) -> Civil
    requires first { 1 ≤ n }
    requires last { n ≤ last_day }
    ensures day { IsDay result.year result.month result.day n }
    ensures bounds { (result.year < 10000) × (result.month < 100) × (result.day < 100) }
{
    let date = Date::from_unix_epoch_day(i64::from(n) - 25_569).unwrap();
    Civil {
        year: date.year as u32,
        month: u32::from(date.month),
        day: u32::from(date.day),
    }
}

/// Appends a day by the code of dates: `yyyy-mm-dd`, `m/d/yyyy` or else `dd/mm/yyyy`.
#[tactic(auto, using(crate::proofs::LiteralLemmas::literals))]
pub(crate) fn push_day(text: &mut String, code: &str, day: &Civil) -> Result<(), OutOfMemory>
    requires { (day.now.year < 10000) × (day.now.month < 100) × (day.now.day < 100) }
    ensures { OnOk result (chars (string_bytes text.new) ≡ chars (string_bytes text.old)
        ++ date_text (chars code.now) day.now.year day.now.month day.now.day) }
{
    if same_text(code, "yyyy-mm-dd") {
        push_iso(text, day)
    } else if same_text(code, "m/d/yyyy") {
        push_american(text, day)
    } else {
        push_day_first(text, day)
    }
}

// Appends a day as `2026-01-15`.
fn push_iso(text: &mut String, day: &Civil) -> Result<(), OutOfMemory>
    requires { (day.now.year < 10000) × (day.now.month < 100) × (day.now.day < 100) }
    ensures { OnOk result (chars (string_bytes text.new) ≡ chars (string_bytes text.old)
        ++ joined minus (four_digits day.now.year) (two_digits day.now.month)
        (two_digits day.now.day)) }
{
    push_four_digits(text, day.year)?;
    push_char(text, '-')?;
    push_two_digits(text, day.month)?;
    push_char(text, '-')?;
    push_two_digits(text, day.day)
}

// Appends a day as `1/15/2026`.
fn push_american(text: &mut String, day: &Civil) -> Result<(), OutOfMemory>
    requires { (day.now.year < 10000) × (day.now.month < 100) × (day.now.day < 100) }
    ensures { OnOk result (chars (string_bytes text.new) ≡ chars (string_bytes text.old)
        ++ joined slash (decimal day.now.month) (decimal day.now.day) (four_digits day.now.year)) }
{
    push_number(text, u128::from(day.month))?;
    push_char(text, '/')?;
    push_number(text, u128::from(day.day))?;
    push_char(text, '/')?;
    push_four_digits(text, day.year)
}

// Appends a day as `15/01/2026`.
fn push_day_first(text: &mut String, day: &Civil) -> Result<(), OutOfMemory>
    requires { (day.now.year < 10000) × (day.now.month < 100) × (day.now.day < 100) }
    ensures { OnOk result (chars (string_bytes text.new) ≡ chars (string_bytes text.old)
        ++ joined slash (two_digits day.now.day) (two_digits day.now.month)
        (four_digits day.now.year)) }
{
    push_two_digits(text, day.day)?;
    push_char(text, '/')?;
    push_two_digits(text, day.month)?;
    push_char(text, '/')?;
    push_four_digits(text, day.year)
}
