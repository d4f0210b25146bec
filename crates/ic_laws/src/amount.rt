ghost use Rattle.std.specs.Prelude.{◌≡◌, ◌++◌, ◌∷◌, [], ◌+◌, ◌-◌, ◌*◌, ◌/◌, ◌%◌, ◌^◌, ◌<◌, ◌≤◌, ℕ, ℤ, pos, Some, chars, length, nat_abs, option_map, string_bytes, true, false, IfOk, IfSome, MatchOption, OnOk};
ghost use Rattle.std.specs.Fmt.{decimal};
ghost use Rattle.std.specs.Str.Parse.{digits_value};
ghost use Rattle.ic_laws.specs.Amount.{WritesUnits, amount_text, fraction_digits, is_amount, units_by, units_of, unsigned_amount, units_of_one, unsigned_text};
ghost use Rattle.ic_laws.specs.Scan.{is_digit, past_run, run_of};

use crate::OutOfMemory;
use crate::scan::{first_char, push_char};
use std::alloc::Global;
use std::marker::Model;

/// The units of one.
const ONE: u128 = 1_000_000_000;

/// The first number of units that is too many for an amount.
const TOO_MANY: u128 = 1_000_000_000_000_000_000_000_000_000;

/// The greatest whole part of an amount.
const GREATEST_WHOLE: u64 = 999_999_999_999_999_999;

/// A number of units of 10^-9, below 10^27 of them in absolute value.
#[derive(Clone, Copy, Debug, PartialEq)]
pub struct Amount {
    whole: u64,
    fraction: u32,
    is_below: bool,
}

const _: () = prove!(size_of::<Amount>() == 16);

impl Model for Amount {
    ghost use Rattle.std.specs.Prelude.{ℤ, pos, ◌≡◌, ◌<◌, ◌/◌, ◌%◌, nat_abs, int_lt, true};
    ghost use Rattle.ic_laws.specs.Amount.{is_amount, signed_units, units_of_one};
    ghost use Rattle.ic_laws.specs.AmountFields.{fields_again};

    ghost Value = { ℤ };

    ghost view = { λ a. signed_units a.is_below a.whole a.fraction };

    ghost invariant = { λ a. (is_amount (signed_units a.is_below a.whole a.fraction) ≡ true)
        × (a.fraction < units_of_one)
        × (a.is_below ≡ int_lt (signed_units a.is_below a.whole a.fraction) (pos 0)) };

    ghost inverse = { λ z. record {
      whole = nat_abs z / units_of_one;
      fraction = nat_abs z % units_of_one;
      is_below = int_lt z (pos 0);
    } };

    ghost inverse_ok = { λ a h. fields_again a.is_below a.whole a.fraction h.1 h.2 };
}

impl Amount {
    ghost use Rattle.std.specs.Prelude.{◌≡◌, true, false, MatchOption};
    ghost use Rattle.ic_laws.specs.Amount.{is_amount};

    /// The amount of so many units. None exactly where they are 10^27 or more, or -10^27 or less.
    pub fn from_units(units: i128) -> Option<Amount>
        ensures { MatchOption result (is_amount units ≡ false)
            (λ a. (a ≡ units) × (is_amount units ≡ true)) }
    {
        let size = units.unsigned_abs();
        if size >= TOO_MANY {
            return None;
        }
        Some(Amount {
            whole: (size / ONE) as u64,
            fraction: (size % ONE) as u32,
            is_below: units < 0,
        })
    }

    /// How many units of 10^-9 it has.
    pub fn units(&self) -> i128
        ensures exact { result ≡ self.now }
        ensures within { is_amount result ≡ true }
    {
        let size = (self.whole as u128 * ONE + self.fraction as u128) as i128;
        if self.is_below { -size } else { size }
    }
}

/// The text of an amount: the shortest decimal with this separator, and a minus where it is below 0. It has a digit
/// before the separator, no zero at the end after it, and no separator without digits after it.
pub fn amount_spelling(alloc: Global, v: Amount, decimal: char) -> Result<String, OutOfMemory>
    ensures exact { IfOk result (λ s. chars (string_bytes s) ≡ amount_text decimal v) }

    // An amount from 0 on is read back, by any separator that is no digit.
    ensures read_back { (n : ℕ) → v ≡ pos n → is_digit decimal ≡ false
        → IfOk result (λ s. unsigned_amount decimal (chars (string_bytes s)) ≡ Some n) }
{
    spelled(alloc, v, decimal)
}

// The same by the function alone.
fn spelled(alloc: Global, v: Amount, decimal: char) -> Result<String, OutOfMemory>
    ensures text { IfOk result (λ s. chars (string_bytes s) ≡ amount_text decimal v) }
    ensures within { is_amount v ≡ true }
{
    let mut text = String::new(alloc);
    push_amount(&mut text, v, decimal)?;
    Ok(text)
}

/// Appends the text of an amount, as `amount_spelling` gives it. Where memory runs out a front of it may stand there.
pub fn push_amount(text: &mut String, v: Amount, decimal: char) -> Result<(), OutOfMemory>
    ensures { OnOk result (chars (string_bytes text.new) ≡ chars (string_bytes text.old)
        ++ amount_text decimal v) }
{
    if v.is_below {
        push_char(text, '-')?;
    }
    push_parts(text, v.whole, v.fraction, decimal)
}

// Appends a whole part, and a fraction after the separator where there is one.
fn push_parts(
    text: &mut String,
    whole: u64,
    fraction: u32,
    decimal: char,
) -> Result<(), OutOfMemory>
    requires { fraction < units_of_one }
    ensures { OnOk result (chars (string_bytes text.new) ≡ chars (string_bytes text.old)
        ++ unsigned_text decimal (whole * units_of_one + fraction)) }
{
    push_number(text, whole)?;
    if fraction != 0 {
        push_char(text, decimal)?;
        push_fraction(text, fraction)?;
    }
    Ok(())
}

// Appends a number in decimal digits.
fn push_number(text: &mut String, n: u64) -> Result<(), OutOfMemory>
    ensures { OnOk result (chars (string_bytes text.new) ≡ chars (string_bytes text.old)
        ++ decimal n) }
{
    write!(text, "{n}")?;
    Ok(())
}

// Appends the nine digits of a fraction, up to the last one that isn't zero.
fn push_fraction(text: &mut String, fraction: u32) -> Result<(), OutOfMemory>
    requires { fraction < 10 ^ 9 }
    ensures { OnOk result (chars (string_bytes text.new) ≡ chars (string_bytes text.old)
        ++ fraction_digits 9 fraction) }
{
    let mut places = 9;
    let mut rest = fraction;
    while rest != 0 {
        places -= 1;
        let scale = scale(places);
        push_digit(text, rest / scale)?;
        rest %= scale;
    }
    Ok(())
}

// Appends one digit.
fn push_digit(text: &mut String, digit: u32) -> Result<(), OutOfMemory>
    requires { digit < 10 }
    ensures { OnOk result (chars (string_bytes text.new) ≡ chars (string_bytes text.old)
        ++ (48 + digit) ∷ []) }
{
    push_char(text, (b'0' + digit as u8) as char)
}

/// The amount that the whole text writes: digits with or without the separator and at most nine digits after it, or
/// the separator and one to nine digits. None exactly for every other text, and where it is no amount.
pub fn unsigned_amount(text: &str, decimal: char) -> Option<Amount>
    ensures exact { result ≡ option_map pos (unsigned_amount decimal (chars text.now)) }

    // What is answered is what the text writes; by a separator that is no digit, each amount that a text writes is answered.
    ensures written { IfSome result (λ a. (n : ℕ) × (a ≡ pos n)
        × WritesUnits decimal (chars text.now) n) }
    ensures each { (n : ℕ) → is_digit decimal ≡ false → WritesUnits decimal (chars text.now) n
        → result ≡ Some (pos n) }
{
    amount_of(text, decimal)
}

// The same by the function alone.
fn amount_of(text: &str, decimal: char) -> Option<Amount>
    ensures { result ≡ option_map pos (unsigned_amount decimal (chars text.now)) }
{
    Amount::from_units(unsigned_units(text, decimal)? as i128)
}

// The units that the text writes.
fn unsigned_units(text: &str, decimal: char) -> Option<u128>
    ensures { result ≡ unsigned_amount decimal (chars text.now) }
{
    let whole = digits_at(text, GREATEST_WHOLE)?;
    let Some((c, after)) = first_char(whole.rest) else {
        return units_by(whole.value, whole.count, 0, 0);
    };
    if c == decimal {
        units_of(whole.value, whole.count, after)
    } else {
        None
    }
}

// The units of a number whose whole part is known, with this text after the separator.
fn units_of(whole: u64, whole_count: usize, text: &str) -> Option<u128>
    requires whole_fits { whole < 10 ^ 18 }
    requires few { whole_count + length text.now < 2 ^ 64 }
    ensures { result ≡ units_of whole whole_count (chars text.now) }
{
    let fraction = digits_at(text, 999_999_999)?;
    match first_char(fraction.rest) {
        Some(_) => None,
        None => units_by(whole, whole_count, fraction.value, fraction.count),
    }
}

// The digits at the front of a text: the number that they write, how many they are, and what stands after them.
#[derive(Drop)]
struct Digits<'t> {
    value: u64,
    count: usize,
    rest: &'t str,
}

// The digits at the front of a text, where they write at most this number.
fn digits_at(text: &str, most: u64) -> Option<Digits<'_>>
    requires { most < 10 ^ 18 }
    ensures { let run = run_of is_digit (chars text.now) in
        MatchOption result (most < digits_value 10 run)
        (λ d. (d.value ≡ digits_value 10 run) × (d.count ≡ length run) × (d.value ≤ most)
        × (chars d.rest.now ≡ past_run is_digit (chars text.now))
        × (d.count + length d.rest.now ≤ length text.now)) }
{
    let mut value = 0;
    let mut count = 0;
    let mut rest = text;
    while let Some((c, after)) = first_char(rest) {
        if !c.is_ascii_digit() {
            break;
        }
        value = value * 10 + (c as u64 - 48);
        if value > most {
            return None;
        }
        count += 1;
        rest = after;
    }
    Some(Digits { value, count, rest })
}

// The units of a number with these digits before and after the separator: at least one and at most nine after it.
fn units_by(whole: u64, whole_count: usize, fraction: u64, fraction_count: usize) -> Option<u128>
    requires whole_fits { whole < 10 ^ 18 }
    requires fraction_fits { fraction < 10 ^ 9 }
    requires few { whole_count + fraction_count < 2 ^ 64 }
    ensures { result ≡ units_by whole whole_count fraction fraction_count }
{
    if fraction_count > 9 || (whole_count == 0 && fraction_count == 0) {
        return None;
    }
    let units = whole as u128 * ONE + fraction as u128 * scale(9 - fraction_count as u32) as u128;
    if units < TOO_MANY { Some(units) } else { None }
}

// Ten to the power of at most nine.
fn scale(places: u32) -> u32
    requires { places ≤ 9 }
    ensures value { result ≡ 10 ^ places }
    ensures bounds { (0 < result) × (result ≤ 10 ^ 9) }
{
    10u32.pow(places)
}
