ghost use Rattle.std.specs.Prelude.{◌≡◌, ◌+◌, ◌*◌, ◌<◌, ◌≤◌, ◌^◌, pos, Some, chars, length, option_map, false, ◌||◌, ◌==◌, IfSome};
ghost use Rattle.std.specs.Str.Parse.{digits_value};
ghost use Rattle.ic_laws.specs.Amount.{units_by, units_of_one};
ghost use Rattle.ic_laws.specs.AmountFront.{digits_to, last_whole, number_in_one_pass, past_fraction, past_some, past_to, some_digits};
ghost use Rattle.ic_tree.specs.Lexing.{IsWholeNumber, fraction_run, seen_token};
ghost use Rattle.ic_laws.specs.Scan.{first_is, joins};

use crate::lexer::seen::Seen;
use ic_laws::scan::{begins_with, first_char, is_word_character};
use ic_laws::{Amount, Dialect};

/// The units of one.
const ONE: u128 = 1_000_000_000;

/// The greatest whole part of an amount.
const GREATEST_WHOLE: u64 = 999_999_999_999_999_999;

/// The longest amount at the front of a text, and the rest.
pub(crate) fn number_at<'t, D: Dialect>(d: &D, text: &'t str) -> Option<(Seen<'t>, &'t str)>
    ensures { option_map (λ f. (seen_token f.0, chars f.1.now)) result
        ≡ number_in_one_pass (D.meaning d.now) (chars text.now) }
{
    let whole = whole_part(text);
    let fraction = fraction_part(whole.rest, d.decimal());
    match amount_by(whole.value, whole.count, fraction.value, fraction.count) {
        Some(amount) => Some((Seen::Num(amount), fraction.rest)),
        None => None,
    }
}

/// The whole number at the front of a text, and the rest, where it has no zero in front and nothing goes on with it: there
/// no reference is as long.
pub(crate) fn whole_number<'t, D: Dialect>(d: &D, text: &'t str) -> Option<(Seen<'t>, &'t str)>
    ensures { IfSome result (λ f. IsWholeNumber (D.meaning d.now) (chars text.now)
        (seen_token f.0) (chars f.1.now)) }
{
    let whole = whole_part(text);
    if whole.count == 0 || whole.count > 1 && begins_with(text, '0') {
        return None;
    }
    if goes_on(whole.rest, d.decimal()) {
        return None;
    }
    match whole_amount(whole.value) {
        Some(amount) => Some((Seen::Num(amount), whole.rest)),
        None => None,
    }
}

/// The amount of a whole number.
fn whole_amount(whole: u64) -> Option<Amount>
    requires { whole ≤ last_whole }
    ensures { result ≡ Some (pos (whole * units_of_one)) }
{
    Amount::from_units((whole as u128 * ONE) as i128)
}

/// Whether a character that goes on with a word, a reference or a number stands at the front.
fn goes_on(text: &str, decimal: char) -> bool
    ensures { result ≡ first_is (λ c. joins c || c == decimal) (chars text.now) }
{
    match first_char(text) {
        Some((c, _)) => {
            is_word_character(c) || matches!(c, '!' | ':' | '$' | '[') || c == decimal
        }
        None => false,
    }
}

/// Digits: the number that they write, how many they are, and what stands after them.
#[derive(Drop)]
struct Digits<'t> {
    value: u64,
    count: usize,
    rest: &'t str,
}

/// The digits at the front of a text while they write no more than the greatest whole part.
fn whole_part(text: &str) -> Digits<'_>
    ensures value { result.value ≡ digits_value 10 (digits_to last_whole 0 (chars text.now)) }
    ensures count { result.count ≡ length (digits_to last_whole 0 (chars text.now)) }
    ensures rest { chars result.rest.now ≡ past_to last_whole 0 (chars text.now) }
    ensures small { result.value ≤ last_whole }
    ensures few { result.count + length result.rest.now ≤ length text.now }
{
    let mut value = 0;
    let mut count = 0;
    let mut rest = text;
    while let Some((c, after)) = first_char(rest) {
        if !c.is_ascii_digit() {
            break;
        }
        let more = value * 10 + (c as u64 - 48);
        if more > GREATEST_WHOLE {
            break;
        }
        value = more;
        count += 1;
        rest = after;
    }
    Digits { value, count, rest }
}

/// The digits after a separator at the front, at most nine; what stands after them.
fn fraction_part(text: &str, decimal: char) -> Digits<'_>
    ensures value { result.value ≡ digits_value 10 (fraction_run decimal (chars text.now)) }
    ensures count { result.count ≡ length (fraction_run decimal (chars text.now)) }
    ensures rest { chars result.rest.now ≡ past_fraction decimal (chars text.now) }
    ensures small { result.value < 10 ^ 9 }
    ensures few { result.count ≤ 9 }
{
    match first_char(text) {
        Some((c, after)) if c == decimal => nine_digits(after),
        _ => Digits {
            value: 0,
            count: 0,
            rest: text,
        },
    }
}

/// At most nine digits.
fn nine_digits(text: &str) -> Digits<'_>
    ensures value { result.value ≡ digits_value 10 (some_digits 9 (chars text.now)) }
    ensures count { result.count ≡ length (some_digits 9 (chars text.now)) }
    ensures rest { chars result.rest.now ≡ past_some 9 (chars text.now) }
    ensures small { result.value < 10 ^ 9 }
    ensures few { result.count ≤ 9 }
{
    let mut value = 0;
    let mut count = 0;
    let mut rest = text;
    while let Some((c, after)) = first_char(rest) {
        if count == 9 || !c.is_ascii_digit() {
            break;
        }
        value = value * 10 + (c as u64 - 48);
        count += 1;
        rest = after;
    }
    Digits { value, count, rest }
}

/// The amount of a number with these digits before and after the separator; None where there are none.
fn amount_by(whole: u64, whole_count: usize, fraction: u64, fraction_count: usize) -> Option<Amount>
    requires whole_fits { whole ≤ last_whole }
    requires fraction_fits { fraction < 10 ^ 9 }
    requires few { fraction_count ≤ 9 }
    ensures { result ≡ option_map pos (units_by whole whole_count fraction fraction_count) }
{
    if whole_count == 0 && fraction_count == 0 {
        return None;
    }
    let units = whole as u128 * ONE + fraction as u128 * scale(9 - fraction_count as u32) as u128;
    Amount::from_units(units as i128)
}

/// Ten to the power of at most nine.
fn scale(places: u32) -> u32
    requires { places ≤ 9 }
    ensures value { result ≡ 10 ^ places }
    ensures bounds { (0 < result) × (result ≤ 10 ^ 9) }
{
    10u32.pow(places)
}
