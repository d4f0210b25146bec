//! Digits at the front of a text, plain and in groups of three.
ghost use Rattle.std.specs.Prelude.{◌≡◌, ◌+◌, ◌^◌, ◌<◌, ◌≤◌, [], ◌∷◌, true, not, ◌&&◌, ◌==◌, min, chars, length, option_map, IfSome};
ghost use Rattle.std.specs.Str.Parse.{digits_value, digits_value_after};
ghost use Rattle.ic_laws.specs.Scan.{is_digit, past_run, run_of};
ghost use Rattle.ic_input.specs.Convention.{is_nothing};
ghost use Rattle.ic_input.specs.Group.{group_at, past_threes, threes};

use ic_laws::scan::first_char;

/// A whole part that is too large for any amount, a percentage too. Greater numbers are counted as this.
const TOO_LARGE: u128 = 100_000_000_000_000_000_000;

/// Digits at the front of a text: the number that they write, up to `TOO_LARGE`, how many they are, and what stands
/// after them.
#[derive(Drop)]
pub(crate) struct Digits<'t> {
    pub(crate) value: u128,
    pub(crate) count: usize,
    pub(crate) rest: &'t str,
}

/// The digits at the front of a text.
pub(crate) fn digits_at(text: &str) -> Digits<'_>
    ensures value { result.value ≡ min (digits_value 10 (run_of is_digit (chars text.now)))
        (10 ^ 20) }
    ensures count { result.count ≡ length (run_of is_digit (chars text.now)) }
    ensures rest { chars result.rest.now ≡ past_run is_digit (chars text.now) }
    ensures short { result.count + length result.rest.now ≤ length text.now }
{
    let mut value = 0;
    let mut count = 0;
    let mut rest = text;
    while let Some((c, after)) = first_char(rest) {
        if !c.is_ascii_digit() {
            break;
        }
        value = (value * 10 + (c as u128 - 48)).min(TOO_LARGE);
        count += 1;
        rest = after;
    }
    Digits { value, count, rest }
}

/// Groups at the front of a text, each three digits after a separator: the number that they write after an earlier one,
/// up to `TOO_LARGE`, whether there are any, and what stands after them.
#[derive(Drop)]
pub(crate) struct Groups<'t> {
    pub(crate) value: u128,
    pub(crate) are_some: bool,
    pub(crate) rest: &'t str,
}

/// The groups at the front of a text, after digits that write a number.
pub(crate) fn groups_at(earlier: u128, text: &str, separator: char) -> Groups<'_>
    requires { earlier ≤ 10 ^ 20 }
    ensures value { result.value ≡ min (digits_value_after 10 earlier
        (threes separator (chars text.now))) (10 ^ 20) }
    ensures are_some { result.are_some ≡ not (is_nothing (threes separator (chars text.now))) }
    ensures rest { chars result.rest.now ≡ past_threes separator (chars text.now) }
{
    let mut value = earlier;
    let mut are_some = false;
    let mut rest = text;
    while let Some((three, after)) = group_at(rest, separator) {
        value = (value * 1000 + u128::from(three)).min(TOO_LARGE);
        are_some = true;
        rest = after;
    }
    Groups {
        value,
        are_some,
        rest,
    }
}

// The number of the three digits after a separator at the front of a text, and what stands after them.
fn group_at(text: &str, separator: char) -> Option<(u32, &str)>
    ensures value { option_map (λ p. (p.0, chars p.1.now)) result
        ≡ group_at separator (chars text.now) }
    ensures shorter { IfSome result (λ p. (p.0 < 1000) × (length p.1.now < length text.now)) }
{
    let (s, text) = first_char(text)?;
    let (a, text) = first_char(text)?;
    let (b, text) = first_char(text)?;
    let (c, rest) = first_char(text)?;
    if is_group(separator, s, a, b, c) {
        Some((three(a, b, c), rest))
    } else {
        None
    }
}

// Whether three digits stand after a separator.
fn is_group(separator: char, s: char, a: char, b: char, c: char) -> bool
    ensures value { result ≡ (s == separator && is_digit a && is_digit b && is_digit c) }
    ensures digits { result ≡ true → (is_digit a ≡ true) × (is_digit b ≡ true)
        × (is_digit c ≡ true) }
{
    s == separator && a.is_ascii_digit() && b.is_ascii_digit() && c.is_ascii_digit()
}

// The number that three digits write.
fn three(a: char, b: char, c: char) -> u32
    requires hundreds { is_digit a ≡ true }
    requires tens { is_digit b ≡ true }
    requires ones { is_digit c ≡ true }
    ensures value { result ≡ digits_value 10 (a ∷ b ∷ c ∷ []) }
    ensures below { result < 1000 }
{
    (a as u32 - 48) * 100 + (b as u32 - 48) * 10 + (c as u32 - 48)
}
