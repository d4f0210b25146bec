ghost use Rattle.std.specs.Prelude.{◌≡◌, ◌≤◌, ◌<◌, ◌^◌, ◌≤ℤ◌, nat_abs, MatchResult, chars, pos, neg_ℤ};
ghost use Rattle.ic_laws.specs.Scan.{is_digit, past_run};
ghost use Rattle.ic_refs.specs.R1C1.{Gives, number_at, absolute, wrapped, offset, past_bracket, offset_on_at, offset_back_at, offset_at, absolute_at, part_at};

use crate::error::ReferenceError;
use crate::number::read_number;
use ic_laws::scan::{begins_with_digit, first_char};

// The number of all digits at the front, and the rest.
#[tactic(auto, using(crate::proofs::R1C1NumberLemmas::number_missing, crate::proofs::R1C1NumberLemmas::number_large))]
fn read_whole_number(most: u32, text: &str) -> Result<(u32, &str), ReferenceError>
    requires { most ≤ 2 ^ 31 }
    ensures { MatchResult result
        (λ f. (number_at most (chars text.now) ≡ Ok f.0)
        × (chars f.1.now ≡ past_run is_digit (chars text.now)) × (f.0 ≤ most))
        (λ e. number_at most (chars text.now) ≡ Err e) }
{
    if !begins_with_digit(text) {
        return Err(ReferenceError::ExpectedNumber);
    }
    let (number, rest) = read_number(most, text);
    if begins_with_digit(rest) {
        return Err(ReferenceError::ExpectedNumber);
    }
    Ok((number, rest))
}

// The row or the column of this number, if a sheet of this length has it.
fn absolute(length: u32, number: u32) -> Result<i32, ReferenceError>
    requires { length < 2 ^ 21 }
    ensures { result ≡ absolute length number }
{
    if 0 < number && number <= length {
        Ok(number as i32)
    } else {
        Err(ReferenceError::OutsideSheet)
    }
}

// The row or the column so far from this one, round the end of a sheet of this length.
fn wrapped(length: u32, origin: i32, distance: i32) -> i32
    requires some { 0 < length }
    requires most { length < 2 ^ 21 }
    requires low { pos 1 ≤ℤ origin }
    requires high { origin ≤ℤ pos length }
    requires back { neg_ℤ (pos length) ≤ℤ distance }
    requires on { distance ≤ℤ pos length }
    ensures { result ≡ wrapped length origin distance }
{
    (origin + distance - 1).rem_euclid(length as i32) + 1
}

// The row or the column that is this offset away, if the offset is less than the sheet's length.
fn offset(length: u32, origin: i32, k: i64, distance: u32) -> Result<i32, ReferenceError>
    requires some { 0 < length }
    requires most { length < 2 ^ 21 }
    requires low { pos 1 ≤ℤ origin }
    requires high { origin ≤ℤ pos length }
    requires size { nat_abs k ≡ distance }
    ensures { result ≡ offset length origin k distance }
{
    if distance < length {
        Ok(wrapped(length, origin, k as i32))
    } else {
        Err(ReferenceError::OffsetTooLarge)
    }
}

// The same of an offset back.
#[tactic(auto, using(crate::proofs::StoredLemmas::nat_abs_neg))]
fn offset_back(length: u32, origin: i32, distance: u32) -> Result<i32, ReferenceError>
    requires some { 0 < length }
    requires most { length < 2 ^ 21 }
    requires low { pos 1 ≤ℤ origin }
    requires high { origin ≤ℤ pos length }
    ensures { result ≡ offset length origin (neg_ℤ (pos distance)) distance }
{
    let back = -i64::from(distance);
    offset(length, origin, back, distance)
}

// What stands after the closing bracket at the front.
fn past_bracket(place: i32, text: &str) -> Result<(i32, &str), ReferenceError>
    ensures { Gives (λ f. (f.0, chars f.1.now)) result (past_bracket place (chars text.now)) }
{
    match first_char(text) {
        Some((']', rest)) => Ok((place, rest)),
        _ => Err(ReferenceError::ExpectedBracket),
    }
}

// An offset on, and the bracket that closes it.
fn read_offset_on(length: u32, origin: i32, text: &str) -> Result<(i32, &str), ReferenceError>
    requires some { 0 < length }
    requires most { length < 2 ^ 21 }
    requires low { pos 1 ≤ℤ origin }
    requires high { origin ≤ℤ pos length }
    ensures { Gives (λ f. (f.0, chars f.1.now)) result
        (offset_on_at length origin (chars text.now)) }
{
    let (number, rest) = read_whole_number(2_147_483_647, text)?;
    let place = offset(length, origin, i64::from(number), number)?;
    past_bracket(place, rest)
}

// An offset back, and the bracket that closes it.
fn read_offset_back(length: u32, origin: i32, text: &str) -> Result<(i32, &str), ReferenceError>
    requires some { 0 < length }
    requires most { length < 2 ^ 21 }
    requires low { pos 1 ≤ℤ origin }
    requires high { origin ≤ℤ pos length }
    ensures { Gives (λ f. (f.0, chars f.1.now)) result
        (offset_back_at length origin (chars text.now)) }
{
    let (number, rest) = read_whole_number(2_147_483_648, text)?;
    let place = offset_back(length, origin, number)?;
    past_bracket(place, rest)
}

// What stands after an opening bracket.
fn read_offset(length: u32, origin: i32, text: &str) -> Result<(i32, &str), ReferenceError>
    requires some { 0 < length }
    requires most { length < 2 ^ 21 }
    requires low { pos 1 ≤ℤ origin }
    requires high { origin ≤ℤ pos length }
    ensures { Gives (λ f. (f.0, chars f.1.now)) result (offset_at length origin (chars text.now)) }
{
    match first_char(text) {
        None => Err(ReferenceError::ExpectedNumber),
        Some(('-', after)) => read_offset_back(length, origin, after),
        Some(_) => read_offset_on(length, origin, text),
    }
}

// An absolute number.
fn read_absolute(length: u32, text: &str) -> Result<(i32, &str), ReferenceError>
    requires { length < 2 ^ 21 }
    ensures { Gives (λ f. (f.0, chars f.1.now)) result (absolute_at length (chars text.now)) }
{
    let (number, rest) = read_whole_number(2_147_483_647, text)?;
    let place = absolute(length, number)?;
    Ok((place, rest))
}

/// What stands after the letter: a number, an offset, or nothing, which is the place of the cell.
pub(crate) fn read_part(length: u32, origin: i32, text: &str) -> Result<(i32, &str), ReferenceError>
    requires some { 0 < length }
    requires most { length < 2 ^ 21 }
    requires low { pos 1 ≤ℤ origin }
    requires high { origin ≤ℤ pos length }
    ensures { Gives (λ f. (f.0, chars f.1.now)) result (part_at length origin (chars text.now)) }
{
    match first_char(text) {
        None => Ok((origin, text)),
        Some(('[', after)) => read_offset(length, origin, after),
        Some((c, _)) if c.is_ascii_digit() => read_absolute(length, text),
        Some(_) => Ok((origin, text)),
    }
}
