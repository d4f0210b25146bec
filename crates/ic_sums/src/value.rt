//! What two values give by a sign.

use ic_cells::{ErrorNote, FormulaValue};
use ic_laws::{Amount, BinarySign, Error, agree};

/// The units of one: a number is so many units of 10^-9, as an `Amount`.
pub(crate) const ONE: i128 = 1_000_000_000;

/// An error of which nothing is noted.
pub(crate) fn error(ei: Error) -> FormulaValue {
    let note = ErrorNote::empty();
    FormulaValue::Error { ei, note }
}

/// The number of so many units, or the error of one that is no amount.
pub(crate) fn number(units: Option<i128>) -> FormulaValue {
    match units.and_then(Amount::from_units) {
        Some(amount) => FormulaValue::Number(amount),
        None => error(Error::NUM),
    }
}

/// What a sign makes of two values. Two texts are compared as names are. A circle is told first, and else the first error.
pub(crate) fn combined(
    sign: BinarySign,
    left: &FormulaValue,
    right: &FormulaValue,
) -> FormulaValue {
    match (sign, left, right) {
        (BinarySign::Equal | BinarySign::Unequal, FormulaValue::Text(a), FormulaValue::Text(b)) => {
            let agrees = agree(a.as_ref().as_str(), b.as_ref().as_str());
            FormulaValue::Boolean(agrees == (sign == BinarySign::Equal))
        }
        _ => match (units_of(left), units_of(right)) {
            (Ok(a), Ok(b)) => of_numbers(sign, a, b),
            (_, Err(Error::CIRC)) => error(Error::CIRC),
            (Err(fault), _) | (_, Err(fault)) => error(fault),
        },
    }
}

/// What a sign makes of two numbers.
fn of_numbers(sign: BinarySign, a: i128, b: i128) -> FormulaValue {
    match sign {
        BinarySign::Plus => number(a.checked_add(b)),
        BinarySign::Minus => number(a.checked_sub(b)),
        BinarySign::Times => number(quotient(a.checked_mul(b), ONE)),
        BinarySign::Over if b == 0 => error(Error::DIV),
        BinarySign::Over => number(quotient(a.checked_mul(ONE), b)),
        BinarySign::Equal => FormulaValue::Boolean(a == b),
        BinarySign::Unequal => FormulaValue::Boolean(a != b),
        BinarySign::Less => FormulaValue::Boolean(a < b),
        BinarySign::Greater => FormulaValue::Boolean(a > b),
        BinarySign::AtMost => FormulaValue::Boolean(a <= b),
        BinarySign::AtLeast => FormulaValue::Boolean(a >= b),
        BinarySign::Join | BinarySign::Power => error(Error::NIMPL),
    }
}

/// A value as a number: nothing is 0, and TRUE is 1.
fn units_of(value: &FormulaValue) -> Result<i128, Error> {
    match value {
        FormulaValue::Number(amount) => Ok(amount.units()),
        FormulaValue::Boolean(truth) => Ok(if *truth { ONE } else { 0 }),
        FormulaValue::Error { ei, .. } => Err(*ei),
        FormulaValue::Text(_) | FormulaValue::Unevaluated => Err(Error::VALUE),
    }
}

/// A number divided by another, rounded to the nearest whole one, and halves away from 0.
fn quotient(a: Option<i128>, b: i128) -> Option<i128> {
    let half = if (a? < 0) == (b < 0) { b / 2 } else { -(b / 2) };
    a?.checked_add(half)?.checked_div(b)
}
