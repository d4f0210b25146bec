ghost use Rattle.std.specs.Prelude.{◌≡◌, ◌∷◌, List, IfOk, option_map};
ghost use Rattle.ic_laws.specs.Parse.{amount_of, array, constant, past_row_sign, row};
ghost use Rattle.ic_tree.specs.Listing.{all_listed};
ghost use Rattle.ic_laws.specs.Token as tokens;

use super::sign::{take_brace, take_row_sign, take_separator};
use crate::{Measured, Token, TokenSource};
use ic_laws::{Amount, BinarySign, Constant, Dialect, Items, OutOfMemory, Tree};
use std::alloc::Global;

/// Reads an amount of an array, before which a sign is taken: a minus.
fn read_negative<S: TokenSource>(
    alloc: Global,
    source: &mut S,
    sign: BinarySign,
) -> Result<Option<Constant>, OutOfMemory>
    ensures { IfOk result (λ r. option_map (λ c. (c, S.left source.new)) r
        ≡ constant (tokens.Operator sign ∷ S.left source.old)) }
{
    if sign != BinarySign::Minus {
        return Ok(None);
    }
    let Some(token) = source.next(alloc)? else {
        return Ok(None);
    };
    match token {
        Token::Num(amount) => Ok(number(true, amount)),
        _ => Ok(None),
    }
}

/// An amount of an array, from 0 on.
fn number(minus: bool, amount: Amount) -> Option<Constant>
    ensures { (rest : List tokens.Token) → option_map (λ c. (c, rest)) result
        ≡ amount_of minus (tokens.Num amount ∷ rest) }
{
    if amount.units() < 0 {
        return None;
    }
    Some(Constant::Num { minus, amount })
}

/// Reads a constant of an array.
fn read_constant<S: TokenSource>(
    alloc: Global,
    source: &mut S,
) -> Result<Option<Constant>, OutOfMemory>
    ensures { IfOk result (λ r. option_map (λ c. (c, S.left source.new)) r
        ≡ constant (S.left source.old)) }
{
    let Some(token) = source.next(alloc)? else {
        return Ok(None);
    };
    match token {
        Token::Operator(sign) => Ok(read_negative(alloc, source, sign)?),
        Token::Num(amount) => Ok(number(false, amount)),
        Token::Str(text) => Ok(Some(Constant::Str(text))),
        Token::Boolean(value) => Ok(Some(Constant::Bool(value))),
        Token::Err(error) => Ok(Some(Constant::Err(error))),
        _ => Ok(None),
    }
}

/// Reads a row of an array.
fn read_row<S: TokenSource>(
    alloc: Global,
    source: &mut S,
) -> Result<Option<Items<Constant>>, OutOfMemory>
    ensures { IfOk result (λ r. option_map (λ cs. (cs, S.left source.new)) r
        ≡ row (S.left source.old)) }
{
    let mut constants = Vec::new(alloc);
    'items: loop {
        let Some(next) = read_constant(alloc, source)? else {
            return Ok(None);
        };
        constants.push(next)?;
        if !take_separator(alloc, source)? {
            constants.shrink_to_fit();
            return Ok(Some(Items::from(constants)));
        }
    }
}

/// Reads the rows of an array.
fn read_rows<D: Dialect, S: TokenSource>(
    alloc: Global,
    d: &D,
    source: &mut S,
) -> Result<Option<Items<Items<Constant>>>, OutOfMemory>
    ensures { IfOk result (λ r. option_map (λ rows. (rows, S.left source.new)) r
        ≡ all_listed row (past_row_sign (D.meaning d.now)) (S.left source.old)) }
{
    let mut rows = Vec::new(alloc);
    'items: loop {
        let Some(next) = read_row(alloc, source)? else {
            return Ok(None);
        };
        rows.push(next)?;
        if !take_row_sign(alloc, d, source)? {
            rows.shrink_to_fit();
            return Ok(Some(Items::from(rows)));
        }
    }
}

/// Reads an array, whose opening brace is taken.
#[tactic(auto, unfolding(ic_laws::specs::Parse::array))]
pub fn read_array<D: Dialect, S: TokenSource>(
    alloc: Global,
    d: &D,
    source: &mut S,
    most: usize,
) -> Result<Option<Measured>, OutOfMemory>
    ensures { IfOk result (λ r. option_map (λ t. (t, S.left source.new)) r
        ≡ array (D.meaning d.now) most (S.left source.old)) }
{
    let Some(rows) = read_rows(alloc, d, source)? else {
        return Ok(None);
    };
    if !take_brace(alloc, source)? {
        return Ok(None);
    }
    Ok(Measured::leaf(alloc, Tree::Array(rows), most)?)
}
