ghost use Rattle.std.specs.Prelude.{◌≡◌, ◌∷◌, ◌<◌, ◌-◌, [], IfOk, IfSome, Some, None, option_map};
ghost use Rattle.ic_laws.specs.Parse.{argument, arguments, binary, bracketed, followed, function_call, lambda_call, let_call, name_call, operand, parsed, past_close, past_separator, postfix, primary, reader, turns};
ghost use Rattle.ic_tree.specs.Listing.{all_listed};
ghost use Rattle.ic_tree.specs.Tokens.{token_of};
ghost use Rattle.ic_tree.specs.Turn.{IsTurn, turn_of};
ghost use Rattle.ic_tree.specs.Typed.{as_typed};

mod array;
mod binder;
mod gathered;
mod leaf;
mod sign;

use crate::{Ahead, Measured, Token, TokenSource};
use array::read_array;
use binder::{Begun, next_part};
pub use gathered::{Arguments, Pairs};
use ic_laws::{Bound, Dialect, OutOfMemory, Text};
use leaf::{is_called_name, read_leaf};
use sign::{ends_argument, level_of, sign_before, take_close, take_separator};
use std::alloc::Global;

/// What a turn makes of a tree.
#[derive(Drop)]
pub enum Turn {
    /// The tree takes nothing more.
    Stays(Measured),
    /// What follows cannot be read.
    Fails,
    /// The tree with what it took.
    Takes(Measured),
}

/// The tree of all the tokens that are left, None where they have none: a tree of height at most 1,024, with at most 128
/// brackets open at one place. After a tree no token is left.
#[tactic(auto, using(crate::proofs::Operands::at_end))]
pub fn parse<D: Dialect, S: TokenSource>(
    alloc: Global,
    d: &D,
    source: &mut S,
) -> Result<Option<Bound>, OutOfMemory>
    ensures tree { IfOk result (λ r. option_map as_typed r
        ≡ parsed (D.meaning d.now) (S.left source.old)) }
    ensures whole { IfOk result (λ r. IfSome r (λ t. S.left source.new ≡ [])) }
{
    let Some(tree) = read(alloc, d, source, 1024, 128, 1)? else {
        return Ok(None);
    };
    match source.ahead() {
        Ahead::End => Ok(Some(tree.into_tree())),
        _ => Ok(None),
    }
}

// Reads a tree no higher than `most`, with `b` brackets left to open, that binds at least so tightly.
#[cycle(read)]
fn read<D: Dialect, S: TokenSource>(
    alloc: Global,
    d: &D,
    source: &mut S,
    most: usize,
    b: usize,
    least: usize,
) -> Result<Option<Measured>, OutOfMemory>
    ensures { IfOk result (λ r. option_map (λ t. (t, S.left source.new)) r
        ≡ reader (D.meaning d.now) most b least (S.left source.old)) }
{
    let Some(token) = source.next(alloc)? else {
        return Ok(None);
    };
    Ok(read_from(alloc, d, source, most, b, least, token)?)
}

// The same, where the first token is taken.
#[cycle(read)]
fn read_from<D: Dialect, S: TokenSource>(
    alloc: Global,
    d: &D,
    source: &mut S,
    most: usize,
    b: usize,
    least: usize,
    token: Token,
) -> Result<Option<Measured>, OutOfMemory>
    ensures { IfOk result (λ r. option_map (λ t. (t, S.left source.new)) r
        ≡ reader (D.meaning d.now) most b least (token_of token ∷ S.left source.old)) }
{
    if most == 0 {
        return Ok(None);
    }
    let Some(first) = read_operand(alloc, d, source, most, b, token)? else {
        return Ok(None);
    };
    Ok(read_binaries(alloc, d, source, most, b, least, first)?)
}

// An operand with the signs before and after it.
#[cycle(read)]
fn read_operand<D: Dialect, S: TokenSource>(
    alloc: Global,
    d: &D,
    source: &mut S,
    most: usize,
    b: usize,
    token: Token,
) -> Result<Option<Measured>, OutOfMemory>
    requires { 0 < most }
    ensures { IfOk result (λ r. option_map (λ t. (t, S.left source.new)) r
        ≡ operand (D.meaning d.now) most (reader (D.meaning d.now) (most - 1)) b
        (token_of token ∷ S.left source.old)) }
{
    match sign_before(&token) {
        Some(sign) => {
            let Some(x) = read(alloc, d, source, most - 1, b, 6)? else {
                return Ok(None);
            };
            Ok(x.prefix(alloc, most, sign)?)
        }
        None => {
            let Some(first) = read_primary(alloc, d, source, most, b, token)? else {
                return Ok(None);
            };
            Ok(read_postfixes(alloc, d, source, most, b, first)?)
        }
    }
}

// An operand without signs.
#[cycle(read)]
fn read_primary<D: Dialect, S: TokenSource>(
    alloc: Global,
    d: &D,
    source: &mut S,
    most: usize,
    b: usize,
    token: Token,
) -> Result<Option<Measured>, OutOfMemory>
    requires { 0 < most }
    ensures { IfOk result (λ r. option_map (λ t. (t, S.left source.new)) r
        ≡ primary (D.meaning d.now) most (reader (D.meaning d.now) (most - 1)) b (token_of token)
        (S.left source.old)) }
{
    match token {
        Token::FunHead(number) => {
            if b == 0 {
                return Ok(None);
            }
            Ok(read_function(alloc, d, source, most, b - 1, number)?)
        }
        Token::NameHead(name) => {
            if b == 0 {
                return Ok(None);
            }
            Ok(read_name_call(alloc, d, source, most, b - 1, name)?)
        }
        Token::Open => {
            if b == 0 {
                return Ok(None);
            }
            Ok(read_bracketed(alloc, d, source, most, b - 1)?)
        }
        Token::OpenBrace => {
            if b == 0 {
                return Ok(None);
            }
            Ok(read_array(alloc, d, source, most)?)
        }
        token => Ok(read_leaf(alloc, most, token)?),
    }
}

// A tree between brackets, the first of which is taken.
#[cycle(read)]
fn read_bracketed<D: Dialect, S: TokenSource>(
    alloc: Global,
    d: &D,
    source: &mut S,
    most: usize,
    b: usize,
) -> Result<Option<Measured>, OutOfMemory>
    requires { 0 < most }
    ensures { IfOk result (λ r. option_map (λ t. (t, S.left source.new)) r
        ≡ bracketed most (reader (D.meaning d.now) (most - 1)) b (S.left source.old)) }
{
    let Some(x) = read(alloc, d, source, most - 1, b, 1)? else {
        return Ok(None);
    };
    if !take_close(alloc, source)? {
        return Ok(None);
    }
    Ok(x.paren(alloc, most)?)
}

// An operand with all that stands after it.
#[cycle(read)]
fn read_postfixes<D: Dialect, S: TokenSource>(
    alloc: Global,
    d: &D,
    source: &mut S,
    most: usize,
    b: usize,
    first: Measured,
) -> Result<Option<Measured>, OutOfMemory>
    requires { 0 < most }
    ensures { IfOk result (λ r. option_map (λ t. (t, S.left source.new)) r
        ≡ turns (postfix most (reader (D.meaning d.now) (most - 1)) b) most first
        (S.left source.old)) }
{
    let mut left = first;
    'turns: for turn in 0..most {
        match read_postfix(alloc, d, source, most, b, left)? {
            Turn::Stays(same) => return Ok(Some(same)),
            Turn::Fails => return Ok(None),
            Turn::Takes(next) => left = next,
        }
    }
    Ok(None)
}

// What stands after an operand.
#[cycle(read)]
fn read_postfix<D: Dialect, S: TokenSource>(
    alloc: Global,
    d: &D,
    source: &mut S,
    most: usize,
    b: usize,
    left: Measured,
) -> Result<Turn, OutOfMemory>
    requires { 0 < most }
    ensures { IfOk result (λ r. IsTurn (postfix most (reader (D.meaning d.now) (most - 1)) b left
        (S.left source.old)) left (S.left source.old) r (S.left source.new)) }
{
    match source.ahead() {
        Ahead::Percent => {
            source.skip(alloc)?;
            Ok(taken(left.percent(alloc, most)?))
        }
        Ahead::Hash => {
            source.skip(alloc)?;
            Ok(taken(left.spill(alloc, most)?))
        }
        Ahead::Open => {
            if !left.is_callable() {
                return Ok(Turn::Stays(left));
            }
            if b == 0 {
                return Ok(Turn::Fails);
            }
            source.skip(alloc)?;
            match read_arguments(alloc, d, source, most, b - 1)? {
                Some(found) => Ok(taken(left.apply(alloc, most, found)?)),
                None => Ok(Turn::Fails),
            }
        }
        _ => Ok(Turn::Stays(left)),
    }
}

// A turn that takes a tree, where there is one.
fn taken(tree: Option<Measured>) -> Turn
    ensures { result ≡ turn_of tree }
{
    match tree {
        Some(tree) => Turn::Takes(tree),
        None => Turn::Fails,
    }
}

// A tree with all that is joined to it.
#[cycle(read)]
fn read_binaries<D: Dialect, S: TokenSource>(
    alloc: Global,
    d: &D,
    source: &mut S,
    most: usize,
    b: usize,
    least: usize,
    first: Measured,
) -> Result<Option<Measured>, OutOfMemory>
    requires { 0 < most }
    ensures { IfOk result (λ r. option_map (λ t. (t, S.left source.new)) r
        ≡ turns (binary most (reader (D.meaning d.now) (most - 1)) b least) most first
        (S.left source.old)) }
{
    let mut left = first;
    'turns: for turn in 0..most {
        match read_binary(alloc, d, source, most, b, least, left)? {
            Turn::Stays(same) => return Ok(Some(same)),
            Turn::Fails => return Ok(None),
            Turn::Takes(next) => left = next,
        }
    }
    Ok(None)
}

// What is joined to a tree: a sign that binds at least so tightly, and an operand.
#[cycle(read)]
fn read_binary<D: Dialect, S: TokenSource>(
    alloc: Global,
    d: &D,
    source: &mut S,
    most: usize,
    b: usize,
    least: usize,
    left: Measured,
) -> Result<Turn, OutOfMemory>
    requires { 0 < most }
    ensures { IfOk result (λ r. IsTurn (binary most (reader (D.meaning d.now) (most - 1)) b least
        left (S.left source.old)) left (S.left source.old) r (S.left source.new)) }
{
    let Ahead::Operator(sign) = source.ahead() else {
        return Ok(Turn::Stays(left));
    };
    let level = level_of(sign);
    if level < least {
        return Ok(Turn::Stays(left));
    }
    source.skip(alloc)?;
    let Some(right) = read(alloc, d, source, most - 1, b, level + 1)? else {
        return Ok(Turn::Fails);
    };
    Ok(taken(left.binary(alloc, most, sign, right)?))
}

// The arguments up to the closing bracket, which is taken too.
#[cycle(read)]
fn read_arguments<D: Dialect, S: TokenSource>(
    alloc: Global,
    d: &D,
    source: &mut S,
    most: usize,
    b: usize,
) -> Result<Option<Arguments>, OutOfMemory>
    requires { 0 < most }
    ensures { IfOk result (λ r. option_map (λ ts. (ts, S.left source.new)) r
        ≡ arguments (reader (D.meaning d.now) (most - 1)) b (S.left source.old)) }
{
    let at_end = take_close(alloc, source)?;
    if at_end {
        return Ok(Some(Arguments::new(alloc)));
    }
    let Some(found) = read_list(alloc, d, source, most, b)? else {
        return Ok(None);
    };
    let closed = take_close(alloc, source)?;
    if !closed {
        return Ok(None);
    }
    Ok(Some(found))
}

// One or more arguments with a separator between each two of them.
#[cycle(read)]
fn read_list<D: Dialect, S: TokenSource>(
    alloc: Global,
    d: &D,
    source: &mut S,
    most: usize,
    b: usize,
) -> Result<Option<Arguments>, OutOfMemory>
    requires { 0 < most }
    ensures { IfOk result (λ r. option_map (λ ts. (ts, S.left source.new)) r
        ≡ all_listed (argument (reader (D.meaning d.now) (most - 1)) b) past_separator
        (S.left source.old)) }
{
    let mut found = Arguments::new(alloc);
    'items: loop {
        let Some(next) = read_argument(alloc, d, source, most, b)? else {
            return Ok(None);
        };
        let more = take_separator(alloc, source)?;
        found.push(next, more)?;
        if !more {
            return Ok(Some(found));
        }
    }
}

// An argument, which is left out where it ends at once.
#[cycle(read)]
fn read_argument<D: Dialect, S: TokenSource>(
    alloc: Global,
    d: &D,
    source: &mut S,
    most: usize,
    b: usize,
) -> Result<Option<Measured>, OutOfMemory>
    requires { 0 < most }
    ensures { IfOk result (λ r. option_map (λ t. (t, S.left source.new)) r
        ≡ argument (reader (D.meaning d.now) (most - 1)) b (S.left source.old)) }
{
    if ends_argument(source) {
        return Ok(Some(Measured::left_out(alloc)?));
    }
    Ok(read(alloc, d, source, most - 1, b, 1)?)
}

// A called name, whose head is taken.
#[cycle(read)]
fn read_name_call<D: Dialect, S: TokenSource>(
    alloc: Global,
    d: &D,
    source: &mut S,
    most: usize,
    b: usize,
    name: Text,
) -> Result<Option<Measured>, OutOfMemory>
    requires { 0 < most }
    ensures { IfOk result (λ r. option_map (λ t. (t, S.left source.new)) r
        ≡ name_call most (reader (D.meaning d.now) (most - 1)) b name (S.left source.old)) }
{
    if !is_called_name(&name) {
        return Ok(None);
    }
    let Some(found) = read_arguments(alloc, d, source, most, b)? else {
        return Ok(None);
    };
    Ok(Measured::call(alloc, most, name, found)?)
}

// A function, whose head is taken.
#[cycle(read)]
fn read_function<D: Dialect, S: TokenSource>(
    alloc: Global,
    d: &D,
    source: &mut S,
    most: usize,
    b: usize,
    number: usize,
) -> Result<Option<Measured>, OutOfMemory>
    requires { 0 < most }
    ensures { IfOk result (λ r. option_map (λ t. (t, S.left source.new)) r
        ≡ function_call (D.meaning d.now) most (reader (D.meaning d.now) (most - 1)) b number
        (S.left source.old)) }
{
    let special = d.let_fn();
    if number == special {
        return Ok(read_let(alloc, d, source, most, b)?);
    }
    let other = d.lambda_fn();
    if number == other {
        return Ok(read_lambda(alloc, d, source, most, b)?);
    }
    let Some(found) = read_arguments(alloc, d, source, most, b)? else {
        return Ok(None);
    };
    Ok(Measured::fun(alloc, most, number, found)?)
}

// LET, whose head is taken.
#[cycle(read)]
fn read_let<D: Dialect, S: TokenSource>(
    alloc: Global,
    d: &D,
    source: &mut S,
    most: usize,
    b: usize,
) -> Result<Option<Measured>, OutOfMemory>
    requires { 0 < most }
    ensures { IfOk result (λ r. option_map (λ t. (t, S.left source.new)) r
        ≡ let_call most (reader (D.meaning d.now) (most - 1)) b (S.left source.old)) }
{
    let mut pairs = Pairs::new(alloc);
    'pairs: loop {
        let begun = next_part(alloc, source)?;
        match begun {
            Begun::Nothing => return Ok(None),
            Begun::Variable(variable) => {
                let Some(value) = read_value(alloc, d, source, most, b)? else {
                    return Ok(None);
                };
                pairs.push(variable, value)?;
            }
            Begun::Body(token) => {
                let Some(body) = read_body(alloc, d, source, most, b, token)? else {
                    return Ok(None);
                };
                return Ok(body.let_in(alloc, most, pairs)?);
            }
        }
    }
}

// The value of a variable of LET, with the separator after it.
#[cycle(read)]
fn read_value<D: Dialect, S: TokenSource>(
    alloc: Global,
    d: &D,
    source: &mut S,
    most: usize,
    b: usize,
) -> Result<Option<Measured>, OutOfMemory>
    requires { 0 < most }
    ensures { IfOk result (λ r. option_map (λ t. (t, S.left source.new)) r
        ≡ followed past_separator (reader (D.meaning d.now) (most - 1) b 1 (S.left source.old))) }
{
    let Some(value) = read(alloc, d, source, most - 1, b, 1)? else {
        return Ok(None);
    };
    if !take_separator(alloc, source)? {
        return Ok(None);
    }
    Ok(Some(value))
}

// The body of LET or LAMBDA, whose first token is taken, with the closing bracket after it.
#[cycle(read)]
fn read_body<D: Dialect, S: TokenSource>(
    alloc: Global,
    d: &D,
    source: &mut S,
    most: usize,
    b: usize,
    token: Token,
) -> Result<Option<Measured>, OutOfMemory>
    requires { 0 < most }
    ensures { IfOk result (λ r. option_map (λ t. (t, S.left source.new)) r
        ≡ followed past_close (reader (D.meaning d.now) (most - 1) b 1
        (token_of token ∷ S.left source.old))) }
{
    let Some(body) = read_from(alloc, d, source, most - 1, b, 1, token)? else {
        return Ok(None);
    };
    if !take_close(alloc, source)? {
        return Ok(None);
    }
    Ok(Some(body))
}

// LAMBDA, whose head is taken.
#[cycle(read)]
fn read_lambda<D: Dialect, S: TokenSource>(
    alloc: Global,
    d: &D,
    source: &mut S,
    most: usize,
    b: usize,
) -> Result<Option<Measured>, OutOfMemory>
    requires { 0 < most }
    ensures { IfOk result (λ r. option_map (λ t. (t, S.left source.new)) r
        ≡ lambda_call most (reader (D.meaning d.now) (most - 1)) b (S.left source.old)) }
{
    let mut parameters = Vec::new(alloc);
    'parameters: loop {
        let begun = next_part(alloc, source)?;
        match begun {
            Begun::Nothing => return Ok(None),
            Begun::Variable(parameter) => parameters.push(parameter)?,
            Begun::Body(token) => {
                let Some(body) = read_body(alloc, d, source, most, b, token)? else {
                    return Ok(None);
                };
                return Ok(body.lambda(alloc, most, parameters)?);
            }
        }
    }
}
