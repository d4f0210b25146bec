ghost use Rattle.std.specs.Prelude.{◌≡◌, IfOk, Some, None, false};
ghost use Rattle.ic_laws.specs.Tree.{sign_level};
ghost use Rattle.ic_laws.specs.Parse.{ends_argument as argument_ends, past_brace, past_close, past_row_sign, past_separator, prefix_sign};
ghost use Rattle.ic_tree.specs.Tokens.{token_of};
ghost use Rattle.ic_tree.specs.Turned.{Passes};

use crate::{Ahead, Token, TokenSource};
use ic_laws::{BinarySign, Dialect, OutOfMemory, PrefixSign};
use std::alloc::Global;

/// How tightly a sign binds.
pub fn level_of(sign: BinarySign) -> usize
    ensures { result ≡ sign_level sign }
{
    match sign {
        BinarySign::Equal => 1,
        BinarySign::Unequal => 1,
        BinarySign::Less => 1,
        BinarySign::Greater => 1,
        BinarySign::AtMost => 1,
        BinarySign::AtLeast => 1,
        BinarySign::Join => 2,
        BinarySign::Plus => 3,
        BinarySign::Minus => 3,
        BinarySign::Times => 4,
        BinarySign::Over => 4,
        BinarySign::Power => 5,
    }
}

/// The sign before an operand that a token is.
#[tactic(auto, unfolding(ic_laws::specs::Parse::prefix_sign))]
pub fn sign_before(token: &Token) -> Option<PrefixSign>
    ensures { result ≡ prefix_sign (token_of token.now) }
{
    match token {
        Token::Operator(BinarySign::Plus) => Some(PrefixSign::Plus),
        Token::Operator(BinarySign::Minus) => Some(PrefixSign::Minus),
        Token::At => Some(PrefixSign::At),
        _ => None,
    }
}

/// Takes the closing bracket that stands next; false where none does.
#[tactic(auto, using(crate::proofs::Signs::close_stands, crate::proofs::Signs::close_lacks))]
pub fn take_close<S: TokenSource>(alloc: Global, source: &mut S) -> Result<bool, OutOfMemory>
    ensures { IfOk result (λ taken. Passes (past_close (S.left source.old)) taken
        (S.left source.old) (S.left source.new)) }
{
    if source.ahead() != Ahead::Close {
        return Ok(false);
    }
    source.skip(alloc)?;
    Ok(true)
}

/// Takes the separator of arguments that stands next; false where none does.
#[tactic(auto, using(crate::proofs::Signs::separator_stands, crate::proofs::Signs::separator_lacks))]
pub fn take_separator<S: TokenSource>(alloc: Global, source: &mut S) -> Result<bool, OutOfMemory>
    ensures { IfOk result (λ taken. Passes (past_separator (S.left source.old)) taken
        (S.left source.old) (S.left source.new)) }
{
    if source.ahead() != Ahead::Separator {
        return Ok(false);
    }
    source.skip(alloc)?;
    Ok(true)
}

/// Takes the closing brace that stands next; false where none does.
#[tactic(auto, using(crate::proofs::Signs::brace_stands, crate::proofs::Signs::brace_lacks))]
pub fn take_brace<S: TokenSource>(alloc: Global, source: &mut S) -> Result<bool, OutOfMemory>
    ensures { IfOk result (λ taken. Passes (past_brace (S.left source.old)) taken
        (S.left source.old) (S.left source.new)) }
{
    if source.ahead() != Ahead::CloseBrace {
        return Ok(false);
    }
    source.skip(alloc)?;
    Ok(true)
}

/// Takes the sign between two rows of an array that stands next; false where none does. It is `;` where `,` separates
/// arguments, and `/` elsewhere.
#[tactic(auto, using(crate::proofs::Signs::semicolon_stands, crate::proofs::Signs::semicolon_lacks, crate::proofs::Signs::over_stands, crate::proofs::Signs::over_lacks))]
pub fn take_row_sign<D: Dialect, S: TokenSource>(
    alloc: Global,
    d: &D,
    source: &mut S,
) -> Result<bool, OutOfMemory>
    ensures { IfOk result (λ taken. Passes (past_row_sign (D.meaning d.now) (S.left source.old))
        taken (S.left source.old) (S.left source.new)) }
{
    let sign = if d.list() == ',' {
        Ahead::Semicolon
    } else {
        Ahead::Operator(BinarySign::Over)
    };
    if source.ahead() != sign {
        return Ok(false);
    }
    source.skip(alloc)?;
    Ok(true)
}

/// Whether an argument ends before what stands next: a separator or a closing bracket.
#[tactic(auto, using(crate::proofs::Signs::ends_at_separator, crate::proofs::Signs::ends_at_close, crate::proofs::Signs::goes_on))]
pub fn ends_argument<S: TokenSource>(source: &S) -> bool
    ensures { result ≡ argument_ends (S.left source.now) }
{
    match source.ahead() {
        Ahead::Separator => true,
        Ahead::Close => true,
        _ => false,
    }
}
