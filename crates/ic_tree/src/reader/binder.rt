ghost use Rattle.std.specs.Prelude.{◌∷◌, IfOk};
ghost use Rattle.ic_tree.specs.Tokens.{token_of};
ghost use Rattle.ic_tree.specs.Begun.{IsBegun};

use super::leaf::is_variable;
use crate::{Ahead, Token, TokenSource};
use ic_laws::{OutOfMemory, Text};
use std::alloc::Global;

/// What a part of LET or LAMBDA begins with.
#[derive(Drop)]
pub enum Begun {
    /// A variable, with the separator after it.
    Variable(Text),
    /// The first token of the body.
    Body(Token),
    /// No token is left.
    Nothing,
}

/// Takes a variable with the separator after it, or the one token that stands there in place of them.
pub fn next_part<S: TokenSource>(alloc: Global, source: &mut S) -> Result<Begun, OutOfMemory>
    ensures { IfOk result (λ begun. IsBegun (S.left source.old) begun (S.left source.new)) }
{
    let Some(token) = source.next(alloc)? else {
        return Ok(Begun::Nothing);
    };
    Ok(part_of(alloc, source, token)?)
}

/// The same, where the first token is taken.
#[tactic(auto, using(crate::proofs::Binders::binder_takes, crate::proofs::Binders::binder_no_variable, crate::proofs::Binders::binder_no_separator, crate::proofs::Binders::binder_no_word))]
fn part_of<S: TokenSource>(
    alloc: Global,
    source: &mut S,
    token: Token,
) -> Result<Begun, OutOfMemory>
    ensures { IfOk result (λ begun. IsBegun (token_of token ∷ S.left source.old) begun
        (S.left source.new)) }
{
    match token {
        Token::Word(name) => {
            if source.ahead() != Ahead::Separator {
                return Ok(Begun::Body(Token::Word(name)));
            }
            if !is_variable(&name) {
                return Ok(Begun::Body(Token::Word(name)));
            }
            source.skip(alloc)?;
            Ok(Begun::Variable(name))
        }
        token => Ok(Begun::Body(token)),
    }
}
