ghost use Rattle.std.specs.Prelude.{◌≡◌, IfOk};
ghost use Rattle.ic_tree.specs.Lexing.{seen_token};
ghost use Rattle.ic_tree.specs.Tokens.{token_of};

use crate::Token;
use ic_laws::{Amount, OutOfMemory, Text};
use std::alloc::Global;

/// A token that begins as a reference may, before its text is copied.
#[derive(Drop)]
pub(crate) enum Seen<'t> {
    Num(Amount),
    Boolean(bool),
    Word(&'t str),
    FunHead(usize),
    NameHead(&'t str),
}

/// The token, with a copy of its text.
pub(crate) fn kept(alloc: Global, seen: &Seen) -> Result<Token, OutOfMemory>
    ensures { IfOk result (λ t. token_of t ≡ seen_token seen.now) }
{
    match seen {
        Seen::Num(amount) => Ok(Token::Num(*amount)),
        Seen::Boolean(value) => Ok(Token::Boolean(*value)),
        Seen::Word(text) => Ok(Token::Word(Text::from_str(alloc, text)?)),
        Seen::FunHead(number) => Ok(Token::FunHead(*number)),
        Seen::NameHead(name) => Ok(Token::NameHead(Text::from_str(alloc, name)?)),
    }
}
