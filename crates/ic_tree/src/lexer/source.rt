ghost use Rattle.std.specs.Prelude.{◌≡◌, ◌∷◌, [], Bool, false, true, chars, IfOk};
ghost use Rattle.ic_tree.specs.Lexing.{ends_whole, tokens_before};
ghost use Rattle.ic_tree.specs.Sight.{in_sight, is_settled};
ghost use Rattle.ic_tree.specs.Tokens.{ahead_of, token_of};

use crate::lexer::next::next_token;
use crate::lexer::words::past_blanks;
use crate::{Ahead, Token, TokenSource};
use ic_laws::scan::is_nothing;
use ic_laws::{Dialect, OutOfMemory};
use std::alloc::Global;
use std::marker::{Brand, PhantomData};

/// Whether a text falls into tokens to its end, for proofs: a lexer's type says it of its text, so that it stays known
/// while others take the tokens.
pub trait TextEnd {
    ghost whole: { Bool };
}

impl TextEnd for Brand {
    ghost whole = { false };
}

/// The tokens of a text, one after another, with one of them in sight. They end at the end of the text, or before the
/// first place where no token begins.
#[derive(Drop)]
pub struct Lexer<'t, D: Dialect, K: TextEnd> {
    dialect: &'t D,
    rest: &'t str,
    sight: Option<Token>,
    end: PhantomData<K>,
    ghost known: { ends_whole (D.meaning dialect.now) (chars rest.now) ≡ K.whole },
    ghost settled: { is_settled sight (tokens_before (D.meaning dialect.now) (chars rest.now)) ≡ true },
}

impl<'t, D: Dialect, K: TextEnd> Lexer<'t, D, K> {
    /// The lexer of a text, with its first token in sight.
    pub fn new(alloc: Global, dialect: &'t D, text: &'t str) -> Result<Lexer<'t, D, K>, OutOfMemory>
        requires { K.whole ≡ ends_whole (D.meaning dialect.now) (chars text.now) }
        ensures { IfOk result (λ l. ⟦<Lexer<'t, D, K> as TokenSource>⟧.left l
            ≡ tokens_before (D.meaning dialect.now) (chars text.now)) }
    {
        let rest = past_blanks(text);
        match next_token(alloc, dialect, rest) {
            Err(e) => Err(e),
            Ok(None) => Ok(Lexer {
                dialect,
                rest,
                sight: None,
                end: PhantomData,
            }),
            Ok(Some((token, after))) => Ok(Lexer {
                dialect,
                rest: after,
                sight: Some(token),
                end: PhantomData,
            }),
        }
    }

    /// Whether the whole text fell into tokens, once none is in sight.
    pub fn is_at_end(&self) -> bool
        ensures { ⟦<Lexer<'t, D, K> as TokenSource>⟧.left self.now ≡ [] → result ≡ K.whole }
    {
        is_nothing(past_blanks(self.rest))
    }
}

impl<'t, D: Dialect, K: TextEnd> TokenSource for Lexer<'t, D, K> {
    ghost left = { λ l. in_sight (D.meaning l.dialect.now) l.sight (chars l.rest.now) };

    fn ahead(&self) -> Ahead {
        match &self.sight {
            None => Ahead::End,
            Some(token) => ahead_at(token),
        }
    }

    fn skip(&mut self, alloc: Global) -> Result<(), OutOfMemory> {
        if self.sight.is_none() {
            return Ok(());
        }
        let rest = past_blanks(self.rest);
        match next_token(alloc, self.dialect, rest) {
            Err(e) => Err(e),
            Ok(None) => {
                self.rest = rest;
                self.sight = None;
                Ok(())
            }
            Ok(Some((token, after))) => {
                self.rest = after;
                self.sight = Some(token);
                Ok(())
            }
        }
    }

    fn next(&mut self, alloc: Global) -> Result<Option<Token>, OutOfMemory> {
        let taken = self.sight.take();
        if taken.is_none() {
            return Ok(None);
        }
        let rest = past_blanks(self.rest);
        match next_token(alloc, self.dialect, rest) {
            Err(e) => {
                self.sight = taken;
                Err(e)
            }
            Ok(None) => {
                self.rest = rest;
                Ok(taken)
            }
            Ok(Some((token, after))) => {
                self.rest = after;
                self.sight = Some(token);
                Ok(taken)
            }
        }
    }
}

/// What a token is, as far as a reader needs to know before it takes it.
fn ahead_at(token: &Token) -> Ahead
    ensures { result ≡ ahead_of (token_of token.now ∷ []) }
{
    match token {
        Token::Percent => Ahead::Percent,
        Token::Hash => Ahead::Hash,
        Token::Open => Ahead::Open,
        Token::Close => Ahead::Close,
        Token::CloseBrace => Ahead::CloseBrace,
        Token::Separator => Ahead::Separator,
        Token::Semicolon => Ahead::Semicolon,
        Token::Operator(sign) => Ahead::Operator(*sign),
        _ => Ahead::Other,
    }
}
