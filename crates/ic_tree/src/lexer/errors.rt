ghost use Rattle.std.specs.Prelude.{◌≡◌, chars, option_map};
ghost use Rattle.ic_laws.specs.TokenKinds.{error_at};
ghost use Rattle.ic_tree.specs.Tokens.{token_of};

use crate::Token;
use crate::lexer::references::past_bytes;
use ic_laws::Dialect;

/// The error whose word stands at the front of a text, and the rest.
pub(crate) fn error_at<'t, D: Dialect>(d: &D, text: &'t str) -> Option<(Token, &'t str)>
    ensures { option_map (λ f. (token_of f.0, chars f.1.now)) result
        ≡ error_at (D.meaning d.now) (chars text.now) }
{
    match d.find_error(text, 0) {
        Some((error, size)) => Some((Token::Err(error), past_bytes(text, size))),
        None => None,
    }
}
