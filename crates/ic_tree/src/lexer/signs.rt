ghost use Rattle.std.specs.Prelude.{◌≡◌, ◌∷◌, [], chars, option_map};
ghost use Rattle.ic_laws.specs.NextToken.{look_up, separators};
ghost use Rattle.ic_laws.specs.Split.{longer};
ghost use Rattle.ic_laws.specs.TokenKinds.{one_at, one_table, two_at};
ghost use Rattle.ic_tree.specs.Tokens.{token_of};

use crate::Token;
use ic_laws::scan::first_char;
use ic_laws::{BinarySign, Dialect};

/// The sign that begins with a character, and the rest of the text: the one of two characters, where there is one.
pub(crate) fn sign_at<'t, D: Dialect>(d: &D, c: char, after: &'t str) -> Option<(Token, &'t str)>
    ensures { option_map (λ f. (token_of f.0, chars f.1.now)) result
        ≡ longer (two_at (c ∷ chars after.now)) (one_at (D.meaning d.now) (c ∷ chars after.now)) }
{
    match sign_of_two(c, after) {
        Some(found) => Some(found),
        None => match sign_of_one(d.list(), c) {
            Some(token) => Some((token, after)),
            None => None,
        },
    }
}

/// The sign of two characters.
fn sign_of_two(c: char, after: &str) -> Option<(Token, &str)>
    ensures { option_map (λ f. (token_of f.0, chars f.1.now)) result
        ≡ two_at (c ∷ chars after.now) }
{
    let Some((e, rest)) = first_char(after) else {
        return None;
    };
    match (c, e) {
        ('<', '>') => Some((Token::Operator(BinarySign::Unequal), rest)),
        ('<', '=') => Some((Token::Operator(BinarySign::AtMost), rest)),
        ('>', '=') => Some((Token::Operator(BinarySign::AtLeast), rest)),
        _ => None,
    }
}

/// The sign of one character, where this one separates arguments.
pub(crate) fn sign_of_one(list: char, c: char) -> Option<Token>
    ensures { option_map token_of result ≡ look_up (one_table list) (c ∷ []) }
{
    match c {
        '=' => Some(Token::Operator(BinarySign::Equal)),
        '<' => Some(Token::Operator(BinarySign::Less)),
        '>' => Some(Token::Operator(BinarySign::Greater)),
        '&' => Some(Token::Operator(BinarySign::Join)),
        '+' => Some(Token::Operator(BinarySign::Plus)),
        '-' => Some(Token::Operator(BinarySign::Minus)),
        '*' => Some(Token::Operator(BinarySign::Times)),
        '/' => Some(Token::Operator(BinarySign::Over)),
        '^' => Some(Token::Operator(BinarySign::Power)),
        '@' => Some(Token::At),
        '%' => Some(Token::Percent),
        '#' => Some(Token::Hash),
        '(' => Some(Token::Open),
        ')' => Some(Token::Close),
        '{' => Some(Token::OpenBrace),
        '}' => Some(Token::CloseBrace),
        _ => separator(list, c),
    }
}

/// The separator of arguments, and the row sign where that is another.
fn separator(list: char, c: char) -> Option<Token>
    ensures { option_map token_of result ≡ look_up (separators list) (c ∷ []) }
{
    if c == list {
        Some(Token::Separator)
    } else if c == ';' {
        Some(Token::Semicolon)
    } else {
        None
    }
}
