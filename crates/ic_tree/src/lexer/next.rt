ghost use Rattle.std.specs.Prelude.{◌≡◌, ◌∷◌, ◌||◌, ℕ, List, Some, chars, false, option_map, IfOk, IfSome};
ghost use Rattle.ic_laws.specs.AmountFront.{number_in_one_pass};
ghost use Rattle.ic_laws.specs.Dialect.{begins_reference};
ghost use Rattle.ic_laws.specs.Scan.{EndsWith, begins_word, is_word_character, past_run};
ghost use Rattle.ic_laws.specs.Split.{longer, or_else};
ghost use Rattle.ic_laws.specs.Token as tokens;
ghost use Rattle.ic_laws.specs.TokenKinds.{closed, error_at, local_at, reference_at, token_by_kinds};
ghost use Rattle.ic_tree.specs.Lexing.{IsSpelledFunction, found, named_at, seen_token};
ghost use Rattle.ic_tree.specs.Tokens.{token_of};

use crate::Token;
use crate::lexer::choice::{
    is_past_word, kept_with, longer_of, longer_than_reference, reference_with,
};
use crate::lexer::errors::error_at;
use crate::lexer::locals::{local_at, longer_local_at};
use crate::lexer::numbers::{number_at, whole_number};
use crate::lexer::quoted::quoted_at;
use crate::lexer::references::reference_at;
use crate::lexer::seen::Seen;
use crate::lexer::signs::sign_at;
use crate::lexer::words::{past_blanks, word_at};
use ic_laws::scan::{begins_word, first_char, front_of, is_letter, past_word, same_text};
use ic_laws::{Dialect, OutOfMemory, RefToken, WordKind};
use std::alloc::Global;

/// The token at the front of a text, and the rest: the longest one, and a reference where another is as long. None
/// where no token begins there. The first character tells which kinds of tokens can be there.
pub fn next_token<'t, D: Dialect>(
    alloc: Global,
    d: &D,
    text: &'t str,
) -> Result<Option<(Token, &'t str)>, OutOfMemory>
    ensures { IfOk result (λ r. option_map (λ f. found (token_of f.0) (chars f.1.now)) r
        ≡ token_by_kinds (D.meaning d.now) (chars text.now)) }
{
    let Some((c, after)) = first_char(text) else {
        return Ok(None);
    };
    if c == '"' {
        quoted_token(alloc, after)
    } else if c == '#' {
        Ok(error_or_hash(d, text, after))
    } else if begins_name(c) {
        named_token(alloc, d, c, text)
    } else if c == d.decimal() {
        decimal_token(alloc, d, text)
    } else {
        Ok(sign_at(d, c, after))
    }
}

/// Whether a word or a reference may begin with it: a letter, a digit, `_`, `\`, `$` or a quote.
fn begins_name(c: char) -> bool
    ensures { result ≡ (begins_reference c || begins_word c) }
{
    is_letter(c) || c.is_ascii_digit() || matches!(c, '_' | '\\' | '$' | '\'')
}

/// The text after an opening quote.
fn quoted_token<'t>(alloc: Global, text: &'t str) -> Result<Option<(Token, &'t str)>, OutOfMemory>
    ensures { IfOk result (λ r. option_map (λ f. found (token_of f.0) (chars f.1.now)) r
        ≡ option_map (λ f. found (tokens.Str f.0) f.1) (closed false (chars text.now))) }
{
    match quoted_at(alloc, text) {
        Ok(Some((inside, rest))) => Ok(Some((Token::Str(inside), rest))),
        Ok(None) => Ok(None),
        Err(e) => Err(e),
    }
}

/// An error's word, or else the sign `#`, at the front of a text that begins with it.
fn error_or_hash<'t, D: Dialect>(d: &D, text: &'t str, after: &'t str) -> Option<(Token, &'t str)>
    ensures { option_map (λ f. found (token_of f.0) (chars f.1.now)) result
        ≡ or_else (error_at (D.meaning d.now) (chars text.now))
        (Some (found tokens.Hash (chars after.now))) }
{
    match error_at(d, text) {
        Some(found) => Some(found),
        None => Some((Token::Hash, after)),
    }
}

/// A number that begins with the decimal separator.
fn decimal_token<'t, D: Dialect>(
    alloc: Global,
    d: &D,
    text: &'t str,
) -> Result<Option<(Token, &'t str)>, OutOfMemory>
    ensures { IfOk result (λ r. option_map (λ f. found (token_of f.0) (chars f.1.now)) r
        ≡ number_in_one_pass (D.meaning d.now) (chars text.now)) }
{
    match number_at(d, text) {
        Some((seen, rest)) => kept_with(alloc, &seen, rest),
        None => Ok(None),
    }
}

/// A reference, a word with its sheet, a head, a word or a number. Where a whole number is longer than any reference there,
/// none is read. The word characters at the front are passed once for all others.
fn named_token<'t, D: Dialect>(
    alloc: Global,
    d: &D,
    c: char,
    text: &'t str,
) -> Result<Option<(Token, &'t str)>, OutOfMemory>
    requires { (cs : List ℕ) × (chars text.now ≡ c ∷ cs) }
    ensures { IfOk result (λ r. option_map (λ f. found (token_of f.0) (chars f.1.now)) r
        ≡ longer (reference_at (D.meaning d.now) (chars text.now))
        (longer (local_at (chars text.now)) (named_at (D.meaning d.now) (chars text.now)))) }
{
    if c.is_ascii_digit() {
        if let Some((seen, rest)) = whole_number(d, text) {
            return kept_with(alloc, &seen, rest);
        }
    }
    let after = past_word(text);
    match function_at(d, c, text, after) {
        Some((number, rest)) => Ok(Some((Token::FunHead(number), rest))),
        None => any_named_token(alloc, d, c, text, after),
    }
}

/// A function's head whose word stands as the dialect spells it: no reference before a bracket is longer than such a
/// word, and none is read. A word that begins in lower case is not looked up here: function words are
/// spelled in upper case.
fn function_at<'t, D: Dialect>(
    d: &D,
    c: char,
    text: &'t str,
    after: &'t str,
) -> Option<(usize, &'t str)>
    requires begins { (cs : List ℕ) × (chars text.now ≡ c ∷ cs) }
    requires word { chars after.now ≡ past_run is_word_character (chars text.now) }
    ensures { IfSome result (λ f. Some (found (tokens.FunHead f.0) (chars f.1.now))
        ≡ longer (reference_at (D.meaning d.now) (chars text.now))
        (longer (local_at (chars text.now)) (named_at (D.meaning d.now) (chars text.now)))) }
{
    if !begins_word(c) || c.is_ascii_lowercase() {
        return None;
    }
    match first_char(past_blanks(after)) {
        Some(('(', rest)) => match spelled_function(d, front_of(text, after)) {
            Some(number) => Some((number, rest)),
            None => None,
        },
        _ => None,
    }
}

/// The number of the function whose word this is, letter by letter.
fn spelled_function<D: Dialect>(d: &D, name: &str) -> Option<usize>
    ensures { IfSome result (λ n. IsSpelledFunction (D.meaning d.now) n (chars name.now)) }
{
    match d.find(WordKind::Function, name) {
        Some(number) => match d.word(WordKind::Function, number) {
            Some(word) => {
                if same_text(word, name) {
                    Some(number)
                } else {
                    None
                }
            }
            None => None,
        },
        None => None,
    }
}

/// The same as `named_token`, where the text goes on so after its word characters.
fn any_named_token<'t, D: Dialect>(
    alloc: Global,
    d: &D,
    c: char,
    text: &'t str,
    after: &'t str,
) -> Result<Option<(Token, &'t str)>, OutOfMemory>
    requires begins { (cs : List ℕ) × (chars text.now ≡ c ∷ cs) }
    requires word { chars after.now ≡ past_run is_word_character (chars text.now) }
    ensures { IfOk result (λ r. option_map (λ f. found (token_of f.0) (chars f.1.now)) r
        ≡ longer (reference_at (D.meaning d.now) (chars text.now))
        (longer (local_at (chars text.now)) (named_at (D.meaning d.now) (chars text.now)))) }
{
    match reference_at(alloc, d, text) {
        Err(e) => Err(e),
        Ok(None) => local_or_named(alloc, d, c, text, after),
        Ok(Some((reference, rest))) => match longer_local_at(alloc, c, text, after, rest) {
            Err(e) => Err(e),
            Ok(Some((token, end))) => {
                longer_than_reference(alloc, text, reference, rest, token, end)
            }
            Ok(None) => reference_or_named(alloc, d, c, text, after, reference, rest),
        },
    }
}

/// A reference, or a head, a word or a number that is longer, where the text goes on so after its word characters. Where
/// the reference ends no sooner than a word would, and no bracket opens after that word, the word is looked up in no list.
fn reference_or_named<'t, D: Dialect>(
    alloc: Global,
    d: &D,
    c: char,
    text: &'t str,
    after: &'t str,
    reference: RefToken,
    rest: &'t str,
) -> Result<Option<(Token, &'t str)>, OutOfMemory>
    requires begins { (cs : List ℕ) × (chars text.now ≡ c ∷ cs) }
    requires word { chars after.now ≡ past_run is_word_character (chars text.now) }
    requires ends { EndsWith (chars text.now) (chars rest.now) }
    ensures { IfOk result (λ r. option_map (λ f. found (token_of f.0) (chars f.1.now)) r
        ≡ longer (Some (found (tokens.Ref reference) (chars rest.now)))
        (named_at (D.meaning d.now) (chars text.now))) }
{
    if begins_word(c) && is_past_word(text, after, rest) {
        return reference_with(alloc, reference, rest);
    }
    match named_at(d, c, text, after) {
        None => reference_with(alloc, reference, rest),
        Some((seen, end)) => longer_of(alloc, text, reference, rest, &seen, end),
    }
}

/// A word with its sheet, or else a head, a word or a number.
fn local_or_named<'t, D: Dialect>(
    alloc: Global,
    d: &D,
    c: char,
    text: &'t str,
    after: &'t str,
) -> Result<Option<(Token, &'t str)>, OutOfMemory>
    requires begins { (cs : List ℕ) × (chars text.now ≡ c ∷ cs) }
    requires word { chars after.now ≡ past_run is_word_character (chars text.now) }
    ensures { IfOk result (λ r. option_map (λ f. found (token_of f.0) (chars f.1.now)) r
        ≡ longer (local_at (chars text.now)) (named_at (D.meaning d.now) (chars text.now))) }
{
    match local_at(alloc, c, text, after) {
        Err(e) => Err(e),
        Ok(Some(found)) => Ok(Some(found)),
        Ok(None) => match named_at(d, c, text, after) {
            None => Ok(None),
            Some((seen, end)) => kept_with(alloc, &seen, end),
        },
    }
}

/// A head, a word or a number.
// Inlined, since its result is large: a call would copy it, and set it to zero before.
#[inline(always)]
fn named_at<'t, D: Dialect>(
    d: &D,
    c: char,
    text: &'t str,
    after: &'t str,
) -> Option<(Seen<'t>, &'t str)>
    requires begins { (cs : List ℕ) × (chars text.now ≡ c ∷ cs) }
    requires word { chars after.now ≡ past_run is_word_character (chars text.now) }
    ensures { option_map (λ f. found (seen_token f.0) (chars f.1.now)) result
        ≡ named_at (D.meaning d.now) (chars text.now) }
{
    if begins_word(c) {
        word_at(d, text, after)
    } else {
        number_at(d, text)
    }
}
