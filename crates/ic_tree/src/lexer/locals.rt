ghost use Rattle.std.specs.Prelude.{◌≡◌, ◌∷◌, ℕ, List, Some, true, chars, option_map, IfOk, MatchOption};
ghost use Rattle.ic_laws.specs.Scan.{EndsWith, first_is, is_word_character, past_run};
ghost use Rattle.ic_laws.specs.Token as tokens;
ghost use Rattle.ic_laws.specs.TokenKinds.{local_at};
ghost use Rattle.ic_tree.specs.Lexing.{IsPastLocal, found};
ghost use Rattle.ic_tree.specs.Tokens.{token_of};

use crate::lexer::references::past_bytes;
use crate::{LocalWord, Token};
use ic_laws::scan::{begins_with, first_char, is_word_character};
use ic_laws::{OutOfMemory, Text};
use ic_refs::read_local;
use std::alloc::Global;

/// The word with its sheet at the front of a text that begins with this character and goes on so after its word
/// characters, and the rest. A sheet's name stands between quotes or before a `!`.
// Inlined, since its result is large: a call would copy it, and set it to zero before.
#[inline(always)]
pub(crate) fn local_at<'t>(
    alloc: Global,
    c: char,
    text: &'t str,
    after: &str,
) -> Result<Option<(Token, &'t str)>, OutOfMemory>
    requires begins { (cs : List ℕ) × (chars text.now ≡ c ∷ cs) }
    requires word { chars after.now ≡ past_run is_word_character (chars text.now) }
    ensures { IfOk result (λ r. option_map (λ f. found (token_of f.0) (chars f.1.now)) r
        ≡ local_at (chars text.now)) }
{
    if c != '\'' && !begins_with(after, '!') {
        return Ok(None);
    }
    match read_local(alloc, text, 0) {
        Err(e) => Err(e),
        Ok(None) => Ok(None),
        Ok(Some((sheet, word, size))) => { local_with(alloc, sheet, word, past_bytes(text, size)) }
    }
}

/// The word with its sheet at the front of such a text, where one is longer than what stands before this rest of it: none is
/// looked for where none can be.
pub(crate) fn longer_local_at<'t>(
    alloc: Global,
    c: char,
    text: &'t str,
    after: &str,
    rest: &str,
) -> Result<Option<(Token, &'t str)>, OutOfMemory>
    requires begins { (cs : List ℕ) × (chars text.now ≡ c ∷ cs) }
    requires word { chars after.now ≡ past_run is_word_character (chars text.now) }
    requires ends { EndsWith (chars text.now) (chars rest.now) }
    ensures { IfOk result (λ r. MatchOption r (IsPastLocal (chars text.now) (chars rest.now))
        (λ f. Some (found (token_of f.0) (chars f.1.now)) ≡ local_at (chars text.now))) }
{
    if is_past_local(c, text, after, rest) {
        return Ok(None);
    }
    local_at(alloc, c, text, after)
}

/// Whether a text, which begins with this character and goes on so after its word characters, has no word with its sheet
/// that is longer than what stands before this rest of it: the rest goes on with no word, and the `!` of a sheet's
/// name stands before it.
fn is_past_local(c: char, text: &str, after: &str, rest: &str) -> bool
    requires begins { (cs : List ℕ) × (chars text.now ≡ c ∷ cs) }
    requires word { chars after.now ≡ past_run is_word_character (chars text.now) }
    requires ends { EndsWith (chars text.now) (chars rest.now) }
    ensures { result ≡ true → IsPastLocal (chars text.now) (chars rest.now) }
{
    if begins_word_character(rest) {
        return false;
    }
    if c == '\'' {
        !rest.as_bytes().contains(&b'!')
    } else {
        rest.len() < after.len()
    }
}

/// Whether a word goes on at the front.
fn begins_word_character(text: &str) -> bool
    ensures { result ≡ first_is is_word_character (chars text.now) }
{
    match first_char(text) {
        Some((c, _)) => is_word_character(c),
        None => false,
    }
}

/// The token of a word with its sheet, and the rest.
fn local_with<'t>(
    alloc: Global,
    sheet: Text,
    word: Text,
    rest: &'t str,
) -> Result<Option<(Token, &'t str)>, OutOfMemory>
    ensures { IfOk result (λ r. option_map (λ f. found (token_of f.0) (chars f.1.now)) r
        ≡ Some (found (tokens.Local sheet word) (chars rest.now))) }
{
    let local = Box::new(alloc, LocalWord { sheet, word })?;
    Ok(Some((Token::Local(local), rest)))
}
