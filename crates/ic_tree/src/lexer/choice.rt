ghost use Rattle.std.specs.Prelude.{◌≡◌, chars, length, nat_le, option_map, Some, IfOk};
ghost use Rattle.ic_laws.specs.Scan.{EndsWith, is_word_character, past_run};
ghost use Rattle.ic_laws.specs.Split.{longer};
ghost use Rattle.ic_laws.specs.Token as tokens;
ghost use Rattle.ic_tree.specs.Lexing.{found, is_past_word, seen_token};
ghost use Rattle.ic_tree.specs.Tokens.{token_of};

use crate::Token;
use crate::lexer::seen::{Seen, kept};
use crate::lexer::words::past_blanks;
use crate::near::{FarReference, NearPlace, is_place_within};
use ic_laws::scan::begins_with;
use ic_laws::{OutOfMemory, RefToken};
use std::alloc::Global;

/// The longer of a reference and another token at the front of one text; the reference where both are of one length.
pub(crate) fn longer_of<'t>(
    alloc: Global,
    text: &str,
    reference: RefToken,
    rest: &'t str,
    seen: &Seen,
    after: &'t str,
) -> Result<Option<(Token, &'t str)>, OutOfMemory>
    requires reference_ends { EndsWith (chars text.now) (chars rest.now) }
    requires other_ends { EndsWith (chars text.now) (chars after.now) }
    ensures { IfOk result (λ r. option_map (λ f. found (token_of f.0) (chars f.1.now)) r
        ≡ longer (Some (found (tokens.Ref reference) (chars rest.now)))
        (Some (found (seen_token seen.now) (chars after.now)))) }
{
    if leaves_no_more(text, rest, after) {
        reference_with(alloc, reference, rest)
    } else {
        kept_with(alloc, seen, after)
    }
}

/// The longer of a reference and another token at the front of one text; the reference where both are of one length.
pub(crate) fn longer_than_reference<'t>(
    alloc: Global,
    text: &str,
    reference: RefToken,
    rest: &'t str,
    token: Token,
    after: &'t str,
) -> Result<Option<(Token, &'t str)>, OutOfMemory>
    requires reference_ends { EndsWith (chars text.now) (chars rest.now) }
    requires other_ends { EndsWith (chars text.now) (chars after.now) }
    ensures { IfOk result (λ r. option_map (λ f. found (token_of f.0) (chars f.1.now)) r
        ≡ longer (Some (found (tokens.Ref reference) (chars rest.now)))
        (Some (found (token_of token) (chars after.now)))) }
{
    if leaves_no_more(text, rest, after) {
        return reference_with(alloc, reference, rest);
    }
    Ok(Some((token, after)))
}

/// The token of a reference, and the rest.
// Inlined, since its result is large: a call would copy it, and set it to zero before.
#[inline(always)]
pub(crate) fn reference_with<'t>(
    alloc: Global,
    reference: RefToken,
    rest: &'t str,
) -> Result<Option<(Token, &'t str)>, OutOfMemory>
    ensures { IfOk result (λ r. option_map (λ f. found (token_of f.0) (chars f.1.now)) r
        ≡ Some (found (tokens.Ref reference) (chars rest.now))) }
{
    if !is_place_within(reference.place) {
        let far = Box::new(alloc, FarReference { reference })?;
        return Ok(Some((Token::FarRef(far), rest)));
    }
    let RefToken { sheet, place } = reference;
    let near = NearPlace::new(place);
    match sheet {
        None => Ok(Some((Token::Ref(near), rest))),
        Some(sheet) => Ok(Some((Token::SheetRef(sheet, near), rest))),
    }
}

/// The token that is seen, with a copy of its text, and the rest.
// Inlined, since its result is large: a call would copy it, and set it to zero before.
#[inline(always)]
pub(crate) fn kept_with<'t>(
    alloc: Global,
    seen: &Seen,
    rest: &'t str,
) -> Result<Option<(Token, &'t str)>, OutOfMemory>
    ensures { IfOk result (λ r. option_map (λ f. found (token_of f.0) (chars f.1.now)) r
        ≡ Some (found (seen_token seen.now) (chars rest.now))) }
{
    match kept(alloc, seen) {
        Ok(token) => Ok(Some((token, rest))),
        Err(e) => Err(e),
    }
}

/// Whether a text, which goes on so after its word characters, has no word and no head that is longer than what stands
/// before this rest of it: its word characters end there or before, and no bracket opens after them, blanks aside.
pub(crate) fn is_past_word(text: &str, after: &str, rest: &str) -> bool
    requires word { chars after.now ≡ past_run is_word_character (chars text.now) }
    requires ends { EndsWith (chars text.now) (chars rest.now) }
    ensures { result ≡ is_past_word (chars text.now) (chars rest.now) }
{
    leaves_no_more(text, rest, after) && !begins_with(past_blanks(after), '(')
}

/// The first of two ends of a text has no more characters than the second: its bytes tell.
fn leaves_no_more(text: &str, rest: &str, after: &str) -> bool
    requires rest_ends { EndsWith (chars text.now) (chars rest.now) }
    requires after_ends { EndsWith (chars text.now) (chars after.now) }
    ensures { result ≡ nat_le (length (chars rest.now)) (length (chars after.now)) }
{
    rest.len() <= after.len()
}
