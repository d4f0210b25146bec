ghost use Rattle.std.specs.Prelude.{◌≡◌, ◌<◌, ◌∷◌, ◌++◌, [], chars, length, option_map, false, true, IfOk, IfSome, MatchOption, Some};
ghost use Rattle.std.specs.List.{list_all};
ghost use Rattle.ic_laws.specs.Character.{double_quote};
ghost use Rattle.ic_laws.specs.Scan.{past_run};
ghost use Rattle.ic_laws.specs.TokenKinds.{closed};
ghost use Rattle.ic_tree.specs.Lexing.{is_inside};

use ic_laws::scan::{first_char, front_of, push_char, push_text};
use ic_laws::{OutOfMemory, Text};
use std::alloc::Global;

/// The text that goes on to a closing quote, each quote in it doubled, and the rest. None where it is never closed.
pub(crate) fn quoted_at<'t>(
    alloc: Global,
    text: &'t str,
) -> Result<Option<(Text, &'t str)>, OutOfMemory>
    ensures { IfOk result (λ r. option_map (λ f. (f.0, chars f.1.now)) r
        ≡ closed false (chars text.now)) }
{
    let mut inside = String::new(alloc);
    let mut rest = text;
    while let Some((piece, after)) = piece_at(rest) {
        push_text(&mut inside, piece)?;
        match past_quote(after) {
            Some(more) => {
                push_char(&mut inside, '"')?;
                rest = more;
            }
            None => return Ok(Some((Text::from(inside), after))),
        }
    }
    Ok(None)
}

/// What stands before the next quote, and after it. None where there is no quote.
fn piece_at(text: &str) -> Option<(&str, &str)>
    ensures parts { MatchOption result (list_all is_inside (chars text.now) ≡ true)
        (λ p. (chars text.now ≡ chars p.0.now ++ double_quote ∷ chars p.1.now)
        × (list_all is_inside (chars p.0.now) ≡ true)) }
    ensures shorter { IfSome result (λ p. length p.1.now < length text.now) }
{
    let quote = past_inside(text);
    match first_char(quote) {
        Some((_, after)) => Some((front_of(text, quote), after)),
        None => None,
    }
}

/// What stands after a quote at the front; after a quote that is the last one there is none.
fn past_quote(text: &str) -> Option<&str>
    ensures parts { MatchOption result (closed true (chars text.now) ≡ Some ([], chars text.now))
        (λ r. chars text.now ≡ double_quote ∷ chars r.now) }
    ensures shorter { IfSome result (λ r. length r.now < length text.now) }
{
    let (c, rest) = first_char(text)?;
    if c == '"' { Some(rest) } else { None }
}

/// The text from its first quote on.
fn past_inside(text: &str) -> &str
    ensures { chars result.now ≡ past_run is_inside (chars text.now) }
{
    let mut rest = text;
    while let Some((c, after)) = first_char(rest) {
        if c == '"' {
            break;
        }
        rest = after;
    }
    rest
}
