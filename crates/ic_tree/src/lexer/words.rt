ghost use Rattle.std.specs.Prelude.{◌≡◌, chars, option_map, true};
ghost use Rattle.ic_laws.specs.Scan.{begins_word, first_is, is_blank, is_word_character, past_run};
ghost use Rattle.ic_laws.specs.NextToken.{boolean_or_word, head_token};
ghost use Rattle.ic_laws.specs.Split.{longer};
ghost use Rattle.ic_laws.specs.TokenKinds.{head_at, head_before, word_at};
ghost use Rattle.ic_laws.specs.declared.dialect.WordKind.TheVariants as kinds;
ghost use Rattle.ic_tree.specs.Lexing.{seen_token};

use crate::lexer::seen::Seen;
use ic_laws::scan::{first_char, front_of};
use ic_laws::{Dialect, WordKind};
use ic_refs::is_valid_a1_identifier;

/// The head or the word at the front of a text that begins as a word does and goes on so after its word characters, and
/// the rest. A head is longer than a word.
pub(crate) fn word_at<'t, D: Dialect>(
    d: &D,
    text: &'t str,
    after: &'t str,
) -> Option<(Seen<'t>, &'t str)>
    requires begins { first_is begins_word (chars text.now) ≡ true }
    requires word { chars after.now ≡ past_run is_word_character (chars text.now) }
    ensures { option_map (λ f. (seen_token f.0, chars f.1.now)) result
        ≡ longer (head_at (D.meaning d.now) (chars text.now))
        (word_at (D.meaning d.now) (chars text.now)) }
{
    let run = front_of(text, after);
    match head_before(d, run, after) {
        Some(found) => Some(found),
        None => match whole_word(d, run) {
            Some(seen) => Some((seen, after)),
            None => None,
        },
    }
}

/// The head of a name, where an open bracket stands in what follows it, blanks aside; and the rest.
fn head_before<'t, D: Dialect>(d: &D, name: &'t str, after: &'t str) -> Option<(Seen<'t>, &'t str)>
    ensures { option_map (λ f. (seen_token f.0, chars f.1.now)) result
        ≡ head_before (D.meaning d.now) (chars name.now) (past_run is_blank (chars after.now)) }
{
    match first_char(past_blanks(after)) {
        Some(('(', rest)) => match head(d, name) {
            Some(seen) => Some((seen, rest)),
            None => None,
        },
        _ => None,
    }
}

/// What a name that is called is: a function, or a name that a variable may have.
fn head<'t, D: Dialect>(d: &D, name: &'t str) -> Option<Seen<'t>>
    ensures { option_map seen_token result ≡ head_token (chars name.now)
        ((D.meaning d.now).find kinds.Function (chars name.now)) }
{
    match d.find(WordKind::Function, name) {
        Some(number) => Some(Seen::FunHead(number)),
        None => {
            if is_valid_a1_identifier(name) {
                Some(Seen::NameHead(name))
            } else {
                None
            }
        }
    }
}

/// What a whole run is: a boolean, or a word that a variable may have.
fn whole_word<'t, D: Dialect>(d: &D, run: &'t str) -> Option<Seen<'t>>
    ensures { option_map seen_token result ≡ boolean_or_word (D.meaning d.now) (chars run.now)
        ((D.meaning d.now).find kinds.Boolean (chars run.now)) }
{
    match d.find(WordKind::Boolean, run) {
        Some(0) => Some(Seen::Boolean(true)),
        Some(1) => Some(Seen::Boolean(false)),
        Some(_) => None,
        None => {
            if is_valid_a1_identifier(run) {
                Some(Seen::Word(run))
            } else {
                None
            }
        }
    }
}

/// What stands after the blanks at the front.
pub(crate) fn past_blanks(text: &str) -> &str
    ensures { chars result.now ≡ past_run is_blank (chars text.now) }
{
    let mut rest = text;
    while let Some((c, after)) = first_char(rest) {
        if !is_blank(c) {
            break;
        }
        rest = after;
    }
    rest
}

/// Whether it is a space, a tab, a line feed or a carriage return.
fn is_blank(c: char) -> bool
    ensures { result ≡ is_blank c }
{
    c == ' ' || c == '\t' || c == '\n' || c == '\r'
}
