ghost use Rattle.std.specs.Prelude.{◌≡◌, chars};
ghost use Rattle.ic_laws.specs.Scan.{is_blank, past_run};
ghost use Rattle.ic_refs.specs.Formula.{trimmed};
ghost use Rattle.ic_refs.specs.Trim.{EndsAt};

use ic_laws::scan::{first_char, front_of};

/// The text without the blanks at both ends: spaces, tabs, line feeds and carriage returns.
pub fn trimmed(text: &str) -> &str
    ensures { chars result.now ≡ trimmed (chars text.now) }
{
    let text = past_blanks(text);
    front_of(text, after_last(text))
}

// Whether it is a space, a tab, a line feed or a carriage return.
fn is_blank(c: char) -> bool
    ensures { result ≡ is_blank c }
{
    matches!(c, ' ' | '\t' | '\n' | '\r')
}

// What stands after the blanks at the front.
fn past_blanks(text: &str) -> &str
    ensures { chars result.now ≡ past_run is_blank (chars text.now) }
{
    let mut rest = text;
    while let Some((c, after)) = first_char(rest) {
        if !is_blank(c) {
            break;
        }
        rest = after;
    }
    rest
}

// The blanks after the last character that is none.
fn after_last(text: &str) -> &str
    ensures { EndsAt (chars text.now) (chars result.now) }
{
    let mut end = text;
    let mut rest = text;
    while let Some((c, after)) = first_char(rest) {
        if !is_blank(c) {
            end = after;
        }
        rest = after;
    }
    end
}
