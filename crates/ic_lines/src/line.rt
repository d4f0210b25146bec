ghost use Rattle.std.specs.Prelude.{◌≡◌, true, false, MatchOption};
ghost use Rattle.ic_lines.specs.Reading.{has_line_feed};

use ic_laws::Text;
use std::marker::Model;

/// A line: a text without a line feed.
#[derive(Drop)]
pub struct Line {
    text: Text,
}

impl Model for Line {
    ghost use Rattle.std.specs.Prelude.{◌≡◌, List, ℕ, false};
    ghost use Rattle.ic_lines.specs.Reading.{has_line_feed};

    ghost Value = { List ℕ };

    ghost view = { λ l. l.text };

    ghost invariant = { λ l. has_line_feed l.text ≡ false };
}

impl Line {
    /// The line of this text; none exactly where it has a line feed.
    pub fn new(text: Text) -> Option<Line>
        ensures { MatchOption result (has_line_feed text ≡ true)
            (λ l. (l ≡ text) × (has_line_feed text ≡ false)) }
    {
        if text.as_str().as_bytes().contains(&b'\n') {
            return None;
        }
        Some(Line { text })
    }

    // The line of a text that is known to have no line feed.
    pub(crate) fn without_line_feed(text: Text) -> Line
        requires { has_line_feed text ≡ false }
        ensures { result ≡ text }
    {
        Line { text }
    }

    /// Its text.
    pub fn text(&self) -> &Text
        ensures same { result.now ≡ self.now }
        ensures no_line_feed { has_line_feed self.now ≡ false }
    {
        &self.text
    }
}
