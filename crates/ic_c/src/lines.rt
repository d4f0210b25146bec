//! The lines of bytes, one after another.
ghost use Rattle.std.specs.Prelude.{◌≡◌, [], chars, MatchOption};
ghost use Rattle.ic_c.specs.Lines.{BeginsLine};

use ic_lines::{cut_return, first_line_feed, text_of};

/// A line, and the bytes behind it.
#[derive(Drop)]
pub struct FirstLine<'a> {
    pub line: &'a str,
    pub rest: &'a [u8],
}

/// The first line of the bytes; None where there are no bytes.
pub fn first_line(bytes: &[u8]) -> Option<FirstLine<'_>>
    ensures { MatchOption result (bytes.now ≡ [])
        (λ first. BeginsLine bytes.now (chars first.line.now) first.rest.now) }
{
    if bytes.is_empty() {
        return None;
    }
    let Some(len) = first_line_feed(bytes) else {
        return Some(FirstLine {
            line: text_of(bytes),
            rest: &bytes[bytes.len()..],
        });
    };
    Some(FirstLine {
        line: text_of(cut_return(&bytes[..len])),
        rest: &bytes[len + 1..],
    })
}
