//! Whose a line is, and which command line they sent.
ghost use Rattle.std.specs.Prelude.{◌≡◌, IfOk, chars, option_map};
ghost use Rattle.ic_share.specs.Users.{parts_of, user_of};

use ic_laws::OutOfMemory;
use ic_words::{WordText, text_of};
use memchr::memchr;
use std::alloc::Global;

/// What stands before the first tab of a line, and what stands behind it; None where it has no tab.
pub fn parts_of(line: &str) -> Option<(&str, &str)>
    ensures { option_map (λ parts. (chars parts.0.now, chars parts.1.now)) result
        ≡ parts_of (chars line.now) }
{
    match memchr(b'\t', line.as_bytes()) {
        Some(tab) => Some((&line[..tab], &line[tab + 1..])),
        None => None,
    }
}

/// The user that a word spells: any text that isn't empty; None where the word has a wrong escape. Memory is asked for only
/// where it has one.
pub fn user_of<'l>(alloc: Global, word: &'l str) -> Result<Option<WordText<'l>>, OutOfMemory>
    ensures { IfOk result (λ user. user ≡ user_of (chars word.now)) }
{
    if word.is_empty() {
        return Ok(None);
    }
    text_of(alloc, word)
}
