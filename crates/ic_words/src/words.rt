//! Words one after another: each shape is `()`, or a word and the shape of those after it.
ghost use Rattle.std.specs.Prelude.{◌≡◌, ◌∷◌, IfOk, OnErr, chars, option_map};
ghost use Rattle.ic_laws.specs.Lines.{words_of};
ghost use Rattle.ic_machine.specs.Word as machine;
ghost use Rattle.ic_words.specs.Words.{HaveEscape, words_left, words_said};

use crate::word::Word;
use ic_laws::OutOfMemory;
use memchr::memchr;
use std::alloc::Global;

/// The values that the words of a command say.
pub trait Words<'l>: Drop {
    ghost forms: { machine.Words };

    ghost says: { Self → machine.AllSaid forms };

    /// What the words that are left say; None where they are more or fewer, or one isn't of its form. Memory is asked for
    /// only where one of them has an escape.
    fn of(alloc: Global, rest: Option<&'l str>) -> Result<Option<Self>, OutOfMemory>
        ensures exact { IfOk result
            (λ values. option_map says values ≡ words_said forms (words_left rest.entry)) }
        ensures memory { OnErr result (HaveEscape (words_left rest.entry)) };
}

impl<'l> Words<'l> for () {
    ghost forms = { machine.Done };

    ghost says = { λ nothing. tt };

    fn of(_: Global, rest: Option<&'l str>) -> Result<Option<()>, OutOfMemory> {
        match rest {
            None => Ok(Some(())),
            Some(_) => Ok(None),
        }
    }
}

impl<'l, A: Word<'l>, B: Words<'l>> Words<'l> for (A, B) {
    ghost forms = { machine.Then A.form B.forms };

    ghost says = { λ words. (A.says words.0, B.says words.1) };

    fn of(alloc: Global, rest: Option<&'l str>) -> Result<Option<(A, B)>, OutOfMemory> {
        let Some(line) = rest else {
            return Ok(None);
        };
        let (word, rest) = first_word(line);
        let Some(first) = A::of(alloc, word)? else {
            return Ok(None);
        };
        let Some(others) = B::of(alloc, rest)? else {
            return Ok(None);
        };
        Ok(Some((first, others)))
    }
}

/// The first word of a line, and what is left of the line after the tab; None where no tab stands after the word.
pub fn first_word(line: &str) -> (&str, Option<&str>)
    ensures { words_of (chars line.now) ≡ chars result.0.now ∷ words_left result.1 }
{
    match memchr(b'\t', line.as_bytes()) {
        Some(tab) => (&line[..tab], Some(&line[tab + 1..])),
        None => (line, None),
    }
}
