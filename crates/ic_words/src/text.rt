//! The texts that words spell.
ghost use Rattle.std.specs.Prelude.{◌≡◌, IfOk, MatchResult, chars, string_bytes};
ghost use Rattle.ic_laws.specs.Lines.{unescaped};
ghost use Rattle.ic_words.specs.Words.{HasEscape, has_escape};

use ic_laws::{OutOfMemory, Text};
use ic_lines::unescape;
use memchr::memchr;
use std::alloc::Global;
use std::marker::Model;

/// The text that a word spells. It is copied exactly where the word has an escape; a word without one is the text
/// itself, where it stands in its line.
pub struct WordText<'l> {
    word: &'l str,
    copy: Option<Text>,
}

impl Drop for WordText<'_> {
    fn drop(self) {
        let Self { word: _, copy } = self;
        drop(copy);
    }
}

impl<'l> Model for WordText<'l> {
    ghost use Rattle.std.specs.Prelude.{List, ℕ, chars};
    ghost use Rattle.ic_words.specs.Words.{SpellsIn, spelled_in};

    ghost Value = { List ℕ };

    ghost view = { λ t. spelled_in (chars t.word.now) t.copy };

    ghost invariant = { λ t. SpellsIn (chars t.word.now) t.copy };
}

impl<'l> WordText<'l> {
    /// The text itself.
    pub fn as_str(&self) -> &str
        ensures { chars result.now ≡ self.now }
    {
        match &self.copy {
            None => self.word,
            Some(text) => text.as_str(),
        }
    }

    /// The text as a string of its own.
    pub fn into_string(self, alloc: Global) -> Result<String, OutOfMemory>
        ensures { IfOk result (λ text. chars (string_bytes text) ≡ self.entry) }
    {
        Ok(String::from_str(alloc, self.as_str())?)
    }
}

/// The text that a word spells; None where it has a wrong escape. Memory is asked for only where it has one.
pub fn text_of<'l>(alloc: Global, word: &'l str) -> Result<Option<WordText<'l>>, OutOfMemory>
    ensures { MatchResult result
        (λ text. text ≡ unescaped (chars word.now))
        (λ e. HasEscape (chars word.now)) }
{
    if !has_escape(word) {
        return Ok(Some(WordText { word, copy: None }));
    }
    let Some(text) = unescape(alloc, word)? else {
        return Ok(None);
    };
    Ok(Some(WordText {
        word,
        copy: Some(text),
    }))
}

// Whether a word has a backslash, which begins each escape.
fn has_escape(word: &str) -> bool
    ensures { result ≡ has_escape (chars word.now) }
{
    memchr(b'\\', word.as_bytes()).is_some()
}
