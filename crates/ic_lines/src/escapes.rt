ghost use Rattle.std.specs.Prelude.{◌≡◌, ◌↔◌, ◌<◌, ◌++◌, ◌∷◌, ℕ, List, Some, chars, false, length, string_bytes, IfOk, IfSome, MatchOption, OnOk, IsNone};
ghost use Rattle.ic_laws.specs.Character.{line_feed};
ghost use Rattle.ic_laws.specs.Lines.{escape_meaning, escape_of, escaped, unescaped};
ghost use Rattle.std.specs.List.{list_any};
ghost use Rattle.ic_lines.specs.Escapes.{HasWrongEscape, is_escaped};
ghost use Rattle.ic_lines.specs.Reading.{has_line_feed};

use crate::first_line_feed;
use ic_laws::scan::{first_char, push_char, push_text};
use ic_laws::{OutOfMemory, Text};
use memchr::memchr3;
use std::alloc::Global;

/// The text as it is written in a word: each backslash, tab, line feed and carriage return by its escape.
pub fn escape(alloc: Global, text: &str) -> Result<Text, OutOfMemory>
    ensures { IfOk result (λ word. word ≡ escaped (chars text.now)) }
{
    let mut word = String::with_capacity(alloc, text.len())?;
    push_escaped(&mut word, text)?;
    Ok(Text::from(word))
}

/// Appends a text as it is written in a word. Where memory runs out a front of it may have been appended.
pub fn push_escaped(word: &mut String, text: &str) -> Result<(), OutOfMemory>
    ensures { OnOk result (chars (string_bytes word.new) ≡ chars (string_bytes word.old)
        ++ escaped (chars text.now)) }
{
    let mut rest = text;
    while let Some((line, after)) = cut_at_feed(rest) {
        push_escaped_line(word, line)?;
        push_escape(word, '\n')?;
        rest = after;
    }
    push_escaped_line(word, rest)
}

/// The text that the word spells, read from left to right. None exactly where it has a wrong escape: a backslash
/// that begins none of `\\`, `\t`, `\n` and `\r`.
pub fn unescape(alloc: Global, word: &str) -> Result<Option<Text>, OutOfMemory>
    ensures exact { IfOk result (λ text. text ≡ unescaped (chars word.now)) }

    // What `escape` gives is read back.
    ensures spelled { (t : List ℕ) → chars word.now ≡ escaped t
        → IfOk result (λ text. text ≡ Some t) }
    ensures wrong { IfOk result (λ text. IsNone text ↔ HasWrongEscape (chars word.now)) }
{
    spelled_text(alloc, word)
}

// The same, with the clause that says it all.
fn spelled_text(alloc: Global, word: &str) -> Result<Option<Text>, OutOfMemory>
    ensures { IfOk result (λ text. text ≡ unescaped (chars word.now)) }
{
    let mut text = String::with_capacity(alloc, word.len())?;
    let mut rest = word;
    while let Some((c, after)) = first_char(rest) {
        rest = after;
        if c != '\\' {
            push_char(&mut text, c)?;
            continue;
        }
        let Some((d, after)) = first_char(rest) else {
            return Ok(None);
        };
        let Some(meant) = meaning(d) else {
            return Ok(None);
        };
        push_char(&mut text, meant)?;
        rest = after;
    }
    Ok(Some(Text::from(text)))
}

// What stands before the first line feed of a text, and what stands behind it; None where it has none.
fn cut_at_feed(text: &str) -> Option<(&str, &str)>
    ensures parts { MatchOption result (has_line_feed text.now ≡ false)
        (λ p. chars text.now ≡ chars p.0.now ++ line_feed ∷ chars p.1.now) }
    ensures front { IfSome result (λ p. has_line_feed p.0.now ≡ false) }
    ensures shorter { IfSome result (λ p. length p.1.now < length text.now) }
{
    match first_line_feed(text.as_bytes()) {
        Some(place) => Some((&text[..place], &text[place + 1..])),
        None => None,
    }
}

// Appends a text without a line feed as it is written in a word. One in which nothing is escaped is copied whole.
fn push_escaped_line(word: &mut String, line: &str) -> Result<(), OutOfMemory>
    requires { has_line_feed line.now ≡ false }
    ensures { OnOk result (chars (string_bytes word.new) ≡ chars (string_bytes word.old)
        ++ escaped (chars line.now)) }
{
    if !has_escaped(line) {
        return push_text(word, line);
    }
    let mut rest = line;
    while let Some((c, after)) = first_char(rest) {
        push_escape(word, c)?;
        rest = after;
    }
    Ok(())
}

// Whether a text without a line feed has a character that is written by an escape.
fn has_escaped(line: &str) -> bool
    requires { has_line_feed line.now ≡ false }
    ensures { result ≡ list_any is_escaped line.now }
{
    memchr3(b'\\', b'\t', b'\r', line.as_bytes()).is_some()
}

// Writes a character as it stands in a word.
fn push_escape(word: &mut String, c: char) -> Result<(), OutOfMemory>
    ensures { OnOk result (chars (string_bytes word.new) ≡ chars (string_bytes word.old)
        ++ escape_of c) }
{
    match c {
        '\\' => word.push_str("\\\\")?,
        '\t' => word.push_str("\\t")?,
        '\n' => word.push_str("\\n")?,
        '\r' => word.push_str("\\r")?,
        _ => push_char(word, c)?,
    }
    Ok(())
}

// What a backslash with this character after it stands for.
fn meaning(c: char) -> Option<char>
    ensures { result ≡ escape_meaning c }
{
    match c {
        '\\' => Some('\\'),
        't' => Some('\t'),
        'n' => Some('\n'),
        'r' => Some('\r'),
        _ => None,
    }
}
