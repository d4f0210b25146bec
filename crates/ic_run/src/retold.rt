//! Lines written anew.
ghost use Rattle.std.specs.Prelude.{List, ℕ, ◌≡◌, ◌∷◌, ◌++◌, [], IfOk, OnOk, chars, codes, false, flat_map, map, string_bytes};
ghost use Rattle.ic_laws.specs.Character.{tab};
ghost use Rattle.ic_laws.specs.Lines.{escaped, words_of};
ghost use Rattle.ic_lines.specs.Reading.{has_line_feed};
ghost use Rattle.ic_machine.specs.Translation.{line_of, texts_of, with_last};

use ic_laws::scan::{push_char, push_text};
use ic_laws::{OutOfMemory, Text};
use ic_lines::{Line, push_escaped, unescape, words_of};
use std::alloc::Global;

/// The line whose words spell the same texts as those of a line. Only memory can be missing.
pub fn same_line(alloc: Global, line: &Line) -> Result<Line, OutOfMemory>
    ensures { IfOk result (λ new. new ≡ line_of (texts_of line.now)) }
{
    let texts = texts_in(alloc, line.text().as_str())?;
    line_from(alloc, &texts)
}

/// The same with another text for the last. Only memory can be missing.
pub fn line_with_last(alloc: Global, line: &Line, last: String) -> Result<Line, OutOfMemory>
    ensures { IfOk result (λ new. new
        ≡ line_of (with_last (chars (string_bytes last)) (texts_of line.now))) }
{
    let mut texts = texts_in(alloc, line.text().as_str())?;
    put_last(&mut texts, Text::from(last))?;
    line_from(alloc, &texts)
}

/// The line that adds a sheet of this name. Only memory can be missing.
pub fn new_sheet_line(alloc: Global, name: &str) -> Result<Line, OutOfMemory>
    ensures { IfOk result (λ new. new ≡ line_of (codes "add_sheet" ∷ chars name.now ∷ [])) }
{
    let mut text = String::new(alloc);
    push_text(&mut text, "add_sheet\t")?;
    push_escaped(&mut text, name)?;
    Ok(whole(text))
}

/// The texts that the words of a line spell; none where one of them has a wrong escape.
fn texts_in(alloc: Global, line: &str) -> Result<Vec<Text>, OutOfMemory>
    ensures { IfOk result (λ texts. texts.items ≡ texts_of (chars line.now)) }
{
    let words = words_of(alloc, line)?;
    texts_of_words(alloc, &words)
}

/// The texts that words spell; none where one of them has a wrong escape.
fn texts_of_words(alloc: Global, words: &[&str]) -> Result<Vec<Text>, OutOfMemory>
    ensures { (line : List ℕ) → map (λ w. chars w.now) words.now ≡ words_of line → IfOk result
        (λ texts. texts.items ≡ texts_of line) }
{
    let mut texts = Vec::new(alloc);
    for word in words {
        match unescape(alloc, word)? {
            Some(text) => texts.push(text)?,
            None => return Ok(Vec::new(alloc)),
        }
    }
    Ok(texts)
}

/// Puts another text in the place of the last, where there is one.
#[tactic(auto, using(crate::proofs::RetoldLemmas::last_put, crate::proofs::RetoldLemmas::none_put))]
fn put_last(texts: &mut Vec<Text>, last: Text) -> Result<(), OutOfMemory>
    ensures { OnOk result (texts.new.items ≡ with_last last texts.old.items) }
{
    let count = texts.len();
    if count == 0 {
        return Ok(());
    }
    texts.truncate(count - 1);
    texts.push(last)?;
    Ok(())
}

/// The line whose words spell these texts.
fn line_from(alloc: Global, texts: &[Text]) -> Result<Line, OutOfMemory>
    ensures { IfOk result (λ line. line ≡ line_of texts.now) }
{
    let text = joined(alloc, texts)?;
    Ok(whole(text))
}

/// Its text.
fn joined(alloc: Global, texts: &[Text]) -> Result<String, OutOfMemory>
    ensures { IfOk result (λ text. chars (string_bytes text) ≡ line_of texts.now) }
{
    let mut text = String::new(alloc);
    let Some((first, others)) = texts.split_first() else {
        return Ok(text);
    };
    push_escaped(&mut text, first.as_str())?;
    push_others(&mut text, others)?;
    Ok(text)
}

/// Appends the words that spell these texts, each after a tab.
fn push_others(text: &mut String, others: &[Text]) -> Result<(), OutOfMemory>
    ensures { OnOk result (chars (string_bytes text.new) ≡ chars (string_bytes text.old)
        ++ flat_map (λ (t : List ℕ). tab ∷ escaped t) others.now) }
{
    for other in others {
        push_word(text, other.as_str())?;
    }
    Ok(())
}

/// Appends the word that spells a text, after a tab.
fn push_word(text: &mut String, word: &str) -> Result<(), OutOfMemory>
    ensures { OnOk result (chars (string_bytes text.new) ≡ chars (string_bytes text.old)
        ++ tab ∷ escaped (chars word.now)) }
{
    push_char(text, '\t')?;
    push_escaped(text, word)
}

/// The text as a line, which it is.
fn whole(text: String) -> Line
    requires { has_line_feed (chars (string_bytes text)) ≡ false }
    ensures { result ≡ chars (string_bytes text) }
{
    match Line::new(Text::from(text)) {
        Some(line) => line,
        None => unreachable!(),
    }
}
