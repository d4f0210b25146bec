//! Lists of words as texts with one blank between two words.
ghost use Rattle.std.specs.Prelude.{◌≡◌, ◌≤◌, IfOk, chars, length, map};
ghost use Rattle.ic_laws.specs.Scan.{past_run, run_of};
ghost use Rattle.ic_tables.specs.WordList.{is_inside, words_in};

use ic_laws::scan::{first_char, front_of};
use ic_laws::{OutOfMemory, Text};
use std::alloc::Global;

/// The words of a text: what stands between its blanks.
#[tactic(auto, using(crate::proofs::ListLemmas::first_and_later, crate::proofs::ListLemmas::later_are, crate::proofs::ListLemmas::no_later_words))]
pub fn words_in(alloc: Global, text: &str) -> Result<Vec<Text>, OutOfMemory>
    ensures { IfOk result (λ words. words.items ≡ words_in (chars text.now)) }
{
    let mut words = Vec::new(alloc);
    words.push(Text::from_str(alloc, first_word(text))?)?;
    let mut rest = past_word(text);
    while let Some((_, after)) = first_char(rest) {
        words.push(Text::from_str(alloc, first_word(after))?)?;
        rest = past_word(after);
    }
    Ok(words)
}

/// A text for each of these.
fn texts(alloc: Global, words: &[&str]) -> Result<Vec<Text>, OutOfMemory>
    ensures { IfOk result (λ texts. texts.items ≡ map (λ w. chars w.now) words.now) }
{
    let mut texts = Vec::new(alloc);
    for word in words {
        texts.push(Text::from_str(alloc, word)?)?;
    }
    Ok(texts)
}

/// Four texts.
pub fn four_texts(alloc: Global, words: [&str; 4]) -> Result<[Text; 4], OutOfMemory>
    ensures { IfOk result (λ texts. texts ≡ map (λ w. chars w.now) words.entry) }
{
    match <[Text; 4]>::try_from(texts(alloc, &words)?) {
        Ok(texts) => Ok(texts),
        Err(_) => unreachable!(),
    }
}

/// What stands before the first blank.
fn first_word(text: &str) -> &str
    ensures { chars result.now ≡ run_of is_inside (chars text.now) }
{
    front_of(text, past_word(text))
}

/// The text from its first blank on.
fn past_word(text: &str) -> &str
    ensures rest { chars result.now ≡ past_run is_inside (chars text.now) }
    ensures shorter { length result.now ≤ length text.now }
{
    let mut rest = text;
    while let Some((c, after)) = first_char(rest) {
        if c == ' ' {
            break;
        }
        rest = after;
    }
    rest
}
