//! The words of a language by kind and number, and the number of the word that a text agrees with.
ghost use Rattle.std.specs.Prelude.{◌≡◌, chars, length, option_map};
ghost use Rattle.std.specs.List.{slice_get};
ghost use Rattle.ic_tables.specs.Words.{first_agreeing, words_of, words_of_booleans, words_of_errors};

use crate::{Booleans, Errors, Language};
use ic_laws::{WordKind, agree};

/// The word of a kind at place `n`, from 0. None exactly where the language has no such word.
pub fn word(language: &Language, kind: WordKind, n: usize) -> Option<&str>
    ensures { option_map (λ w. chars w.now) result ≡ slice_get (words_of language.now kind) n }
{
    match kind {
        WordKind::Boolean => boolean_word(&language.booleans, n),
        WordKind::Error => error_word(&language.errors, n),
        WordKind::Function => Some(language.functions.words.as_slice().get(n)?.as_str()),
    }
}

/// The number of the first word of a kind that agrees with the whole text. None exactly where no word does.
#[tactic(auto, using(crate::proofs::WordLemmas::left_here, crate::proofs::WordLemmas::left_later, crate::proofs::WordLemmas::left_none, crate::proofs::WordLemmas::left_end, crate::proofs::WordLemmas::left_all))]
pub fn find_word(language: &Language, kind: WordKind, text: &str) -> Option<usize>
    ensures { result ≡ first_agreeing (words_of language.now kind) (chars text.now) }
{
    for n in 0..word_count(language, kind) {
        match word(language, kind, n) {
            None => return None,
            Some(word) => {
                if agree(word, text) {
                    return Some(n);
                }
            }
        }
    }
    None
}

/// How many words of a kind there are.
fn word_count(language: &Language, kind: WordKind) -> usize
    ensures { result ≡ length (words_of language.now kind) }
{
    match kind {
        WordKind::Boolean => 2,
        WordKind::Error => 12,
        WordKind::Function => language.functions.words.as_slice().len(),
    }
}

/// The word of a boolean: 0 is true, 1 is false.
fn boolean_word(words: &Booleans, n: usize) -> Option<&str>
    ensures { option_map (λ w. chars w.now) result ≡ slice_get (words_of_booleans words.now) n }
{
    match n {
        0 => Some(words.true_word.as_str()),
        1 => Some(words.false_word.as_str()),
        _ => None,
    }
}

/// The word of an error value by its number.
fn error_word(words: &Errors, n: usize) -> Option<&str>
    ensures { option_map (λ w. chars w.now) result ≡ slice_get (words_of_errors words.now) n }
{
    let word = match n {
        0 => &words.ref_word,
        1 => &words.name,
        2 => &words.value,
        3 => &words.div,
        4 => &words.na,
        5 => &words.num,
        6 => &words.nimpl,
        7 => &words.spill,
        8 => &words.calc,
        9 => &words.circ,
        10 => &words.error,
        11 => &words.null,
        _ => return None,
    };
    Some(word.as_str())
}
