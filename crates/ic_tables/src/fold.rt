ghost use Rattle.std.specs.Prelude.{◌≡◌, ◌++◌, ◌∷◌, IfOk, List, OnOk, chars, map, not, ℕ};
ghost use Rattle.ic_laws.specs.Name.{agrees, fold};
ghost use Rattle.ic_tables.specs.Words.{FindsFoldings, is_prefix_free, is_proper_prefix};
ghost use Rattle.ic_tables.specs.Words.{no_two_agree};
ghost use Rattle.std.specs.List.{list_all, list_any};

use crate::ids::HasId;
use caseless::default_case_fold_str;
use ic_laws::scan::first_char;
use ic_laws::{OutOfMemory, Text};
use std::alloc::Global;
use std::collections::BTreeSet;

/// Whether no two of these words agree.
pub fn no_two_agree<T: HasId>(alloc: Global, words: &[T]) -> Result<bool, OutOfMemory>
    ensures { IfOk result (λ told. told ≡ no_two_agree (map T.id_of words.now)) }
{
    let mut behind = BTreeSet::new(alloc);
    let mut rest = words;
    while let Some((word, front)) = rest.split_last() {
        if !put_folding(alloc, &mut behind, word.id())? {
            return Ok(false);
        }
        rest = front;
    }
    Ok(true)
}

/// Puts the folding of a word beside those of others; tells whether it agrees with none of these.
fn put_folding(
    alloc: Global,
    folded: &mut BTreeSet<String>,
    word: &Text,
) -> Result<bool, OutOfMemory>
    ensures { (others : List (List ℕ)) → FindsFoldings folded.old others → IfOk result (λ new.
        (new ≡ not (list_any (agrees word.now) others))
        × FindsFoldings folded.new (word.now ∷ others)) }
{
    let text = default_case_fold_str(alloc, word.as_str())?;
    Ok(folded.insert(text)?)
}

/// Appends the foldings of these words.
pub fn fold_onto<T: HasId>(
    alloc: Global,
    folded: &mut Vec<Text>,
    words: &[T],
) -> Result<(), OutOfMemory>
    ensures { OnOk result (folded.new.items ≡ folded.old.items
        ++ map fold (map T.id_of words.now)) }
{
    for word in words {
        folded.push(fold_word(alloc, word.id().as_str())?)?;
    }
    Ok(())
}

/// The Unicode default case folding of a word.
pub fn fold_word(alloc: Global, word: &str) -> Result<Text, OutOfMemory>
    ensures { IfOk result (λ t. t ≡ fold (chars word.now)) }
{
    Ok(Text::from(default_case_fold_str(alloc, word)?))
}

/// Whether none of these texts begins another, longer one.
pub fn is_prefix_free(texts: &[Text]) -> bool
    ensures { result ≡ is_prefix_free texts.now }
{
    texts
        .iter()
        .all(|text| begins_no_other(text.as_str(), texts))
}

/// Whether the text begins none of these, longer ones.
fn begins_no_other(text: &str, others: &[Text]) -> bool
    ensures { result ≡ list_all (λ other. not (is_proper_prefix (chars text.now) other))
        others.now }
{
    others
        .iter()
        .all(|other| !is_proper_prefix(text, other.as_str()))
}

/// Whether the second text is longer than the first and begins with it.
fn is_proper_prefix(text: &str, other: &str) -> bool
    ensures { result ≡ is_proper_prefix (chars text.now) (chars other.now) }
{
    let mut front = text;
    let mut whole = other;
    while let Some((c, rest)) = first_char(front) {
        match first_char(whole) {
            Some((d, after)) if c == d => {
                front = rest;
                whole = after;
            }
            _ => return false,
        }
    }
    first_char(whole).is_some()
}
