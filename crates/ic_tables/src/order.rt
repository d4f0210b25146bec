//! The words of a language in the order of their foldings, so that a word is found by binary search.
ghost use Rattle.std.specs.Prelude.{◌≡◌, ◌<◌, ◌≤◌, true, not, chars, drop, length, map, take, IfOk, MatchOption, OnOk};
ghost use Rattle.std.specs.List.{list_all};
ghost use Rattle.ic_laws.specs.Name.{fold};
ghost use Rattle.ic_tables.specs.Order.{AreOrdered, BeginsWithFound, BeginsWithNone, IsOrderOf, IsPutFirst, OrdersWords, comes_before, is_sorted, number_at};

use crate::Language;
use crate::compare::{compare_folded, past_folded};
use crate::fold::fold_word;
use crate::ids::HasId;
use crate::words::error_words;
use ic_laws::{Items, OutOfMemory, Text};
use std::alloc::Global;
use std::cmp::Ordering;

/// A word by its folding, with its number.
#[derive(Drop)]
pub struct WordEntry {
    pub(crate) folded: Text,
    pub(crate) number: usize,
}

/// The words of a language, each kind's in the order of their foldings.
pub struct WordOrder {
    pub(crate) booleans: Items<WordEntry>,
    pub(crate) errors: Items<WordEntry>,
    pub(crate) functions: Items<WordEntry>,
}

impl Drop for WordOrder {
    fn drop(self) {
        let Self {
            booleans,
            errors,
            functions,
        } = self;
        drop(booleans);
        drop(errors);
        drop(functions);
    }
}

impl WordOrder {
    /// The order of the words of a language.
    pub fn new(alloc: Global, language: &Language) -> Result<WordOrder, OutOfMemory>
        ensures { IfOk result (λ o. OrdersWords language.now o) }
    {
        let words = [&language.booleans.true_word, &language.booleans.false_word];
        let booleans = order_words(alloc, &words)?;
        let errors = order_words(alloc, &error_words(language))?;
        let functions = order_words(alloc, language.functions.words.as_slice())?;
        Ok(WordOrder {
            booleans,
            errors,
            functions,
        })
    }
}

/// The orders of the words of these languages.
pub fn order_languages(
    alloc: Global,
    languages: &[Language],
) -> Result<Items<WordOrder>, OutOfMemory>
    ensures { IfOk result (λ orders. AreOrdered languages.now orders) }
{
    let mut orders = Vec::new(alloc);
    for language in languages {
        orders.push(WordOrder::new(alloc, language)?)?;
    }
    Ok(Items::from(orders))
}

/// These words in the order of their foldings, with their numbers.
fn order_words<T: HasId>(alloc: Global, words: &[T]) -> Result<Items<WordEntry>, OutOfMemory>
    ensures { IfOk result (λ entries. IsOrderOf (map T.id_of words.now) entries) }
{
    let mut entries = Vec::new(alloc);
    let mut number = words.len();
    while number > 0 {
        number -= 1;
        put_first(alloc, &mut entries, words[number].id().as_str(), number)?;
    }
    Ok(Items::from(entries))
}

/// Puts a word into its place, in front of those with its folding.
fn put_first(
    alloc: Global,
    entries: &mut Vec<WordEntry>,
    word: &str,
    number: usize,
) -> Result<(), OutOfMemory>
    requires { is_sorted entries.old.items ≡ true }
    ensures { OnOk result (IsPutFirst (fold (chars word.now)) number entries.old.items
        entries.new.items) }
{
    let place = place_of(entries.as_slice(), word);
    let folded = fold_word(alloc, word)?;
    entries.insert(place, WordEntry { folded, number })?;
    Ok(())
}

/// The number of the first entry with the folding of a text.
#[tactic(auto, using(crate::proofs::OrderLemmas::find_steps))]
pub fn find_number(entries: &[WordEntry], text: &str) -> Option<usize>
    requires { is_sorted entries.now ≡ true }
    ensures { result ≡ number_at entries.now (fold (chars text.now)) }
{
    let place = place_of(entries, text);
    let Some(entry) = entries.get(place) else {
        return None;
    };
    match compare_folded(text, entry.folded.as_str()) {
        Ordering::Equal => Some(entry.number),
        _ => None,
    }
}

/// The number of the first of these entries that a front of the text folds to, and the rest of the text.
pub fn find_front<'t>(entries: &[WordEntry], text: &'t str) -> Option<(usize, &'t str)>
    ensures { MatchOption result (BeginsWithNone (λ front. number_at entries.now (fold front))
        (chars text.now))
        (λ p. BeginsWithFound (λ front. number_at entries.now (fold front)) (chars text.now)
        (chars p.1.now) p.0) }
{
    for entry in entries {
        if let Some(rest) = past_folded(text, entry.folded.as_str()) {
            return Some((entry.number, rest));
        }
    }
    None
}

/// How many entries come before the folding of a text, by binary search.
#[tactic(auto, using(crate::proofs::OrderLemmas::place_steps))]
fn place_of(entries: &[WordEntry], text: &str) -> usize
    requires { is_sorted entries.now ≡ true }
    ensures within { result ≤ length entries.now }
    ensures before { list_all (λ e. comes_before e.folded (fold (chars text.now)))
        (take result entries.now) ≡ true }
    ensures after { list_all (λ e. not (comes_before e.folded (fold (chars text.now))))
        (drop result entries.now) ≡ true }
{
    let mut low = 0;
    let mut high = entries.len();
    'halving: while low < high {
        let middle = low + (high - low) / 2;
        if is_before(&entries[middle], text) {
            low = middle + 1;
        } else {
            high = middle;
        }
    }
    low
}

/// Whether an entry comes before the folding of a text.
#[tactic(auto, using(crate::proofs::OrderLemmas::before_steps))]
fn is_before(entry: &WordEntry, text: &str) -> bool
    ensures { result ≡ comes_before entry.now.folded (fold (chars text.now)) }
{
    match compare_folded(text, entry.folded.as_str()) {
        Ordering::Greater => true,
        _ => false,
    }
}
