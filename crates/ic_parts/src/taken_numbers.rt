//! Up to which number sheets are known to have a numbered name, so that it isn't asked for again.
ghost use Rattle.std.specs.Prelude.{◌≡◌, ◌<◌, ◌^◌, ◌++◌, IfOk, IsTrue, List, Some, chars, encode_utf8_all, false, length, map, remove, slice_get, ℕ, unwrap_or};
ghost use Rattle.std.specs.BTreeMap.{get_by_text};
ghost use Rattle.std.specs.Fmt.{decimal};
ghost use Rattle.ic_laws.specs.CoreStep.{updated_at};
ghost use Rattle.ic_laws.specs.Name.{agrees, fold};
ghost use Rattle.ic_machine.specs.subjects.Sheets.{copy_name};
ghost use Rattle.ic_parts.specs.SheetNames.{AreLowered, AreNoted, AreTaken, IsLowered, IsOnlyNumber, KnowsNumbers, Notes, name_with};

use crate::sheet_names::{NumberedName, put_name};
use caseless::default_case_fold_str;
use ic_laws::{OutOfMemory, agree};
use ic_sheets::Sheets;
use std::alloc::Global;
use std::collections::BTreeMap;

/// So many notes of copies, and no more, are lowered one by one.
const FEW_COPIES: usize = 16;

/// Up to which number, from 1 on, sheets are known to have a numbered name. What is known stays true as sheets come and move; as
/// one goes or gets another name, it is to be noted.
pub struct TakenNumbers {
    /// For each word up to which number the word with the number behind it is a sheet's name.
    pub words: BTreeMap<String, u64>,
    /// For each name of a sheet that was copied up to which number it, with the number behind it in brackets, is a sheet's name.
    pub copies: BTreeMap<String, u64>,
}

impl Drop for TakenNumbers {
    fn drop(self) {
        let Self { words, copies } = self;
        drop(words);
        drop(copies);
    }
}

impl TakenNumbers {
    /// Nothing is known.
    pub fn new(alloc: Global) -> TakenNumbers
        ensures { (names : List (List ℕ)) → KnowsNumbers result names }
    {
        TakenNumbers {
            words: BTreeMap::new(alloc),
            copies: BTreeMap::new(alloc),
        }
    }

    /// Up to which number sheets are known to have this name; 0 where that isn't known of any.
    pub fn known(&self, name: &NumberedName) -> u64
        ensures { (names : List (List ℕ)) → KnowsNumbers self.now names
            → AreTaken names (name_with name.now) result }
    {
        match name {
            NumberedName::Word(base) => known_at(&self.words, base),
            NumberedName::Copy(source) => known_at(&self.copies, source),
        }
    }

    /// Notes up to which number sheets have this name. Where there is no memory for that, nothing is noted.
    pub fn note(&mut self, alloc: Global, name: &NumberedName, number: u64)
        ensures { (names : List (List ℕ)) → KnowsNumbers self.old names
            → AreTaken names (name_with name.now) number → KnowsNumbers self.new names }
    {
        match name {
            NumberedName::Word(base) => note_at(alloc, &mut self.words, base, number),
            NumberedName::Copy(source) => note_at(alloc, &mut self.copies, source, number),
        }
    }

    /// Notes that the sheet at an index, from 0, goes, or gets another name: what is known of the names of all stays so of those
    /// that are left.
    pub fn lose_sheet(&mut self, alloc: Global, sheets: &Sheets, index: usize)
        requires { index < length sheets.now }
        ensures kept { KnowsNumbers self.old (map (λ s. s.name) sheets.now)
            → KnowsNumbers self.new (map (λ s. s.name) sheets.now) }
        ensures lost { KnowsNumbers self.old (map (λ s. s.name) sheets.now)
            → KnowsNumbers self.new (remove (map (λ s. s.name) sheets.now) index) }
        ensures renamed { KnowsNumbers self.old (map (λ s. s.name) sheets.now)
            → (called : List ℕ) → KnowsNumbers self.new
            (updated_at (λ was. called) index (map (λ s. s.name) sheets.now)) }
    {
        self.lose(alloc, sheets.as_slice()[index].as_ref().name.as_str());
    }

    /// Notes that a sheet of this name goes, or gets another name. Where the name agrees with a word or a copied sheet's name
    /// with a number, of these only the numbers below that one stay known; what is known of others stays. Less does where
    /// there is no memory to fold names, or the name has a number in brackets and more than 16 sheets were copied.
    pub fn lose(&mut self, alloc: Global, name: &str)
        ensures kept { (names : List (List ℕ)) → KnowsNumbers self.old names
            → KnowsNumbers self.new names }
        ensures lost { (names : List (List ℕ)) (index : ℕ)
            → slice_get names index ≡ Some (chars name.now) → KnowsNumbers self.old names
            → KnowsNumbers self.new (remove names index) }
        ensures renamed { (names : List (List ℕ)) (index : ℕ) (called : List ℕ)
            → slice_get names index ≡ Some (chars name.now) → KnowsNumbers self.old names
            → KnowsNumbers self.new (updated_at (λ was. called) index names) }
    {
        if self.knows_nothing() {
            return;
        }
        let Ok(folded) = default_case_fold_str(alloc, name) else {
            self.forget();
            return;
        };
        lower_words(alloc, &mut self.words, folded.as_str());
        lower_copies(alloc, &mut self.copies, name, folded.as_str());
    }

    /// Whether nothing is known.
    fn knows_nothing(&self) -> bool
        ensures { IsTrue result → (names : List (List ℕ)) → KnowsNumbers self.now names }
    {
        self.words.is_empty() && self.copies.is_empty()
    }

    /// Nothing is known any more.
    fn forget(&mut self)
        ensures { (names : List (List ℕ)) → KnowsNumbers self.new names }
    {
        self.words.clear();
        self.copies.clear();
    }
}

/// The number at a key, 0 where there is none.
fn known_at(notes: &BTreeMap<String, u64>, key: &str) -> u64
    ensures { result ≡ unwrap_or (get_by_text notes.now key.now) 0 }
{
    notes.get(key).copied().unwrap_or(0)
}

/// Puts a number other than 0 to a key, if there is memory for it.
fn note_at(alloc: Global, notes: &mut BTreeMap<String, u64>, key: &str, number: u64)
    ensures { Notes key.now number notes.old notes.new }
{
    if number == 0 {
        return;
    }
    let Ok(key) = String::from_str(alloc, key) else {
        return;
    };
    let _ = notes.insert(key, number);
}

/// Lowers what is noted of words, as the name of this folding goes.
fn lower_words(alloc: Global, notes: &mut BTreeMap<String, u64>, folded: &str)
    ensures { (gone : List ℕ) → folded.now ≡ encode_utf8_all (fold gone)
        → AreLowered (λ word n. chars word ++ decimal n) gone notes.old notes.new }
{
    notes.retain(|word, number| {
        *number = lowered_word(alloc, word.as_str(), folded, *number);
        true
    });
}

/// Lowers the number that is noted of a word, as the name of this folding goes.
fn lowered_word(alloc: Global, word: &str, folded: &str, number: u64) -> u64
    ensures { (gone : List ℕ) → folded.now ≡ encode_utf8_all (fold gone)
        → IsLowered (λ n. chars word.now ++ decimal n) gone number result }
{
    match number_behind(alloc, word, folded) {
        Ok(only) => lowered(number, only),
        Err(_) => 0,
    }
}

/// The number from 1 on that stands behind a word in the name of this folding.
fn number_behind(alloc: Global, word: &str, folded: &str) -> Result<Option<u64>, OutOfMemory>
    ensures { IfOk result (λ only. (gone : List ℕ) → folded.now ≡ encode_utf8_all (fold gone)
        → IsOnlyNumber (λ n. chars word.now ++ decimal n) gone only) }
{
    let front = default_case_fold_str(alloc, word)?;
    match folded.strip_prefix(front.as_str()) {
        Some(digits) => Ok(number_of(digits)),
        None => Ok(None),
    }
}

/// Lowers what is noted of copies, as this name goes, whose folding is told.
fn lower_copies(alloc: Global, notes: &mut BTreeMap<String, u64>, name: &str, folded: &str)
    requires { folded.now ≡ encode_utf8_all (fold (chars name.now)) }
    ensures { (names : List (List ℕ))
        → AreNoted notes.old (λ source. copy_name (chars source)) names
        → AreLowered (λ source. copy_name (chars source)) (chars name.now) notes.old notes.new }
{
    let Some(number) = number_in_brackets(folded) else {
        return;
    };
    if notes.len() > FEW_COPIES {
        notes.clear();
        return;
    }
    notes.retain(|source, count| {
        *count = lowered_copy(alloc, source.as_str(), name, number, *count);
        true
    });
}

/// Lowers the count that is noted of copies of a sheet, as this name goes: only the copy's name with this number may agree with it.
fn lowered_copy(alloc: Global, source: &str, name: &str, number: u64, count: u64) -> u64
    ensures { IsOnlyNumber (copy_name (chars source.now)) (chars name.now) (Some number)
        → IsLowered (copy_name (chars source.now)) (chars name.now) count result }
{
    if count < number {
        return count;
    }
    if !may_agree(alloc, source, number, name) {
        return count;
    }
    lowered(count, Some(number))
}

/// Whether a name agrees with that of the copy with this number, or there is no memory to tell.
fn may_agree(alloc: Global, source: &str, number: u64, name: &str) -> bool
    ensures { result ≡ false
        → agrees (copy_name (chars source.now) number) (chars name.now) ≡ false }
{
    let mut text = String::new(alloc);
    match put_name(&mut text, &NumberedName::Copy(source), number) {
        Ok(()) => agree(text.as_str(), name),
        Err(_) => true,
    }
}

/// The number from 1 on that stands in brackets at the end of the name of this folding.
fn number_in_brackets(folded: &str) -> Option<u64>
    ensures { (source gone : List ℕ) → folded.now ≡ encode_utf8_all (fold gone)
        → IsOnlyNumber (copy_name source) gone result }
{
    let front = folded.strip_suffix(')')?;
    let (_, digits) = front.rsplit_once('(')?;
    number_of(digits)
}

/// The number from 1 on of which a text is the decimal digits.
fn number_of(text: &str) -> Option<u64>
    ensures { (n : ℕ) → 0 < n → n < 2 ^ 64 → text.now ≡ decimal n → result ≡ Some n }
{
    let bytes = text.as_bytes();
    if bytes.is_empty() {
        return None;
    }
    if bytes[0] <= b'0' {
        return None;
    }
    text.parse::<u64>().ok()
}

/// What is left of a count of taken numbers as a name goes with which only this number's name may agree.
fn lowered(count: u64, only: Option<u64>) -> u64
    ensures { (name : ℕ → List ℕ) (gone : List ℕ) → IsOnlyNumber name gone only
        → IsLowered name gone count result }
{
    match only {
        Some(number) => count.min(number.saturating_sub(1)),
        None => count,
    }
}
