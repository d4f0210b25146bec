//! Names of sheets that are a word with a number behind it.
ghost use Rattle.std.specs.Prelude.{◌≡◌, ◌==◌, ◌<◌, IfOk, IfSome, chars, length, map, slice_index, slice_index_or, false};
ghost use Rattle.std.specs.Fmt.{decimal};
ghost use Rattle.ic_sheets.specs.Numbers.{AreMarked, numbered};

use super::Sheets;
use crate::Sheet;
use ic_laws::{Boxed, OutOfMemory};

/// Whether a zero stands first.
fn has_zero(text: &str) -> bool
    ensures { result ≡ (slice_index text.now 0 == 48) }
{
    text.starts_with('0')
}

/// Whether a plus stands first.
fn has_plus(text: &str) -> bool
    ensures { result ≡ (slice_index text.now 0 == 43) }
{
    text.starts_with('+')
}

/// The number whose digits a text is, with no zero in front.
fn number_of(text: &str) -> Option<u64>
    ensures { IfSome result (λ n. chars text.now ≡ decimal n) }
{
    if has_zero(text) {
        return None;
    }
    if has_plus(text) {
        return None;
    }
    text.parse::<u64>().ok()
}

/// The number that a name has behind a word.
fn number_behind(word: &str, name: &str) -> Option<u64>
    ensures { IfSome result (λ n. chars name.now ≡ numbered (chars word.now) n) }
{
    let rest = name.strip_prefix(word)?;
    number_of(rest)
}

/// Marks the number that a sheet's name has behind a word, if there is room for it.
fn mark(marks: &mut Vec<bool>, word: &str, sheets: &[Boxed<Sheet>], index: usize)
    requires within { index < length sheets.now }
    requires before { AreMarked (numbered (chars word.now)) (map (λ s. s.name) sheets.now)
        marks.old.items }
    ensures { AreMarked (numbered (chars word.now)) (map (λ s. s.name) sheets.now)
        marks.new.items }
{
    let Some(number) = number_behind(word, sheets[index].as_ref().name.as_str()) else {
        return;
    };
    if number == 0 || number > marks.len() as u64 {
        return;
    }
    marks[number as usize - 1] = true;
}

/// Marks the numbers that the names of sheets have behind a word.
fn mark_all(marks: &mut Vec<bool>, word: &str, sheets: &[Boxed<Sheet>])
    requires { AreMarked (numbered (chars word.now)) (map (λ s. s.name) sheets.now)
        marks.old.items }
    ensures { AreMarked (numbered (chars word.now)) (map (λ s. s.name) sheets.now)
        marks.new.items }
{
    for index in 0..sheets.len() {
        mark(marks, word, sheets, index);
    }
}

/// Whether a place is marked. None is behind the last one.
pub fn is_marked(marks: &[bool], place: usize) -> bool
    ensures { result ≡ slice_index_or marks.now place false }
{
    place < marks.len() && marks[place]
}

impl Sheets {
    /// Marks, from 0, for the numbers from 1 up to that of the sheets: one is marked where a sheet's name is this word with
    /// the number behind it. A name that only agrees with it needn't be marked.
    pub fn marked_numbers(&self, word: &str) -> Result<Vec<bool>, OutOfMemory>
        ensures { IfOk result (λ marks. AreMarked (numbered (chars word.now))
            (map (λ s. s.name) self.now) marks.items) }
    {
        let mut marks = vec![in self.alloc; false; self.list.len()]?;
        mark_all(&mut marks, word, &self.list);
        Ok(marks)
    }
}
