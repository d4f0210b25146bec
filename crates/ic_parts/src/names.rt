//! What finds the sheets and the definitions of a book by their names.

use crate::taken_numbers::TakenNumbers;
use std::collections::BTreeMap;

/// What finds the sheets and the definitions of a book by their names. A name stands in it as its full Unicode case folding.
pub struct NameIndex {
    /// For each sheet its folded name, with its id.
    pub sheets: BTreeMap<String, u32>,
    /// For each definition its folded name and the id of the sheet that it is local to, if there is one, with its index in
    /// the order of the book, from 0.
    pub names: BTreeMap<(String, Option<u32>), usize>,
    /// For names with a number that new sheets get, up to which number they are taken.
    pub numbers: TakenNumbers,
}

impl Drop for NameIndex {
    fn drop(self) {
        let Self {
            sheets,
            names,
            numbers,
        } = self;
        drop(sheets);
        drop(names);
        drop(numbers);
    }
}
