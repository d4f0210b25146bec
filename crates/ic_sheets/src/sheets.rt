ghost use Rattle.std.specs.Prelude.{◌≡◌, List, [], chars, encode_utf8_all, find, length, map, nat_eq, option_map, position, remove, slice_get, string_bytes, IfOk};
ghost use Rattle.std.specs.List.{IsDistinct, list_any};
ghost use Rattle.ic_laws.specs.Greatest.{greatest};
ghost use Rattle.ic_laws.specs.Name.{agrees, fold};
ghost use Rattle.ic_sheets.specs.Index.{AreAtIndexes, FindsSheets};
ghost use Rattle.ic_sheets.specs.Spots.{index_at};
ghost use Rattle.ic_sheets.specs.declared.sheet.Sheet.{Sheet};

mod changes;
mod dangling;
mod edits;
mod formulas;
mod grids;
mod holders;
mod mentioning;
mod numbers;
mod rewriting;
mod spots;
mod started;
mod tabs;
mod testing;

use crate::Sheet;
use crate::mentioners::Mentioners;
use caseless::default_case_fold_str;
use holders::Holders;
use ic_laws::{Boxed, OutOfMemory, agree};
pub use numbers::is_marked;
use spots::Spots;
use std::alloc::Global;
use std::collections::BTreeMap;
use std::marker::Model;

/// The sheets of a book in their order. No two have names that agree, and no two have one id. What finds them by their
/// folded names is the caller's: a call that asks for a name is lent it, and one that changes names changes it, too.
pub struct Sheets {
    alloc: Global,
    /// Each in a box, so that few bytes of it move as it comes to stand elsewhere.
    list: Vec<Boxed<Sheet>>,
    /// The index of each sheet, from 0, by its id.
    indexes: Spots,
    /// The greatest id of a sheet, 0 where there is none.
    greatest: u32,
    /// The ids of the sheets in which something dangles, each once, with room for those of all sheets.
    dangling: Vec<u32>,
    /// Which of them mention what.
    mentioners: Mentioners,
    /// Which of them hold cells.
    holders: Holders,
}

impl Drop for Sheets {
    fn drop(self) {
        let Self {
            alloc,
            list,
            indexes,
            greatest: _,
            dangling,
            mentioners,
            holders,
        } = self;
        drop(alloc);
        drop(list);
        drop(indexes);
        drop(dangling);
        drop(mentioners);
        drop(holders);
    }
}

impl Model for Sheets {
    ghost use Rattle.std.specs.Prelude.{◌≤◌, List, length, vec_capacity};
    ghost use Rattle.std.specs.Coded.{codes};
    ghost use Rattle.ic_sheets.specs.Holders.{KnowsHolders};
    ghost use Rattle.ic_sheets.specs.Index.{AreAtIndexes, AreDangling, AreKept};
    ghost use Rattle.ic_sheets.specs.Mentioners.{KnowsSheets};
    ghost use Rattle.ic_sheets.specs.contracts.sheet.Sheet as sheet;
    ghost use Rattle.ic_sheets.specs.declared.sheet.Sheet.{Sheet};

    ghost Value = { List Sheet };

    ghost coded = { Prim.hlevel (codes, sheet.the_row.coded) };

    ghost view = { λ s. s.list.items };

    ghost invariant = { λ s. AreKept s.greatest s.list.items × AreAtIndexes s.indexes s.list.items
        × AreDangling s.dangling.items s.list.items
        × (length s.list.items ≤ vec_capacity s.dangling)
        × KnowsSheets s.mentioners s.list.items
        × KnowsHolders s.holders s.list.items };
}

/// The key of a name.
fn folded(alloc: Global, name: &str) -> Result<String, OutOfMemory>
    ensures { IfOk result (λ key. string_bytes key ≡ encode_utf8_all (fold (chars name.now))) }
{
    let key = default_case_fold_str(alloc, name)?;
    Ok(key)
}

/// The id of the first sheet whose name agrees with this one.
fn first_named(sheets: &[Boxed<Sheet>], name: &str) -> Option<u32>
    ensures { result ≡ option_map (λ s. s.id)
        (find (λ s. agrees s.name (chars name.now)) sheets.now) }
{
    let sheet = sheets
        .iter()
        .find(|sheet| agree(sheet.as_ref().name.as_str(), name))?;
    Some(sheet.as_ref().id)
}

/// What a look-up of indexes has at an id.
fn index_in(indexes: &Spots, id: u32) -> Option<usize>
    ensures { result ≡ index_at id indexes.now.list.items }
{
    indexes.index_of(id)
}

/// The sheet at an index, from 0. None past the end.
fn sheet_at(sheets: &[Boxed<Sheet>], index: usize) -> Option<&Sheet>
    ensures { option_map (λ s. s.now) result ≡ slice_get sheets.now index }
{
    let sheet = sheets.get(index)?;
    Some(sheet.as_ref())
}

impl Sheets {
    /// No sheets.
    pub fn new(alloc: Global) -> Sheets
        ensures { result ≡ [] }
    {
        Sheets {
            alloc,
            list: Vec::new(alloc),
            indexes: Spots::new(alloc),
            greatest: 0,
            dangling: Vec::new(alloc),
            mentioners: Mentioners::new(alloc),
            holders: Holders::new(alloc),
        }
    }

    /// The sheets in their order.
    pub fn as_slice(&self) -> &[Boxed<Sheet>]
        ensures sheets { result.now ≡ self.now }
        ensures names_differ { IsDistinct agrees (map (λ s. s.name) self.now) }
        ensures ids_differ { IsDistinct nat_eq (map (λ s. s.id) self.now) }
    {
        self.list.as_slice()
    }

    /// The sheet at an index, from 0. None exactly past the end.
    pub fn get(&self, index: usize) -> Option<&Sheet>
        ensures { option_map (λ s. s.now) result ≡ slice_get self.now index }
    {
        sheet_at(&self.list, index)
    }

    /// How many sheets there are.
    pub fn len(&self) -> usize
        ensures { result ≡ length self.now }
    {
        self.list.len()
    }

    /// The greatest id of a sheet, 0 where there is none.
    pub fn greatest_id(&self) -> u32
        ensures { result ≡ greatest (map (λ s. s.id) self.now) }
    {
        self.greatest
    }

    /// The id of the sheet whose name agrees with this one. None exactly where there is none. Where there is no memory for
    /// the folded name, all names are compared.
    pub fn find(&self, ids: &BTreeMap<String, u32>, name: &str) -> Option<u32>
        requires { FindsSheets ids.now self.now }
        ensures { result ≡ option_map (λ s. s.id)
            (find (λ s. agrees s.name (chars name.now)) self.now) }
    {
        match folded(self.alloc, name) {
            Ok(key) => self.find_by_key(ids, key.as_str(), name),
            Err(_) => first_named(&self.list, name),
        }
    }

    /// The same, by the key of the name.
    fn find_by_key(&self, ids: &BTreeMap<String, u32>, key: &str, name: &str) -> Option<u32>
        requires finds { FindsSheets ids.now self.now }
        requires key { key.now ≡ encode_utf8_all (fold (chars name.now)) }
        ensures { result ≡ option_map (λ s. s.id)
            (find (λ s. agrees s.name (chars name.now)) self.now) }
    {
        ids.get(key).copied()
    }

    /// The index of the sheet with this id, from 0. None exactly where no sheet has it.
    pub fn index_of_id(&self, id: u32) -> Option<usize>
        ensures { result ≡ position (λ s. nat_eq s.id id) self.now }
    {
        index_in(&self.indexes, id)
    }

    /// Whether a sheet has this id.
    pub fn has_id(&self, id: u32) -> bool
        ensures { result ≡ list_any (nat_eq id) (map (λ s. s.id) self.now) }
    {
        self.index_of_id(id).is_some()
    }

    /// The index of the sheet whose name agrees with this one, from 0. None exactly where there is none.
    pub fn index_of_name(&self, ids: &BTreeMap<String, u32>, name: &str) -> Option<usize>
        requires { FindsSheets ids.now self.now }
        ensures { result ≡ position (λ s. agrees s.name (chars name.now)) self.now }
    {
        let id = self.find(ids, name)?;
        index_in(&self.indexes, id)
    }

    /// The name of the sheet with this id. None exactly where no sheet has it.
    pub fn name_of(&self, id: u32) -> Option<&str>
        ensures { option_map (λ name. chars name.now) result
            ≡ option_map (λ s. s.name) (find (λ s. nat_eq s.id id) self.now) }
    {
        let sheet = self.with_id(id)?;
        Some(sheet.name.as_str())
    }

    /// The sheet with this id. None exactly where there is none.
    pub fn with_id(&self, id: u32) -> Option<&Sheet>
        ensures { option_map (λ s. s.now) result ≡ find (λ s. nat_eq s.id id) self.now }
    {
        match self.index_of_id(id) {
            Some(index) => sheet_at(&self.list, index),
            None => None,
        }
    }

    /// Whether the name of a sheet agrees with this one.
    pub fn is_taken(&self, ids: &BTreeMap<String, u32>, name: &str) -> bool
        requires { FindsSheets ids.now self.now }
        ensures { result ≡ list_any (agrees (chars name.now)) (map (λ s. s.name) self.now) }
    {
        self.find(ids, name).is_some()
    }

    /// Whether the name of a sheet agrees with this one, other than the sheet at this index, from 0. Past the end no sheet
    /// is left out.
    pub fn is_taken_by_other(&self, ids: &BTreeMap<String, u32>, index: usize, name: &str) -> bool
        requires { FindsSheets ids.now self.now }
        ensures { result ≡ list_any (agrees (chars name.now))
            (remove (map (λ s. s.name) self.now) index) }
    {
        match (self.find(ids, name), sheet_at(&self.list, index)) {
            (None, _) => false,
            (Some(_), None) => true,
            (Some(id), Some(sheet)) => sheet.id != id,
        }
    }
}

/// The greatest id of the sheets that stand at these indexes, 0 where there is none.
fn greatest_in(indexes: &Spots) -> u32
    ensures { (sheets : List Sheet) → AreAtIndexes indexes.now sheets
        → result ≡ greatest (map (λ s. s.id) sheets) }
{
    indexes.greatest_id()
}
