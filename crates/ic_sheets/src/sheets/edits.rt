//! Sheets come, go, get other names and stand at other indexes.
ghost use Rattle.std.specs.Prelude.{◌≡◌, ◌<◌, ◌≤◌, ◌++◌, ℕ, List, [], ◌∷◌, Some, None, OnOk, OnErr, bytes_eq, chars, cond, false, true, insert, length, map, nat_eq, remove, string_bytes};
ghost use Rattle.std.specs.BTreeMap.{get_by_text};
ghost use Rattle.std.specs.List.{list_any};
ghost use Rattle.ic_laws.specs.CoreStep.{moved, updated_at};
ghost use Rattle.ic_laws.specs.Name.{agrees};
ghost use Rattle.ic_sheets.specs.Index.{FindsSheets, IsFoundBy, LosesName, StillFinds, other_than};
ghost use Rattle.ic_sheets.specs.Sheet.{empty_grid, plain_tab};

use super::dangling::{dangles, settle};
use super::{Sheets, folded, greatest_in};
use crate::{Sheet, Tab};
use ic_grid::Grid;
use ic_laws::{Boxed, OutOfMemory, Text};
use ic_pool::Pool;
use std::alloc::Global;
use std::collections::BTreeMap;

impl Sheets {
    /// Adds a sheet at the end, whose id none of the others has, which keeps no formulas, and leaves the formulas of the
    /// others: a new book begins with it, and one that is handed in with all of its sheets. `OutOfMemory` changes nothing.
    pub fn add_leaving_formulas(
        &mut self,
        ids: &mut BTreeMap<String, u32>,
        id: u32,
        name: &str,
    ) -> Result<(), OutOfMemory>
        requires finds { FindsSheets ids.old self.old }
        requires free { list_any (agrees (chars name.now)) (map (λ s. s.name) self.old) ≡ false }
        requires fresh { list_any (nat_eq id) (map (λ s. s.id) self.old) ≡ false }
        ensures ok { OnOk result (self.new ≡ self.old
            ++ record {
              id = id;
              name = chars name.now;
              pool
                  = record { formulas = []; is_whole = true };
              grid = empty_grid;
              tab = plain_tab;
            }
            ∷ []) }
        ensures err { OnErr result (self.new ≡ self.old) }
        ensures finds { FindsSheets ids.new self.new }
    {
        let key = folded(self.alloc, name)?;
        let name = Text::from_str(self.alloc, name)?;
        let sheet = Boxed::new(self.alloc, Sheet::new(self.alloc, id, name))?;
        self.list.reserve(1)?;
        let place = self.list.len();
        self.dangling.reserve(place + 1)?;
        self.indexes.reserve()?;
        put_id(ids, key, id)?;
        self.indexes.put(id, place);
        self.list.push_reserved(sheet);
        self.greatest = self.greatest.max(id);
        Ok(())
    }

    /// Puts a sheet in at an index, from 0 and at most the number of sheets, so that those from there on stand one further.
    /// None of the others has its id; it keeps no formulas, and those of the others stay. `OutOfMemory` changes nothing.
    pub fn insert_leaving_formulas(
        &mut self,
        ids: &mut BTreeMap<String, u32>,
        index: usize,
        id: u32,
        name: &str,
    ) -> Result<(), OutOfMemory>
        requires finds { FindsSheets ids.old self.old }
        requires within { index ≤ length self.old }
        requires free { list_any (agrees (chars name.now)) (map (λ s. s.name) self.old) ≡ false }
        requires fresh { list_any (nat_eq id) (map (λ s. s.id) self.old) ≡ false }
        ensures ok { OnOk result (self.new ≡ insert self.old index
            (record {
              id = id;
              name = chars name.now;
              pool
                  = record { formulas = []; is_whole = true };
              grid = empty_grid;
              tab = plain_tab;
            })) }
        ensures err { OnErr result (self.new ≡ self.old) }
        ensures finds { FindsSheets ids.new self.new }
    {
        let last = self.len();
        self.add_leaving_formulas(ids, id, name)?;
        if index < last {
            self.move_to(last, index);
        }
        Ok(())
    }

    /// Gives the sheet at an index, from 0, other formulas, cells with their rows, columns and merged cells, and another tab.
    /// The formulas of the others stay. It takes no memory.
    pub fn fill(&mut self, index: usize, pool: Pool, grid: Grid, tab: Tab)
        requires { index < length self.old }
        ensures { self.new ≡ updated_at
            (λ s. record s { pool = pool; grid = grid; tab = tab }) index self.old }
    {
        let sheet = self.list[index].as_mut();
        let was = dangles(sheet);
        sheet.fill(pool, grid, tab);
        settle(&mut self.dangling, sheet.id, was, dangles(sheet));
        self.mentioners.note_from(sheet.id, &sheet.pool, 0);
        self.holders.note(sheet);
    }

    /// Gives the sheet at an index, from 0, another name, and leaves all formulas. `OutOfMemory` changes nothing.
    pub(crate) fn rename_leaving_formulas(
        &mut self,
        ids: &mut BTreeMap<String, u32>,
        index: usize,
        name: &str,
    ) -> Result<(), OutOfMemory>
        requires finds { FindsSheets ids.old self.old }
        requires within { index < length self.old }
        requires free { list_any (agrees (chars name.now))
            (remove (map (λ s. s.name) self.old) index) ≡ false }
        ensures ok { OnOk result (self.new ≡ updated_at (λ s. record s { name = chars name.now })
            index self.old) }
        ensures err { OnErr result (self.new ≡ self.old) }
        ensures finds { FindsSheets ids.new self.new }
    {
        let key = folded(self.alloc, name)?;
        let new_name = Text::from_str(self.alloc, name)?;
        let sheet = self.list[index].as_ref();
        let id = sheet.id;
        let old_key = folded(self.alloc, sheet.name.as_str())?;
        rekey(ids, old_key.as_str(), key, id)?;
        let sheet = self.list[index].as_mut();
        sheet.name = new_name;
        Ok(())
    }

    /// Takes the sheet at an index away, from 0, and leaves the formulas of the others. It takes no memory.
    pub fn take_out(&mut self, ids: &mut BTreeMap<String, u32>, index: usize)
        requires finds { FindsSheets ids.old self.old }
        requires within { index < length self.old }
        ensures left { self.new ≡ remove self.old index }
        ensures finds { FindsSheets ids.new self.new }
    {
        let sheet = self.list[index].as_ref();
        let id = sheet.id;
        settle(&mut self.dangling, id, dangles(sheet), false);
        take_key(self.alloc, ids, sheet.name.as_str(), id);
        self.holders.forget(id);
        self.indexes.take_out(id);
        self.list.remove(index);
        self.indexes.lower(&self.list, index);
        self.greatest = greatest_in(&self.indexes);
    }

    /// Puts the sheet at an index to another, both from 0; the others keep their order. It takes no memory.
    pub fn move_to(&mut self, from: usize, to: usize)
        requires from { from < length self.old }
        requires to { to < length self.old }
        ensures moved { self.new ≡ moved from to self.old }

        // What finds them by their names still does.
        ensures finds { StillFinds self.old self.new }
    {
        shift(&mut self.list, from, to);
        self.indexes.follow(&self.list, from, to);
    }
}

/// Puts the sheet at an index to another, both from 0; those between stand one further or one before.
fn shift(sheets: &mut [Boxed<Sheet>], from: usize, to: usize)
    requires from { from < length sheets.old }
    requires to { to < length sheets.old }
    ensures { sheets.new ≡ moved from to sheets.old }
{
    if from < to {
        sheets[from..to + 1].rotate_left(1);
    } else {
        sheets[to..from + 1].rotate_right(1);
    }
}

/// Puts a key and an id in. `OutOfMemory` changes nothing.
pub(super) fn put_id(
    ids: &mut BTreeMap<String, u32>,
    key: String,
    id: u32,
) -> Result<(), OutOfMemory>
    ensures ok { OnOk result ((q : List ℕ) → get_by_text ids.new q
        ≡ cond (bytes_eq (string_bytes key) q) (Some id) (get_by_text ids.old q)) }
    ensures err { OnErr result ((q : List ℕ) → get_by_text ids.new q ≡ get_by_text ids.old q) }
{
    ids.insert(key, id)?;
    Ok(())
}

/// Takes the key of this name out, by which alone this id is found. It takes no memory: where there is none for the key,
/// all ids are looked at.
fn take_key(alloc: Global, ids: &mut BTreeMap<String, u32>, name: &str, id: u32)
    requires { IsFoundBy (chars name.now) id ids.old }
    ensures { LosesName (chars name.now) ids.old ids.new }
{
    match folded(alloc, name) {
        Ok(key) => {
            ids.remove(key.as_str());
        }
        Err(_) => take_id(ids, id),
    }
}

/// Takes the keys of an id out. It takes no memory.
fn take_id(ids: &mut BTreeMap<String, u32>, id: u32)
    ensures { (q : List ℕ) → get_by_text ids.new q ≡ other_than id (get_by_text ids.old q) }
{
    ids.retain(|_, found| *found != id);
}

/// Takes a key out and puts another in, which may be the same.
fn rekey(
    ids: &mut BTreeMap<String, u32>,
    old_key: &str,
    key: String,
    id: u32,
) -> Result<(), OutOfMemory>
    ensures ok { OnOk result ((q : List ℕ) → get_by_text ids.new q
        ≡ cond (bytes_eq (string_bytes key) q) (Some id)
        (cond (bytes_eq old_key.now q) None (get_by_text ids.old q))) }
    ensures err { OnErr result ((q : List ℕ) → get_by_text ids.new q ≡ get_by_text ids.old q) }
{
    let same = key.as_str() == old_key;
    ids.insert(key, id)?;
    if !same {
        ids.remove(old_key);
    }
    Ok(())
}
