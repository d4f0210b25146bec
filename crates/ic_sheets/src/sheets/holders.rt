//! Which sheets hold cells, so that what is asked of all cells looks at no sheet without any.
ghost use Rattle.std.specs.Prelude.{◌≡◌, ℕ, IfOk, IfSome, false, nat_eq, true};
ghost use Rattle.ic_sheets.specs.Holders.{AreHolders, KeepsHolders, KnowsCells};
ghost use Rattle.ic_sheets.specs.Index.{is_listed};

use super::Sheets;
use super::mentioning::put_indexes;
use crate::Sheet;
use ic_laws::OutOfMemory;
use std::alloc::Global;
use std::collections::BTreeSet;

/// To find the index of one sheet takes as long as to look at so many of a row whether they hold cells.
const SHEETS_PER_HOLDER: usize = 32;

/// The ids of the sheets that hold cells, and maybe of others, each once and ascending: none is taken out when a sheet loses
/// its cells.
pub struct Holders {
    ids: Vec<u32>,
    /// Where it is false, there was no memory for some id.
    has_all: bool,
}

impl Drop for Holders {
    fn drop(self) {
        let Self { ids, has_all: _ } = self;
        drop(ids);
    }
}

impl Holders {
    /// Of no sheets.
    pub fn new(alloc: Global) -> Holders {
        Holders {
            ids: Vec::new(alloc),
            has_all: true,
        }
    }

    /// Notes whether this sheet holds cells. Where there is no memory for its id, it has not all from then on.
    pub fn note(&mut self, sheet: &Sheet)
        ensures noted { KnowsCells self.new sheet.now }
        ensures kept { KeepsHolders self.old self.new }
    {
        if !sheet.grid.cells.as_map().is_empty() {
            self.put(sheet.id);
        }
    }

    /// Puts an id in.
    fn put(&mut self, id: u32)
        ensures put { self.new.has_all ≡ true → is_listed id self.new.ids.items ≡ true }
        ensures kept { KeepsHolders self.old self.new }
    {
        if let Err(at) = self.ids.binary_search(&id) {
            if self.ids.insert(at, id).is_err() {
                self.has_all = false;
            }
        }
    }

    /// Takes an id out. It takes no memory.
    pub fn forget(&mut self, id: u32)
        ensures has_all { self.new.has_all ≡ self.old.has_all }
        ensures others { (other : ℕ) → nat_eq id other ≡ false
            → is_listed other self.old.ids.items ≡ true
            → is_listed other self.new.ids.items ≡ true }
    {
        if let Ok(at) = self.ids.binary_search(&id) {
            self.ids.remove(at);
        }
    }
}

impl Sheets {
    /// The indexes of the sheets that hold cells, and maybe of others, from 0. None where they may be more than a few.
    pub fn few_holders(&self) -> Result<Option<BTreeSet<usize>>, OutOfMemory>
        ensures { IfOk result (λ found. IfSome found (λ indexes. AreHolders indexes 0 self.now)) }
    {
        let most = self.list.len() / SHEETS_PER_HOLDER;
        if !self.holders.has_all || self.holders.ids.len() > most {
            return Ok(None);
        }
        let mut indexes = BTreeSet::new(self.alloc);
        put_indexes(&mut indexes, &self.indexes, &self.holders.ids)?;
        Ok(Some(indexes))
    }
}
