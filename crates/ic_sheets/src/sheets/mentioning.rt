//! Which sheets have formulas that mention something with one of some topics.
ghost use Rattle.std.specs.Prelude.{◌≡◌, ℕ, IfOk, OnOk, Some, map, true};
ghost use Rattle.std.specs.BTreeSet.{contains};
ghost use Rattle.std.specs.List.{slice_get};
ghost use Rattle.std.specs.Ordering.{nat_cmp};
ghost use Rattle.ic_pool.specs.MentionPlaces.{has_place_of};
ghost use Rattle.ic_sheets.specs.Index.{is_listed, is_part};
ghost use Rattle.ic_sheets.specs.Mentioners.{AreAbout};
ghost use Rattle.ic_sheets.specs.Spots.{index_at};
ghost use Rattle.ic_sheets.specs.declared.sheet.Sheet.{Sheet as HeldSheet};

use super::spots::Spots;
use super::{Sheets, index_in, sheet_at};
use crate::Sheet;
use crate::mentioners::Mentioners;
use ic_laws::{Boxed, OutOfMemory};
use std::alloc::Global;
use std::collections::BTreeSet;

impl Sheets {
    /// The ids of the sheets of which some formula mentions something with one of these topics, and maybe of others, in the
    /// order of the sheets.
    pub(super) fn ids_about(&self, topics: &[u64]) -> Result<Vec<u32>, OutOfMemory>
        ensures { IfOk result (λ ids. AreAbout topics.now ids.items self.now) }
    {
        if !self.mentioners.has_all() {
            return all_ids(self.alloc, &self.list);
        }
        let indexes = indexes_about(self.alloc, &self.mentioners, &self.indexes, topics)?;
        ids_at(self.alloc, &self.list, &indexes)
    }
}

/// The ids of all sheets.
fn all_ids(alloc: Global, sheets: &[Boxed<Sheet>]) -> Result<Vec<u32>, OutOfMemory>
    ensures { IfOk result (λ ids. ids.items ≡ map (λ s. s.id) sheets.now) }
{
    let mut ids = Vec::with_capacity(alloc, sheets.len())?;
    for sheet in sheets {
        ids.push_reserved(sheet.as_ref().id);
    }
    Ok(ids)
}

/// The indexes of the sheets whose ids are noted with one of these topics.
fn indexes_about(
    alloc: Global,
    mentioners: &Mentioners,
    indexes: &Spots,
    topics: &[u64],
) -> Result<BTreeSet<usize>, OutOfMemory>
    ensures { IfOk result (λ about. (id : ℕ) → (index : ℕ)
        → has_place_of mentioners.now.index topics.now id ≡ true
        → index_at id indexes.now.list.items ≡ Some index → contains nat_cmp about index ≡ true) }
{
    let mut about = BTreeSet::new(alloc);
    for topic in topics {
        put_indexes(&mut about, indexes, mentioners.ids_with(*topic))?;
    }
    Ok(about)
}

/// Puts the indexes of the sheets with these ids in.
pub(super) fn put_indexes(
    about: &mut BTreeSet<usize>,
    indexes: &Spots,
    ids: &[u32],
) -> Result<(), OutOfMemory>
    ensures kept { (index : ℕ) → contains nat_cmp about.old index ≡ true
        → contains nat_cmp about.new index ≡ true }
    ensures put { OnOk result ((id : ℕ) → (index : ℕ) → is_listed id ids.now ≡ true
        → index_at id indexes.now.list.items ≡ Some index
        → contains nat_cmp about.new index ≡ true) }
{
    for id in ids {
        if let Some(index) = index_in(indexes, *id) {
            about.insert(index)?;
        }
    }
    Ok(())
}

/// The ids of the sheets at these indexes, from 0, in the order of the sheets.
fn ids_at(
    alloc: Global,
    sheets: &[Boxed<Sheet>],
    indexes: &BTreeSet<usize>,
) -> Result<Vec<u32>, OutOfMemory>
    ensures ordered { IfOk result (λ ids.
        is_part ids.items (map (λ s. s.id) sheets.now) ≡ true) }
    ensures there { IfOk result (λ ids. (index : ℕ) → (sheet : HeldSheet)
        → slice_get sheets.now index ≡ Some sheet → contains nat_cmp indexes.now index ≡ true
        → is_listed sheet.id ids.items ≡ true) }
{
    let mut ids = Vec::new(alloc);
    for index in indexes {
        if let Some(sheet) = sheet_at(sheets, *index) {
            ids.push(sheet.id)?;
        }
    }
    Ok(ids)
}
