//! Sheets that are made all at once, with ids in any order.
ghost use Rattle.std.specs.Prelude.{◌≡◌, IfOk, MatchOption, map, nat_eq};
ghost use Rattle.std.specs.List.{IsDistinct};
ghost use Rattle.ic_sheets.specs.Index.{FindsSheets};
ghost use Rattle.ic_sheets.specs.Records.{HasApartNames, started};

use super::edits::put_id;
use super::holders::Holders;
use super::spots::Spots;
use super::{Sheets, folded};
use crate::Sheet;
use crate::mentioners::Mentioners;
use ic_cells::Worksheet;
use ic_laws::{Boxed, OutOfMemory, Text};
use std::alloc::Global;
use std::collections::BTreeMap;

impl Sheets {
    /// Sheets with the ids and the names of these, in their order, which hold nothing yet, and what finds them by their names.
    /// None exactly where two have one id.
    pub(crate) fn started(
        alloc: Global,
        worksheets: &[Worksheet],
    ) -> Result<Option<(Sheets, BTreeMap<String, u32>)>, OutOfMemory>
        requires { HasApartNames worksheets.now }
        ensures { IfOk result (λ made. MatchOption made
            (IsDistinct nat_eq (map (λ w. w.sheet_id) worksheets.now) → ⊥)
            (λ named. IsDistinct nat_eq (map (λ w. w.sheet_id) worksheets.now)
            × (named.0 ≡ map started worksheets.now) × FindsSheets named.1 named.0)) }
    {
        let (list, ids) = all_started(alloc, worksheets)?;
        let Some(indexes) = Spots::of_sheets(alloc, &list)? else {
            return Ok(None);
        };
        let dangling = Vec::with_capacity(alloc, list.len())?;
        let greatest = indexes.greatest_id();
        let sheets = Sheets {
            alloc,
            list,
            indexes,
            greatest,
            dangling,
            mentioners: Mentioners::new(alloc),
            holders: Holders::new(alloc),
        };
        Ok(Some((sheets, ids)))
    }
}

/// The sheets alone, and what finds them by their names.
fn all_started(
    alloc: Global,
    worksheets: &[Worksheet],
) -> Result<(Vec<Boxed<Sheet>>, BTreeMap<String, u32>), OutOfMemory>
    requires { HasApartNames worksheets.now }
    ensures sheets { IfOk result (λ made. made.0.items ≡ map started worksheets.now) }
    ensures finds { IfOk result (λ made. FindsSheets made.1 made.0.items) }
{
    let mut list = Vec::new(alloc);
    let mut ids = BTreeMap::new(alloc);
    for worksheet in worksheets {
        let sheet = started_one(alloc, worksheet)?;
        let key = folded(alloc, worksheet.name.as_str())?;
        list.push(sheet)?;
        put_id(&mut ids, key, worksheet.sheet_id)?;
    }
    Ok((list, ids))
}

/// A sheet with the id and the name of a record, which holds nothing yet.
fn started_one(alloc: Global, worksheet: &Worksheet) -> Result<Boxed<Sheet>, OutOfMemory>
    ensures { IfOk result (λ sheet. sheet ≡ started worksheet.now) }
{
    let name = Text::from_str(alloc, worksheet.name.as_str())?;
    Boxed::new(alloc, Sheet::new(alloc, worksheet.sheet_id, name))
}
