//! The ids of passing sheets.
ghost use Rattle.std.specs.Prelude.{◌≡◌, ◌++◌, ◌||◌, [], ◌∷◌, ℕ, List, IfOk, OnOk, cond, flat_map, map, nat_eq};
ghost use Rattle.std.specs.BTreeSet.{contains};
ghost use Rattle.std.specs.Option.{option_to_list};
ghost use Rattle.std.specs.Ordering.{nat_cmp};
ghost use Rattle.ic_dump.specs.Passing.{other_ids};
ghost use Rattle.ic_dump.specs.Records.{AreOthers, FindsIds};

use crate::sheets::SheetSeen;
use ic_cells::DefinedName;
use ic_laws::OutOfMemory;
use std::alloc::Global;
use std::collections::BTreeSet;

/// The id of a new book's sheet.
const FIRST_ID: u32 = 1;

/// The ids that definitions are local to and no sheet has, each once, and 1 where nothing has it.
pub(crate) fn passing_ids(
    alloc: Global,
    sheets: &[SheetSeen<'_>],
    definitions: &[DefinedName],
) -> Result<Vec<u32>, OutOfMemory>
    ensures { IfOk result (λ ids. ids.items ≡ other_ids (map (λ s. s.name.now.id) sheets.now)
        (flat_map (λ d. option_to_list d.sheet_id) definitions.now ++ 1 ∷ [])) }
{
    let mut seen = own_ids(alloc, sheets)?;
    let mut ids = Vec::new(alloc);
    for definition in definitions {
        push_scope(&mut ids, &mut seen, definition.sheet_id)?;
    }
    push_scope(&mut ids, &mut seen, Some(FIRST_ID))?;
    Ok(ids)
}

/// The ids of these sheets.
fn own_ids(alloc: Global, sheets: &[SheetSeen<'_>]) -> Result<BTreeSet<u32>, OutOfMemory>
    ensures { IfOk result (λ seen. FindsIds seen (map (λ s. s.name.now.id) sheets.now)) }
{
    let mut seen = BTreeSet::new(alloc);
    for sheet in sheets {
        seen.insert(sheet.name.id)?;
    }
    Ok(seen)
}

/// Puts the id at the end, where there is one that wasn't seen.
fn push_scope(
    ids: &mut Vec<u32>,
    seen: &mut BTreeSet<u32>,
    scope: Option<u32>,
) -> Result<(), OutOfMemory>
    ensures { (own past : List ℕ) → AreOthers seen.old ids.old.items own past → OnOk result
        (AreOthers seen.new ids.new.items own (past ++ option_to_list scope)) }
{
    match scope {
        Some(id) => push_new(ids, seen, id),
        None => Ok(()),
    }
}

/// Puts an id at the end where it wasn't seen.
fn push_new(ids: &mut Vec<u32>, seen: &mut BTreeSet<u32>, id: u32) -> Result<(), OutOfMemory>
    ensures listed { OnOk result (ids.new.items ≡ ids.old.items
        ++ cond (contains nat_cmp seen.old id) [] (id ∷ [])) }
    ensures seen { OnOk result ((other : ℕ) → contains nat_cmp seen.new other
        ≡ (nat_eq id other || contains nat_cmp seen.old other)) }
{
    if !seen.contains(&id) {
        seen.insert(id)?;
        ids.push(id)?;
    }
    Ok(())
}
