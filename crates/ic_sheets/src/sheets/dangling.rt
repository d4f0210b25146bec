//! Which sheets have formulas that mention something that wasn't found, told by their ids.
ghost use Rattle.std.specs.Prelude.{◌≡◌, ◌<◌, ◌&&◌, ℕ, IfOk, Some, false, filter, find, map, nat_eq, not, option_map, vec_capacity, vec_len, if◌then◌else◌};
ghost use Rattle.std.specs.List.{IsDistinct};
ghost use Rattle.ic_sheets.specs.Index.{AreAtIndexes, AreDangling, AreLookedAt, dangles, dangles_at, is_id, is_listed};

use super::spots::Spots;
use super::{index_in, sheet_at};
use crate::Sheet;
use ic_laws::{Boxed, OutOfMemory};
use std::alloc::Global;

/// Whether some formula of a sheet mentions something that wasn't found.
pub fn dangles(sheet: &Sheet) -> bool
    ensures { result ≡ dangles sheet.now }
{
    sheet.pool.dangling_count() > 0
}

/// Puts an id in or takes it out, where it was among these or not and is to be or not. It takes no memory: there is room
/// for one that comes.
pub fn settle(ids: &mut Vec<u32>, id: u32, was: bool, now: bool)
    requires was { is_listed id ids.old.items ≡ was }
    requires differ { IsDistinct nat_eq ids.old.items }
    requires room { was ≡ false → vec_len ids.old < vec_capacity ids.old }
    ensures finds { (q : ℕ) → is_listed q ids.new.items
        ≡ (if nat_eq q id then now else is_listed q ids.old.items) }
    ensures differ { IsDistinct nat_eq ids.new.items }
    ensures capacity { vec_capacity ids.new ≡ vec_capacity ids.old }
{
    match (was, now) {
        (false, true) => ids.push_reserved(id),
        (true, false) => take_out(ids, id),
        _ => {}
    }
}

/// Takes an id out.
fn take_out(ids: &mut Vec<u32>, id: u32)
    ensures ids { ids.new.items ≡ filter (λ q. not (nat_eq q id)) ids.old.items }
    ensures capacity { vec_capacity ids.new ≡ vec_capacity ids.old }
{
    ids.retain(|q| *q != id);
}

/// The ids of the sheets in which something dangles, and this one, where there is a sheet with it.
pub fn looked_at(
    alloc: Global,
    sheets: &[Boxed<Sheet>],
    indexes: &Spots,
    dangling: &[u32],
    id: u32,
) -> Result<Vec<u32>, OutOfMemory>
    requires placed { AreAtIndexes indexes.now sheets.now }
    requires differ { IsDistinct nat_eq (map (λ s. s.id) sheets.now) }
    requires dangling { AreDangling dangling.now sheets.now }
    ensures { IfOk result (λ ids. AreLookedAt (Some id) ids.items sheets.now) }
{
    let mut ids = dangling.to_vec(alloc)?;
    if !is_clean_with(sheets, indexes, id) {
        return Ok(ids);
    }
    ids.push(id)?;
    Ok(ids)
}

/// Whether there is a sheet with this id, and nothing dangles in it.
fn is_clean_with(sheets: &[Boxed<Sheet>], indexes: &Spots, id: u32) -> bool
    requires placed { AreAtIndexes indexes.now sheets.now }
    requires differ { IsDistinct nat_eq (map (λ s. s.id) sheets.now) }
    ensures { result ≡ (is_id id sheets.now && not (dangles_at id sheets.now)) }
{
    match sheet_with(sheets, indexes, id) {
        Some(sheet) => !dangles(sheet),
        None => false,
    }
}

/// The sheet with this id.
pub fn sheet_with<'s>(sheets: &'s [Boxed<Sheet>], indexes: &Spots, id: u32) -> Option<&'s Sheet>
    ensures { AreAtIndexes indexes.now sheets.now
        → option_map (λ s. s.now) result ≡ find (λ s. nat_eq s.id id) sheets.now }
{
    match index_in(indexes, id) {
        Some(index) => sheet_at(sheets, index),
        None => None,
    }
}
