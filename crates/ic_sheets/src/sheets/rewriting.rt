//! What a change of the sheets or the definitions does to the formulas of sheets. It is prepared before anything changes.
ghost use Rattle.std.specs.Prelude.{◌≡◌, IfOk, Some, true};
ghost use Rattle.std.specs.List.{AllByRecursion};
ghost use Rattle.ic_pool.specs.Remade.{LeavesUntouched};
ghost use Rattle.ic_sheets.specs.Index.{AreAtIndexes, is_id};
ghost use Rattle.ic_sheets.specs.Remade.{IsRemade};
ghost use Rattle.ic_sheets.specs.Rewriting.{IsPrepared, PreparesEach};

use super::dangling::sheet_with;
use super::spots::Spots;
use crate::Sheet;
use ic_laws::{Boxed, OutOfMemory};
use ic_pool::{BookChange, Remaking, Rewrites};
use std::alloc::Global;

/// What a change does to the formulas of each of the sheets with these ids, with each its id.
pub fn prepare_own<C: BookChange>(
    alloc: Global,
    sheets: &[Boxed<Sheet>],
    indexes: &Spots,
    ids: &[u32],
    change: &C,
) -> Result<Vec<(u32, Rewrites)>, OutOfMemory>
    requires placed { AreAtIndexes indexes.now sheets.now }
    requires known { AllByRecursion (λ id. is_id id sheets.now ≡ true) ids.now }
    ensures { IfOk result (λ prepared.
        PreparesEach (IsPrepared (C.change change.now)) prepared.items ids.now sheets.now) }
{
    let mut prepared = Vec::new(alloc);
    for id in ids {
        // Each of them is the id of a sheet.
        if let Some(sheet) = sheet_with(sheets, indexes, *id) {
            let rewrites = sheet.pool.prepare(change, Some(sheet.id))?;
            prepared.push((*id, rewrites))?;
        }
    }
    Ok(prepared)
}

/// The same where a rule makes formulas anew, if it leaves each that it doesn't touch.
pub fn prepare_remade<R: Remaking>(
    alloc: Global,
    sheets: &[Boxed<Sheet>],
    indexes: &Spots,
    ids: &[u32],
    remaking: &R,
) -> Result<Vec<(u32, Rewrites)>, OutOfMemory>
    requires placed { AreAtIndexes indexes.now sheets.now }
    requires known { AllByRecursion (λ id. is_id id sheets.now ≡ true) ids.now }
    requires leaves { AllByRecursion (λ s. AllByRecursion (LeavesUntouched (R.made remaking.now)
        (Some s.id)) s.pool.formulas) sheets.now }
    ensures { IfOk result (λ prepared.
        PreparesEach (IsRemade (R.made remaking.now)) prepared.items ids.now sheets.now) }
{
    let mut prepared = Vec::new(alloc);
    for id in ids {
        // Each of them is the id of a sheet.
        if let Some(sheet) = sheet_with(sheets, indexes, *id) {
            let rewrites = sheet.pool.prepare_remade(remaking, Some(sheet.id))?;
            prepared.push((*id, rewrites))?;
        }
    }
    Ok(prepared)
}
