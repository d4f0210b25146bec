ghost use Rattle.std.specs.Prelude.{◌≡◌, ◌<◌, ◌≤◌, ◌+◌, ℕ, List, [], ◌∷◌, false, true, length, option_map, IfOk, MatchOption, OnErr, OnOk};
ghost use Rattle.std.specs.List.{slice_get};
ghost use Rattle.ic_pool.specs.LookUp.{AreHashed, IsSame, found};
ghost use Rattle.ic_pool.specs.MentionPlaces.{AscendFrom, KnowsAll};
ghost use Rattle.ic_pool.specs.Pool.{KeepsPlaces, KnowsRest, dangling_count, dangling_weight, is_among};

use crate::look_up::LookUp;
use crate::mention_index::MentionIndex;
use crate::{HashedKey, Steps, has_dangling, key_of};
use ic_laws::{Formula, OutOfMemory};
use std::alloc::Global;
use std::collections::LinkedList;
use std::sync::ledger::Ledger;

/// The first place of each formula, by its key, in one step for each. It goes from the last to the first, so that the
/// first of equal ones is what is left.
pub fn index_of<L: Ledger>(
    alloc: Global,
    formulas: &[Formula],
    steps: &mut Steps<L>,
) -> Result<LookUp, OutOfMemory>
    ensures ok { IfOk result (λ index. KeepsPlaces (found index formulas.now) formulas.now) }
    ensures hashed { IfOk result (λ index. AreHashed index formulas.now) }
    ensures cost { steps.new ≤ steps.old + length formulas.now }
    ensures grows { steps.old ≤ steps.new }
{
    let mut index = LookUp::new(alloc);
    let mut at = formulas.len();
    while at > 0 {
        at -= 1;
        steps.tick();
        let key = key_of(alloc, &formulas[at])?;
        index.put(key, at)?;
    }
    Ok(index)
}

/// What a formula adds to the number of those that mention something that wasn't found.
pub fn dangling_weight(formula: &Formula) -> usize
    ensures value { result ≡ dangling_weight formula.now }
    ensures small { result ≤ 1 }
{
    if has_dangling(formula) { 1 } else { 0 }
}

/// How many of these formulas mention something that wasn't found.
pub fn dangling_in(formulas: &[Formula]) -> usize
    ensures { result ≡ dangling_count formulas.now }
{
    let mut count = 0;
    for formula in formulas {
        count += dangling_weight(formula);
    }
    count
}

/// All places below this one, in ascending order.
pub fn all_places(alloc: Global, end: usize) -> Result<Vec<usize>, OutOfMemory>
    ensures ascend { IfOk result (λ places. AscendFrom 0 places.items) }
    ensures all { IfOk result (λ places. (at : ℕ)
        → at < end → is_among at places.items ≡ true) }
{
    let mut places = Vec::new(alloc);
    for at in 0..end {
        places.push(at)?;
    }
    Ok(places)
}

/// Makes the index by mention anew where it lacks something or has much too much, and answers whether it then knows each
/// formula. Where there is no memory for that it stays.
pub fn renewed(
    alloc: Global,
    formulas: &[Formula],
    mentions: &mut MentionIndex,
    knows: bool,
) -> bool
    requires { knows ≡ true → KnowsAll mentions.old formulas.now }
    ensures { result ≡ true → KnowsAll mentions.new formulas.now }
{
    if knows && !mentions.is_stale() {
        return true;
    }
    match MentionIndex::of(alloc, formulas) {
        Ok(made) => {
            *mentions = made;
            true
        }
        Err(_) => knows,
    }
}

/// Puts the formulas at the late places into a look-up that has the others, in one step for each. Where there is no memory
/// left, those that it didn't come to stay late.
pub fn put_late<L: Ledger>(
    alloc: Global,
    formulas: &[Formula],
    index: &mut LookUp,
    late: &mut LinkedList<usize>,
    steps: &mut Steps<L>,
) -> Result<(), OutOfMemory>
    requires knows { KnowsRest (found index.old formulas.now) late.old formulas.now }
    requires hashed { AreHashed index.old formulas.now }
    ensures knows { KnowsRest (found index.new formulas.now) late.new formulas.now }
    ensures hashed { AreHashed index.new formulas.now }
    ensures done { OnOk result (late.new ≡ []) }
    ensures cost { steps.new ≤ steps.old + length late.old }
    ensures grows { steps.old ≤ steps.new }
{
    while let Some(at) = late.front().copied() {
        steps.tick();
        put_place(alloc, formulas, index, at)?;
        late.pop_front();
    }
    Ok(())
}

/// Puts the formula at an index, from 0, into a look-up, where no equal one is found at a place before; past the end there
/// is none.
fn put_place(
    alloc: Global,
    formulas: &[Formula],
    index: &mut LookUp,
    at: usize,
) -> Result<(), OutOfMemory>
    requires { AreHashed index.old formulas.now }
    ensures ok { OnOk result ((late : List ℕ)
        → KnowsRest (found index.old formulas.now) (at ∷ late) formulas.now
        → KnowsRest (found index.new formulas.now) late formulas.now) }
    ensures err { OnErr result (IsSame index.old index.new) }
    ensures hashed { AreHashed index.new formulas.now }
{
    let Some(formula) = formula_in(formulas, at) else {
        return Ok(());
    };
    let key = key_of(alloc, formula)?;
    if is_before(alloc, formulas, index, &key, at)? {
        return Ok(());
    }
    index.put(key, at)?;
    Ok(())
}

/// The formula at an index, from 0. None past the end.
pub fn formula_in(formulas: &[Formula], at: usize) -> Option<&Formula>
    ensures { option_map (λ f. f.now) result ≡ slice_get formulas.now at }
{
    formulas.get(at)
}

/// Whether a look-up has a key at this place or before.
fn is_before(
    alloc: Global,
    formulas: &[Formula],
    index: &LookUp,
    key: &HashedKey,
    at: usize,
) -> Result<bool, OutOfMemory>
    ensures { IfOk result (λ is. MatchOption (found index.now formulas.now key.now) (is ≡ false)
        (λ first. (is ≡ true → first ≤ at) × (is ≡ false → at ≤ first))) }
{
    match index.find(alloc, formulas, key)? {
        Some(first) => Ok(first <= at),
        None => Ok(false),
    }
}
