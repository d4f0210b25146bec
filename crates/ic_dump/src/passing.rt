//! Names that nothing in a book means.
ghost use Rattle.std.specs.Prelude.{◌≡◌, ◌<◌, ◌+◌, ◌^◌, ◌++◌, [], ◌∷◌, List, ℕ, IfOk, OnOk, cond, length, map};
ghost use Rattle.std.specs.Fmt.{decimal};
ghost use Rattle.ic_tables.specs.Words.{FindsFoldings};
ghost use Rattle.ic_dump.specs.Passing.{free_numerals, is_free};

use crate::lines::digits_of;
use caseless::default_case_fold_str;
use ic_laws::{OutOfMemory, Text};
use std::alloc::Global;
use std::collections::BTreeSet;

/// The first numerals from 1 on that agree with none of these names, as many as are asked for.
pub(crate) fn free_numerals(
    alloc: Global,
    count: usize,
    taken: &[&Text],
) -> Result<Vec<Text>, OutOfMemory>
    requires { count < 2 ^ 62 }
    ensures names { IfOk result (λ names. names.items
        ≡ free_numerals count (map (λ t. t.now) taken.now)) }

    // Taken names are in memory.
    ensures few { OnOk result (count + length taken.now < 2 ^ 64) }
{
    let folded = folded_names(alloc, taken)?;
    let end = count + taken.len() + 1;
    let mut names = Vec::new(alloc);
    for number in 1..end {
        if names.len() == count {
            break;
        }
        push_if_free(alloc, &mut names, &folded, number as u64)?;
    }
    Ok(names)
}

/// Puts a numeral at the end if it agrees with none of these names, which are folded.
fn push_if_free(
    alloc: Global,
    names: &mut Vec<Text>,
    folded: &BTreeSet<String>,
    number: u64,
) -> Result<(), OutOfMemory>
    ensures { (taken : List (List ℕ)) → FindsFoldings folded.now taken → OnOk result
        (names.new.items ≡ names.old.items
        ++ cond (is_free taken (decimal number)) (decimal number ∷ []) []) }
{
    let numeral = digits_of(alloc, number)?;
    if !folded.contains(numeral.as_str()) {
        names.push(Text::from(numeral))?;
    }
    Ok(())
}

/// The names, folded.
fn folded_names(alloc: Global, names: &[&Text]) -> Result<BTreeSet<String>, OutOfMemory>
    ensures { IfOk result (λ folded. FindsFoldings folded (map (λ t. t.now) names.now)) }
{
    let mut folded = BTreeSet::new(alloc);
    for name in names {
        put_folded(alloc, &mut folded, name)?;
    }
    Ok(folded)
}

/// Puts a name in, folded.
fn put_folded(alloc: Global, folded: &mut BTreeSet<String>, name: &Text) -> Result<(), OutOfMemory>
    ensures { (taken : List (List ℕ)) → FindsFoldings folded.old taken → OnOk result
        (FindsFoldings folded.new (taken ++ name.now ∷ [])) }
{
    let text = default_case_fold_str(alloc, name.as_str())?;
    folded.insert(text)?;
    Ok(())
}
