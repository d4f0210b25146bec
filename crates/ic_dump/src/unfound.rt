//! The sheets that formulas name and that aren't there.
ghost use Rattle.std.specs.Prelude.{◌≡◌, ◌++◌, OnOk, flat_map, map};
ghost use Rattle.ic_dump.specs.Passing.{unfound, unfound_in, unfound_of};

use ic_laws::{Bound, Formula, LetPair, NameMention, OutOfMemory, SheetMention, Text, Tree};

/// Names of sheets, lent by formulas.
pub(crate) type Names<'f> = Vec<&'f Text>;

/// Puts the names of sheets that a formula names and that weren't found at the end.
pub(crate) fn push_unfound_of<'f>(
    names: &mut Names<'f>,
    formula: &'f Formula,
) -> Result<(), OutOfMemory>
    ensures { OnOk result (map (λ name. name.now) names.new.items
        ≡ map (λ name. name.now) names.old.items ++ unfound_of formula.now) }
{
    match formula {
        Formula::Tree(tree) => push_unfound(names, tree),
        Formula::Raw(_) => Ok(()),
    }
}

/// Those of a tree.
#[cycle(push_unfound)]
fn push_unfound<'f>(names: &mut Names<'f>, tree: &'f Bound) -> Result<(), OutOfMemory>
    ensures { OnOk result (map (λ name. name.now) names.new.items
        ≡ map (λ name. name.now) names.old.items ++ unfound_in tree.now) }
{
    match tree {
        Tree::Reference(sheet, _) => push_sheet(names, sheet),
        Tree::Local(sheet, _) => push_sheet(names, sheet),
        Tree::Paren(x) => push_unfound(names, x.as_ref()),
        Tree::Prefix(_, x) => push_unfound(names, x.as_ref()),
        Tree::Percent(x) => push_unfound(names, x.as_ref()),
        Tree::Spill(x) => push_unfound(names, x.as_ref()),
        Tree::Binary(_, a, b) => {
            push_unfound(names, a.as_ref())?;
            push_unfound(names, b.as_ref())
        }
        Tree::Fun(_, arguments) => push_all(names, arguments.as_slice()),
        Tree::Call(_, arguments) => push_all(names, arguments.as_slice()),
        Tree::Let(pairs, body) => {
            push_values(names, pairs.as_slice())?;
            push_unfound(names, body.as_ref())
        }
        Tree::Lambda(_, body) => push_unfound(names, body.as_ref()),
        Tree::Apply(x, arguments) => {
            push_unfound(names, x.as_ref())?;
            push_all(names, arguments.as_slice())
        }
        _ => Ok(()),
    }
}

/// Those of these trees.
#[cycle(push_unfound)]
fn push_all<'f>(names: &mut Names<'f>, trees: &'f [Bound]) -> Result<(), OutOfMemory>
    ensures { OnOk result (map (λ name. name.now) names.new.items
        ≡ map (λ name. name.now) names.old.items
        ++ flat_map (λ ns. ns) (map unfound_in trees.now)) }
{
    for tree in trees {
        push_unfound(names, tree)?;
    }
    Ok(())
}

/// Those in the values of these variables.
#[cycle(push_unfound)]
fn push_values<'f>(
    names: &mut Names<'f>,
    pairs: &'f [LetPair<SheetMention, NameMention>],
) -> Result<(), OutOfMemory>
    ensures { OnOk result (map (λ name. name.now) names.new.items
        ≡ map (λ name. name.now) names.old.items
        ++ flat_map (λ ns. ns) (map (λ pair. unfound_in pair.value) pairs.now)) }
{
    for pair in pairs {
        push_unfound(names, &pair.value)?;
    }
    Ok(())
}

/// The name of a sheet that wasn't found.
fn push_sheet<'f>(names: &mut Names<'f>, sheet: &'f SheetMention) -> Result<(), OutOfMemory>
    ensures { OnOk result (map (λ name. name.now) names.new.items
        ≡ map (λ name. name.now) names.old.items ++ unfound sheet.now) }
{
    match sheet {
        SheetMention::Dangling(name) => Ok(names.push(name.as_ref())?),
        _ => Ok(()),
    }
}
