//! Which formulas mention a sheet. None of this takes memory.
ghost use Rattle.std.specs.Prelude.{◌≡◌, map};
ghost use Rattle.std.specs.List.{list_any};
ghost use Rattle.ic_laws.specs.Changes.{is_of_sheet};
ghost use Rattle.ic_machine.specs.subjects.Sheets.{mentions_sheet};
ghost use Rattle.ic_changes.specs.Copied.{mentions_in};

use ic_laws::{Bound, Formula, LetPair, NameMention, SheetMention, Tree};

/// Whether some mention of a formula is of the sheet with this id.
pub fn mentions_sheet(id: u32, formula: &Formula) -> bool
    ensures { result ≡ mentions_sheet id formula.now }
{
    match formula {
        Formula::Tree(tree) => mentions_in(id, tree),
        Formula::Raw(_) => false,
    }
}

/// Whether some mention of a tree is.
#[cycle(mentions_in)]
fn mentions_in(id: u32, tree: &Bound) -> bool
    ensures { result ≡ mentions_in id tree.now }
{
    match tree {
        Tree::Reference(sheet, _) => is_of_sheet(id, sheet),
        Tree::Local(sheet, _) => is_of_sheet(id, sheet),
        Tree::Paren(x) => mentions_in(id, x.as_ref()),
        Tree::Prefix(_, x) => mentions_in(id, x.as_ref()),
        Tree::Percent(x) => mentions_in(id, x.as_ref()),
        Tree::Spill(x) => mentions_in(id, x.as_ref()),
        Tree::Binary(_, a, b) => mentions_in(id, a.as_ref()) || mentions_in(id, b.as_ref()),
        Tree::Fun(_, arguments) => some_mention(id, arguments.as_slice()),
        Tree::Call(_, arguments) => some_mention(id, arguments.as_slice()),
        Tree::Let(pairs, body) => {
            some_value_mentions(id, pairs.as_slice()) || mentions_in(id, body.as_ref())
        }
        Tree::Lambda(_, body) => mentions_in(id, body.as_ref()),
        Tree::Apply(x, arguments) => {
            mentions_in(id, x.as_ref()) || some_mention(id, arguments.as_slice())
        }
        _ => false,
    }
}

/// Whether some mention of one of these trees is.
#[cycle(mentions_in)]
fn some_mention(id: u32, trees: &[Bound]) -> bool
    ensures { result ≡ list_any (λ b. b) (map (mentions_in id) trees.now) }
{
    for tree in trees {
        if mentions_in(id, tree) {
            return true;
        }
    }
    false
}

/// Whether some mention in the values of these variables is.
#[cycle(mentions_in)]
fn some_value_mentions(id: u32, pairs: &[LetPair<SheetMention, NameMention>]) -> bool
    ensures { result ≡ list_any (λ b. b)
        (map (λ pair. mentions_in id pair.value) pairs.now) }
{
    for pair in pairs {
        if mentions_in(id, &pair.value) {
            return true;
        }
    }
    false
}

/// Whether a mention is of the sheet with this id.
fn is_of_sheet(id: u32, mention: &SheetMention) -> bool
    ensures { result ≡ is_of_sheet id mention.now }
{
    match mention {
        SheetMention::Sheet(found) => *found == id,
        _ => false,
    }
}
