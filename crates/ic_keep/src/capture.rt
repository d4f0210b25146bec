//! Which formulas an update of a definition captures. None of this takes memory.
ghost use Rattle.std.specs.Prelude.{◌≡◌, Some, map, not, option_map};
ghost use Rattle.ic_keep.specs.Alike.{AreAlike, AreAlikeFormulas, arguments_here, first_of};
ghost use Rattle.ic_keep.specs.Alike.{kind_of, last_of, pairs_here, values_of};
ghost use Rattle.ic_keep.specs.Capture.{captured, captured_beside, captured_formula};
ghost use Rattle.ic_keep.specs.Capture.{is_captured, means, part_captured, some_captured, word_of};
ghost use Rattle.ic_keep.specs.Change.{change_of};

use crate::KeyChange;
use crate::change::{changed_key, is_same_key};
use ic_laws::{Bound, Formula, LetPair, NameKey, NameMention, SheetMention, Tree};

/// Whether some word of a formula is captured by the update of a definition: it meant a definition before it, and doesn't
/// mean the same one after it. `kept` is what `keep` makes of the formula `tree`, `change` the key of the definition, before
/// and after.
#[tactic(auto, using(crate::proofs::WordWalk::beside_is_captured))]
pub fn captured(tree: &Bound, kept: &Bound, change: &KeyChange) -> bool
    requires { AreAlike tree.now kept.now }
    ensures { result ≡ captured (change_of (Some change.now)) tree.now kept.now }
{
    is_captured_beside(tree, kept, change)
}

/// Whether the update captures some word of what is kept of a formula, before and after; a text that doesn't read has no words.
pub fn captured_formula(before: &Formula, after: &Formula, change: &KeyChange) -> bool
    requires { AreAlikeFormulas before.now after.now }
    ensures { result ≡ captured_formula (change_of (Some change.now)) before.now after.now }
{
    match before {
        Formula::Tree(tree) => match after {
            Formula::Tree(kept) => captured(tree, kept, change),
            Formula::Raw(_) => false,
        },
        Formula::Raw(_) => false,
    }
}

/// Whether some word of a formula is captured, each beside the one at its place in another formula.
#[cycle(captured)]
pub(crate) fn is_captured_beside(tree: &Bound, kept: &Bound, change: &KeyChange) -> bool
    ensures { result ≡ captured_beside (change_of (Some change.now)) tree.now kept.now }
{
    match tree {
        Tree::Local(_, word) => is_captured(word, word_of(kept), change),
        Tree::Word(word) => is_captured(word, word_of(kept), change),
        Tree::Paren(x) => is_part_captured(x.as_ref(), first_of(kept), change),
        Tree::Prefix(_, x) => is_part_captured(x.as_ref(), first_of(kept), change),
        Tree::Percent(x) => is_part_captured(x.as_ref(), first_of(kept), change),
        Tree::Spill(x) => is_part_captured(x.as_ref(), first_of(kept), change),
        Tree::Binary(_, a, b) => {
            is_part_captured(a.as_ref(), first_of(kept), change)
                || is_part_captured(b.as_ref(), last_of(kept), change)
        }
        Tree::Fun(_, arguments) => {
            is_some_captured(arguments.as_slice(), arguments_of(kept), change)
        }
        Tree::Call(word, arguments) => {
            is_captured(word.as_ref(), word_of(kept), change)
                || is_some_captured(arguments.as_slice(), arguments_of(kept), change)
        }
        Tree::Let(pairs, body) => {
            is_some_value_captured(pairs.as_slice(), pairs_of(kept), change)
                || is_part_captured(body.as_ref(), last_of(kept), change)
        }
        Tree::Lambda(_, body) => is_part_captured(body.as_ref(), last_of(kept), change),
        Tree::Apply(x, arguments) => {
            is_part_captured(x.as_ref(), first_of(kept), change)
                || is_some_captured(arguments.as_slice(), arguments_of(kept), change)
        }
        _ => false,
    }
}

/// The same of a part, beside one that may not be there.
#[cycle(captured)]
fn is_part_captured(tree: &Bound, kept: Option<&Bound>, change: &KeyChange) -> bool
    ensures { result ≡ part_captured (captured_beside (change_of (Some change.now)) tree.now)
        (option_map (λ u. u.now) kept.entry) }
{
    match kept {
        Some(kept) => is_captured_beside(tree, kept, change),
        None => false,
    }
}

/// The same of one of these formulas.
#[cycle(captured)]
fn is_some_captured(trees: &[Bound], kept: &[Bound], change: &KeyChange) -> bool
    ensures { result ≡ some_captured (map (captured_beside (change_of (Some change.now)))
        trees.now) kept.now }
{
    let mut others = kept;
    for tree in trees {
        let Some((other, rest)) = others.split_first() else {
            return false;
        };
        if is_captured_beside(tree, other, change) {
            return true;
        }
        others = rest;
    }
    false
}

/// The same of the values of these variables.
#[cycle(captured)]
fn is_some_value_captured(
    pairs: &[LetPair<SheetMention, NameMention>],
    kept: &[LetPair<SheetMention, NameMention>],
    change: &KeyChange,
) -> bool
    ensures { result ≡ some_captured (map (λ pair. captured_beside
        (change_of (Some change.now)) pair.value) pairs.now) (values_of kept.now) }
{
    let mut others = kept;
    for pair in pairs {
        let Some((other, rest)) = others.split_first() else {
            return false;
        };
        if is_captured_beside(&pair.value, &other.value, change) {
            return true;
        }
        others = rest;
    }
    false
}

/// Whether a word that meant a definition doesn't mean the one of the key that this has after the update.
pub(crate) fn is_captured(
    before: &NameMention,
    after: Option<&NameMention>,
    change: &KeyChange,
) -> bool
    ensures { result ≡ is_captured (change_of (Some change.now)) (Some before.now)
        (option_map (λ word. word.now) after.entry) }
{
    match before {
        NameMention::Name(key) => !means(changed_key(Some(change), key.as_ref()), after),
        _ => false,
    }
}

/// Whether a word means the definition with this key.
fn means(key: &NameKey, word: Option<&NameMention>) -> bool
    ensures { result ≡ means key.now (option_map (λ word. word.now) word.entry) }
{
    match word {
        Some(NameMention::Name(found)) => is_same_key(found.as_ref(), key),
        _ => false,
    }
}

/// The word at the top of a formula.
fn word_of(tree: &Bound) -> Option<&NameMention>
    ensures { option_map (λ word. word.now) result ≡ word_of tree.now }
{
    match tree {
        Tree::Local(_, word) => Some(word),
        Tree::Word(word) => Some(word),
        Tree::Call(word, _) => Some(word.as_ref()),
        _ => None,
    }
}

/// The part that stands first at the top of a formula.
fn first_of(tree: &Bound) -> Option<&Bound>
    ensures { option_map (λ part. part.now) result ≡ first_of tree.now }
{
    match tree {
        Tree::Paren(x) => Some(x.as_ref()),
        Tree::Prefix(_, x) => Some(x.as_ref()),
        Tree::Percent(x) => Some(x.as_ref()),
        Tree::Spill(x) => Some(x.as_ref()),
        Tree::Binary(_, a, _) => Some(a.as_ref()),
        Tree::Apply(x, _) => Some(x.as_ref()),
        _ => None,
    }
}

/// The part that stands last at the top of a formula, behind what stands there first.
fn last_of(tree: &Bound) -> Option<&Bound>
    ensures { option_map (λ part. part.now) result ≡ last_of tree.now }
{
    match tree {
        Tree::Binary(_, _, b) => Some(b.as_ref()),
        Tree::Let(_, body) => Some(body.as_ref()),
        Tree::Lambda(_, body) => Some(body.as_ref()),
        _ => None,
    }
}

/// The arguments of the call at the top of a formula.
fn arguments_of(tree: &Bound) -> &[Bound]
    ensures { result.now ≡ arguments_here (kind_of tree.now) }
{
    match tree {
        Tree::Fun(_, arguments) => arguments.as_slice(),
        Tree::Call(_, arguments) => arguments.as_slice(),
        Tree::Apply(_, arguments) => arguments.as_slice(),
        _ => &[],
    }
}

/// The variables of the LET at the top of a formula, with their values.
fn pairs_of(tree: &Bound) -> &[LetPair<SheetMention, NameMention>]
    ensures { result.now ≡ pairs_here (kind_of tree.now) }
{
    match tree {
        Tree::Let(pairs, _) => pairs.as_slice(),
        _ => &[],
    }
}
