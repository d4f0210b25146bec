//! Which formulas an update of a definition can change. None of this takes memory.
ghost use Rattle.std.specs.Prelude.{◌≡◌, chars, map};
ghost use Rattle.std.specs.List.{list_any};
ghost use Rattle.ic_keep.specs.Touched.{is_touched, touches, touches_word};
ghost use Rattle.ic_laws.specs.Name.{fold};

use crate::KeyChange;
use crate::change::is_same_key;
use ic_laws::{Bound, Formula, LetPair, NameMention, SheetMention, Tree, agree};

/// Whether an update of a definition can change a formula: whether some word of it means the definition, or has the name
/// that the definition gets. `change` is the key of the definition, before and after, and `new_name` its name after, as it
/// is typed.
pub fn is_touched(change: &KeyChange, new_name: &str, formula: &Formula) -> bool
    requires { change.now.new.name ≡ fold (chars new_name.now) }
    ensures { result ≡ is_touched change.now.old change.now.new formula.now }
{
    match formula {
        Formula::Tree(tree) => touches(change, new_name, tree),
        Formula::Raw(_) => false,
    }
}

/// Whether some word of a tree does.
#[cycle(touches)]
fn touches(change: &KeyChange, new_name: &str, tree: &Bound) -> bool
    requires { change.now.new.name ≡ fold (chars new_name.now) }
    ensures { result ≡ touches change.now.old change.now.new tree.now }
{
    match tree {
        Tree::Local(_, word) => touches_word(change, new_name, word),
        Tree::Word(word) => touches_word(change, new_name, word),
        Tree::Paren(x) => touches(change, new_name, x.as_ref()),
        Tree::Prefix(_, x) => touches(change, new_name, x.as_ref()),
        Tree::Percent(x) => touches(change, new_name, x.as_ref()),
        Tree::Spill(x) => touches(change, new_name, x.as_ref()),
        Tree::Binary(_, a, b) => {
            touches(change, new_name, a.as_ref()) || touches(change, new_name, b.as_ref())
        }
        Tree::Fun(_, arguments) => touches_some(change, new_name, arguments.as_slice()),
        Tree::Call(word, arguments) => {
            touches_word(change, new_name, word.as_ref())
                || touches_some(change, new_name, arguments.as_slice())
        }
        Tree::Let(pairs, body) => {
            touches_some_value(change, new_name, pairs.as_slice())
                || touches(change, new_name, body.as_ref())
        }
        Tree::Lambda(_, body) => touches(change, new_name, body.as_ref()),
        Tree::Apply(x, arguments) => {
            touches(change, new_name, x.as_ref())
                || touches_some(change, new_name, arguments.as_slice())
        }
        _ => false,
    }
}

/// Whether some word of one of these trees does.
#[cycle(touches)]
fn touches_some(change: &KeyChange, new_name: &str, trees: &[Bound]) -> bool
    requires { change.now.new.name ≡ fold (chars new_name.now) }
    ensures { result ≡ list_any (λ b. b)
        (map (touches change.now.old change.now.new) trees.now) }
{
    for tree in trees {
        if touches(change, new_name, tree) {
            return true;
        }
    }
    false
}

/// Whether some word in the values of these variables does.
#[cycle(touches)]
fn touches_some_value(
    change: &KeyChange,
    new_name: &str,
    pairs: &[LetPair<SheetMention, NameMention>],
) -> bool
    requires { change.now.new.name ≡ fold (chars new_name.now) }
    ensures { result ≡ list_any (λ b. b)
        (map (λ pair. touches change.now.old change.now.new pair.value) pairs.now) }
{
    for pair in pairs {
        if touches(change, new_name, &pair.value) {
            return true;
        }
    }
    false
}

/// Whether a word means the definition with the old key, or has the name that the definition gets.
fn touches_word(change: &KeyChange, new_name: &str, word: &NameMention) -> bool
    requires { change.now.new.name ≡ fold (chars new_name.now) }
    ensures { result ≡ touches_word change.now.old change.now.new word.now }
{
    match word {
        NameMention::Var(_) => false,
        NameMention::Name(key) => {
            let key = key.as_ref();
            is_same_key(&change.old, key) || change.new.name.is(key.name.as_str())
        }
        NameMention::Dangling(word) => agree(new_name, word.as_ref().as_str()),
    }
}
