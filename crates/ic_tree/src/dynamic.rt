ghost use Rattle.std.specs.Prelude.{◌≡◌, map};
ghost use Rattle.ic_tree.specs.Dynamic.{dynamic_with, is_at, is_kind_dynamic, is_range, one_dynamic};

use ic_laws::{Bound, LetPair, NameMention, Place, PrefixSign, SheetMention, Tree};
use ic_tables::{FunctionKind, Tables};

/// Whether what a formula gives may spill over several cells: it is a range, an array or what `#` spills, it has an
/// operand or argument that is dynamic, or it is a function that gives several cells. What stands after `@`, LAMBDA and a
/// function that takes its arguments as a whole are never dynamic, nor is a function that the tables don't have.
#[cycle(is_dynamic)]
pub fn is_dynamic(tree: &Bound, tables: &Tables) -> bool
    ensures { result ≡ dynamic_with tables.now.kinds tree.now }
{
    match tree {
        Tree::Reference(_, place) => is_range(place.place()),
        Tree::Paren(x) => is_dynamic(x.as_ref(), tables),
        Tree::Prefix(sign, x) => !is_at(*sign) && is_dynamic(x.as_ref(), tables),
        Tree::Percent(x) => is_dynamic(x.as_ref(), tables),
        Tree::Spill(_) => true,
        Tree::Binary(_, a, b) => is_dynamic(a.as_ref(), tables) || is_dynamic(b.as_ref(), tables),
        Tree::Fun(number, arguments) => is_kind_dynamic(
            tables.function_kind(*number),
            one_dynamic(arguments.as_slice(), tables),
        ),
        Tree::Call(_, arguments) => one_dynamic(arguments.as_slice(), tables),
        Tree::Let(pairs, body) => {
            one_value_dynamic(pairs.as_slice(), tables) || is_dynamic(body.as_ref(), tables)
        }
        Tree::Apply(x, arguments) => {
            is_dynamic(x.as_ref(), tables) || one_dynamic(arguments.as_slice(), tables)
        }
        Tree::Array(_) => true,
        _ => false,
    }
}

/// Whether one of these formulas is dynamic.
#[cycle(is_dynamic)]
fn one_dynamic(trees: &[Bound], tables: &Tables) -> bool
    ensures { result ≡ one_dynamic (map (dynamic_with tables.now.kinds) trees.now) }
{
    for tree in trees {
        if is_dynamic(tree, tables) {
            return true;
        }
    }
    false
}

/// Whether one of the values of these variables is dynamic.
#[cycle(is_dynamic)]
fn one_value_dynamic(pairs: &[LetPair<SheetMention, NameMention>], tables: &Tables) -> bool
    ensures { result ≡ one_dynamic (map (λ pair. dynamic_with tables.now.kinds pair.value)
        pairs.now) }
{
    for pair in pairs {
        if is_dynamic(&pair.value, tables) {
            return true;
        }
    }
    false
}

/// Whether a place is a range.
fn is_range(place: Place) -> bool
    ensures { result ≡ is_range place }
{
    match place {
        Place::Range(_, _) => true,
        Place::Cell(_) => false,
    }
}

/// Whether a sign is `@`.
fn is_at(sign: PrefixSign) -> bool
    ensures { result ≡ is_at sign }
{
    match sign {
        PrefixSign::At => true,
        _ => false,
    }
}

/// Whether a call of a function of this kind is dynamic, where `arguments` says whether one of its arguments is.
fn is_kind_dynamic(kind: Option<FunctionKind>, arguments: bool) -> bool
    ensures { result ≡ is_kind_dynamic kind arguments }
{
    match kind {
        None => false,
        Some(FunctionKind::Whole) => false,
        Some(FunctionKind::Each) => arguments,
        Some(FunctionKind::Dynamic) => true,
    }
}
