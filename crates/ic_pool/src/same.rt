//! Formulas compared node by node. A yes is true; a no says nothing, since what is rare isn't compared.
ghost use Rattle.std.specs.Prelude.{◌≡◌, true};

use crate::changes::same_key;
use ic_laws::{
    Bound, Formula, NameMention, Place, Position, PrefixSign, RefPart, SheetMention, Tree,
};

/// Whether two formulas are seen to be equal.
pub fn are_same(a: &Formula, b: &Formula) -> bool
    ensures { result ≡ true → a.now ≡ b.now }
{
    match (a, b) {
        (Formula::Tree(x), Formula::Tree(y)) => are_same_trees(x, y),
        _ => false,
    }
}

/// The same for two trees. LET, LAMBDA, what is called of a formula, and arrays aren't compared.
#[cycle(same)]
fn are_same_trees(a: &Bound, b: &Bound) -> bool
    ensures { result ≡ true → a.now ≡ b.now }
{
    match (a, b) {
        (Tree::Num(x), Tree::Num(y)) => x.units() == y.units(),
        (Tree::Str(x), Tree::Str(y)) => x.is(y.as_str()),
        (Tree::Bool(x), Tree::Bool(y)) => x == y,
        (Tree::Err(x), Tree::Err(y)) => x == y,
        (Tree::Reference(s, p), Tree::Reference(t, q)) => {
            are_same_places(p.place(), q.place()) && are_same_sheets(s, t)
        }
        (Tree::Local(s, x), Tree::Local(t, y)) => are_same_sheets(s, t) && are_same_words(x, y),
        (Tree::Word(x), Tree::Word(y)) => are_same_words(x, y),
        (Tree::Empty, Tree::Empty) => true,
        (Tree::Paren(x), Tree::Paren(y)) => are_same_trees(x.as_ref(), y.as_ref()),
        (Tree::Prefix(s, x), Tree::Prefix(t, y)) => {
            are_same_signs(*s, *t) && are_same_trees(x.as_ref(), y.as_ref())
        }
        (Tree::Spill(x), Tree::Spill(y)) => are_same_trees(x.as_ref(), y.as_ref()),
        (Tree::Percent(x), Tree::Percent(y)) => are_same_trees(x.as_ref(), y.as_ref()),
        (Tree::Binary(s, x, y), Tree::Binary(t, u, v)) => {
            s == t
                && are_same_trees(x.as_ref(), u.as_ref())
                && are_same_trees(y.as_ref(), v.as_ref())
        }
        (Tree::Fun(m, xs), Tree::Fun(n, ys)) => m == n
            && are_all_same(xs.as_slice(), ys.as_slice()),
        (Tree::Call(x, xs), Tree::Call(y, ys)) => {
            are_same_words(x.as_ref(), y.as_ref()) && are_all_same(xs.as_slice(), ys.as_slice())
        }
        _ => false,
    }
}

/// The same for lists of trees.
#[cycle(same)]
fn are_all_same(a: &[Bound], b: &[Bound]) -> bool
    ensures { result ≡ true → a.now ≡ b.now }
{
    if a.len() != b.len() {
        return false;
    }
    for at in 0..a.len() {
        if !are_same_trees(&a[at], &b[at]) {
            return false;
        }
    }
    true
}

/// Whether two mentions of sheets are seen to be equal.
fn are_same_sheets(a: &SheetMention, b: &SheetMention) -> bool
    ensures { result ≡ true → a.now ≡ b.now }
{
    match (a, b) {
        (SheetMention::Own, SheetMention::Own) => true,
        (SheetMention::Sheet(x), SheetMention::Sheet(y)) => x == y,
        (SheetMention::Dangling(x), SheetMention::Dangling(y)) => {
            x.as_ref().is(y.as_ref().as_str())
        }
        _ => false,
    }
}

/// Whether two words are seen to be equal.
#[tactic(auto, using(ic_laws::proofs::keeping::NameChanges::same_key_from))]
fn are_same_words(a: &NameMention, b: &NameMention) -> bool
    ensures { result ≡ true → a.now ≡ b.now }
{
    match (a, b) {
        (NameMention::Var(x), NameMention::Var(y)) => x.as_ref().is(y.as_ref().as_str()),
        (NameMention::Name(x), NameMention::Name(y)) => same_key(x.as_ref(), y.as_ref()),
        (NameMention::Dangling(x), NameMention::Dangling(y)) => {
            x.as_ref().is(y.as_ref().as_str())
        }
        _ => false,
    }
}

/// Whether two signs before an operand are equal.
fn are_same_signs(a: PrefixSign, b: PrefixSign) -> bool
    ensures { result ≡ true → a ≡ b }
{
    match (a, b) {
        (PrefixSign::Plus, PrefixSign::Plus) => true,
        (PrefixSign::Minus, PrefixSign::Minus) => true,
        (PrefixSign::At, PrefixSign::At) => true,
        _ => false,
    }
}

/// Whether two places are equal.
fn are_same_places(a: Place, b: Place) -> bool
    ensures { result ≡ true → a ≡ b }
{
    match (a, b) {
        (Place::Cell(p), Place::Cell(q)) => are_same_parts(p, q),
        (Place::Range(p, q), Place::Range(r, s)) => are_same_parts(p, r) && are_same_parts(q, s),
        _ => false,
    }
}

/// Whether two corners are equal.
fn are_same_parts(a: RefPart, b: RefPart) -> bool
    ensures { result ≡ true → a ≡ b }
{
    are_same_positions(a.row, b.row) && are_same_positions(a.column, b.column)
}

/// Whether two rows or columns are equal.
fn are_same_positions(a: Position, b: Position) -> bool
    ensures { result ≡ true → a ≡ b }
{
    match (a, b) {
        (Position::Abs(m), Position::Abs(n)) => m == n,
        (Position::Rel(m), Position::Rel(n)) => m == n,
        _ => false,
    }
}
