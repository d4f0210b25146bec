//! The bodies of definitions, read and bound.
ghost use Rattle.std.specs.Prelude.{◌≡◌, ◌==◌, ℕ, List, Some, true, IfOk, chars};
ghost use Rattle.ic_laws.specs.Position.{is_place_within};
ghost use Rattle.ic_laws.specs.declared.reference.RefToken.{RefToken};
ghost use Rattle.ic_laws.specs.FormulaReading.{if_lambda, lambda_tree, reference_tree, without_equals};
ghost use Rattle.ic_laws.specs.Notations.{english};
ghost use Rattle.ic_laws.specs.Scan.{first_is};
ghost use Rattle.ic_laws.specs.Character.{equals};

use ic_laws::scan::first_char;
use ic_laws::{Dialect, Finder, OutOfMemory, PackedPlace, Spelled, Tree};
use ic_refs::trimmed;
use ic_tree::{read, read_reference};
use std::alloc::Global;

/// The body of a definition as it was typed: whether with an equals sign, and its tree.
pub struct TypedBody {
    pub has_equals: bool,
    pub tree: Spelled,
}

impl Drop for TypedBody {
    fn drop(self) {
        let Self {
            has_equals: _,
            tree,
        } = self;
        drop(tree);
    }
}

/// The tree of a text that is a reference with the name of a sheet that is there, with or without blanks around it. What
/// the dialect reads is within the limits.
pub fn reference_in<D: Dialect, N: Finder>(
    alloc: Global,
    d: &D,
    names: &N,
    text: &str,
) -> Result<Option<Spelled>, OutOfMemory>
    requires { (t rest : List ℕ) (r : RefToken) → (D.meaning d.now).read_ref t ≡ Some (r, rest)
        → is_place_within r.place ≡ true }
    ensures { IfOk result (λ t. t ≡ reference_tree (D.meaning d.now) (N.scene names.now)
        (chars text.now)) }
{
    let Some(reference) = read_reference(alloc, d, trimmed(text))? else {
        return Ok(None);
    };
    let Some(name) = &reference.sheet else {
        return Ok(None);
    };
    if names.find_sheet(alloc, name.as_str())?.is_none() {
        return Ok(None);
    }
    let place = PackedPlace::new(reference.place);
    Ok(Some(Tree::Reference(reference.sheet, place)))
}

/// The tree of a text that is a LAMBDA by the first dialect, or by the second where it doesn't read by the first.
pub fn lambda_in<D: Dialect>(
    alloc: Global,
    active: &D,
    english: &D,
    text: &str,
) -> Result<Option<Spelled>, OutOfMemory>
    ensures { IfOk result (λ t. t ≡ lambda_tree (D.meaning active.now) (D.meaning english.now)
        (chars text.now)) }
{
    match read(alloc, active, text)? {
        Some(tree) => Ok(if_lambda(tree)),
        None => match read(alloc, english, text)? {
            Some(tree) => Ok(if_lambda(tree)),
            None => Ok(None),
        },
    }
}

/// A tree that is a LAMBDA at its root.
fn if_lambda(tree: Spelled) -> Option<Spelled>
    ensures { result ≡ if_lambda tree }
{
    match &tree {
        Tree::Lambda(_, _) => Some(tree),
        _ => None,
    }
}

/// Whether a text begins with an equals sign, and what stands after that.
pub fn past_equals(text: &str) -> (bool, &str)
    ensures has { result.0 ≡ first_is (λ c. c == equals) (chars text.now) }
    ensures rest { chars result.1.now ≡ without_equals (chars text.now) }
{
    match first_char(text) {
        Some(('=', rest)) => (true, rest),
        _ => (false, text),
    }
}
