//! What the own text of a command stands for, whatever the notation.
ghost use Rattle.std.specs.Prelude.{◌≡◌, option_and_then, option_map};
ghost use Rattle.ic_machine.specs.Book as machine;
ghost use Rattle.ic_machine.specs.Retyped.{clashes_in};
ghost use Rattle.ic_machine.specs.Translation.{why_not};
ghost use Rattle.ic_parts.specs.Translated.{IsIn, formula_owned, why_clashing, why_meant};

use crate::Notation;
use ic_definitions::Definition;
use ic_input::Typed;
use ic_laws::{Bound, Formula};
use ic_tree::clashes;

/// Why the formula of a command can't be written in a notation.
#[derive(Clone, Copy, Debug, Drop)]
pub enum Why {
    /// Its text doesn't read.
    Raw,
    /// One of its names is a word of the language.
    Clash,
}

/// What the own text of a command stands for, whatever the notation.
pub enum OwnText {
    /// A typed text that is no formula.
    Value(Typed),
    /// A formula, in the cell at a row and a column, both from 1.
    Formula {
        row: i32,
        column: i32,
        formula: Formula,
    },
    /// A definition.
    Definition(Definition),
}

impl Drop for OwnText {
    fn drop(self) {
        match self {
            Self::Value(typed) => drop(typed),
            Self::Formula {
                row: _,
                column: _,
                formula,
            } => drop(formula),
            Self::Definition(definition) => drop(definition),
        }
    }
}

impl OwnText {
    /// Why it can't be written in a notation; None where it can.
    pub fn why_not(&self, target: &Notation<'_>) -> Option<Why>
        ensures { (book : machine.Book) → IsIn target.now book → option_map why_meant result
            ≡ option_and_then (why_not book) (formula_owned self.now) }
    {
        match self {
            Self::Value(_) => None,
            Self::Formula { formula, .. } => why_formula_not(formula, target),
            Self::Definition(definition) => why_formula_not(definition.body(), target),
        }
    }
}

/// Why a formula can't be written in a notation; None where it can.
fn why_formula_not(formula: &Formula, target: &Notation<'_>) -> Option<Why>
    ensures { (book : machine.Book) → IsIn target.now book → option_map why_meant result
        ≡ why_not book formula.now }
{
    match formula {
        Formula::Raw(_) => Some(Why::Raw),
        Formula::Tree(tree) => why_tree_not(tree, target),
    }
}

/// Why a tree can't be written in a notation; None where it can.
fn why_tree_not(tree: &Bound, target: &Notation<'_>) -> Option<Why>
    ensures { (book : machine.Book) → IsIn target.now book → option_map why_meant result
        ≡ why_clashing (clashes_in book tree.now) }
{
    // What always holds of a notation is known from here on.
    let _ = target.locale();
    let _ = target.get_default_language();
    if clashes(tree, target.language()) {
        return Some(Why::Clash);
    }
    None
}
