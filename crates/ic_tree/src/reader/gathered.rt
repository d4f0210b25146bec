ghost use Rattle.std.specs.Prelude.{◌≡◌, ◌∷◌, ◌++◌, [], OnOk, map};
ghost use Rattle.ic_laws.specs.Greatest.{greatest};
ghost use Rattle.ic_laws.specs.Tree.{height};
ghost use Rattle.ic_laws.specs.Parse.{pair_of};
ghost use Rattle.ic_tree.specs.Turned.{value_height};
ghost use Rattle.ic_tree.specs.Typed.{as_typed, pair_as_typed};

use crate::Measured;
use ic_laws::{Bound, Items, LetPair, NameMention, OutOfMemory, SheetMention, Text};
use std::alloc::Global;
use std::marker::Model;

/// The arguments of a call, in their order, with the greatest height of them. Contracts see the trees.
#[derive(Drop)]
pub struct Arguments {
    trees: Vec<Bound>,
    highest: usize,
}

impl Model for Arguments {
    ghost use Rattle.std.specs.Prelude.{◌≡◌, List, map};
    ghost use Rattle.ic_laws.specs.Greatest.{greatest};
    ghost use Rattle.ic_laws.specs.Tree.{Spelled, height};

    ghost Value = { List Spelled };

    ghost use Rattle.std.specs.Coded.{codes};
    ghost use Rattle.ic_laws.specs.contracts.tree.Tree as tree;
    ghost use Rattle.ic_laws.specs.contracts.text.Text as text;
    ghost use Rattle.std.specs.contracts.option.Option as option;

    ghost coded = { Prim.hlevel (codes, (tree.the_row (option.the_row text.the_row) text.the_row).coded) };

    ghost use Rattle.ic_tree.specs.Typed.{as_typed};

    ghost view = { λ a. map as_typed a.trees.items };

    ghost invariant = { λ a. a.highest ≡ greatest (map height (map as_typed a.trees.items)) };
}

impl Arguments {
    /// No arguments.
    pub fn new(alloc: Global) -> Arguments
        ensures { result ≡ [] }
    {
        Arguments {
            trees: Vec::new(alloc),
            highest: 0,
        }
    }

    /// Adds an argument at the end, where more may follow. Up to five of them take no more room than they need.
    pub fn push(&mut self, tree: Measured, more: bool) -> Result<(), OutOfMemory>
        ensures { OnOk result (self.new ≡ self.old ++ tree ∷ []) }
    {
        if self.trees.len() < 4 {
            self.trees.reserve_exact(if more { 2 } else { 1 })?;
        }
        let (tree, nodes) = tree.into_parts();
        self.trees.push(tree)?;
        self.highest = self.highest.max(nodes);
        Ok(())
    }

    /// The arguments and the greatest height of them, 0 for none.
    pub fn into_parts(self) -> (Items<Bound>, usize)
        ensures trees { map as_typed result.0 ≡ self }
        ensures highest { result.1 ≡ greatest (map height self) }
    {
        let Arguments { mut trees, highest } = self;
        trees.shrink_to_fit();
        (Items::from(trees), highest)
    }
}

/// The variables of LET with their values, in their order, with the greatest height of the values. Contracts see the
/// pairs.
#[derive(Drop)]
pub struct Pairs {
    pairs: Vec<LetPair<SheetMention, NameMention>>,
    highest: usize,
}

impl Model for Pairs {
    ghost use Rattle.std.specs.Prelude.{◌≡◌, List, map};
    ghost use Rattle.ic_laws.specs.Greatest.{greatest};
    ghost use Rattle.ic_laws.specs.Parse.{Pair};
    ghost use Rattle.ic_tree.specs.Turned.{value_height};

    ghost Value = { List Pair };

    ghost use Rattle.std.specs.Coded.{codes};
    ghost use Rattle.ic_laws.specs.contracts.tree.LetPair as pair;
    ghost use Rattle.ic_laws.specs.contracts.text.Text as text;
    ghost use Rattle.std.specs.contracts.option.Option as option;

    ghost coded = { Prim.hlevel (codes, (pair.the_row (option.the_row text.the_row) text.the_row).coded) };

    ghost use Rattle.ic_tree.specs.Typed.{pair_as_typed};

    ghost view = { λ p. map pair_as_typed p.pairs.items };

    ghost invariant = { λ p. p.highest ≡ greatest (map value_height (map pair_as_typed p.pairs.items)) };
}

impl Pairs {
    /// No pairs.
    pub fn new(alloc: Global) -> Pairs
        ensures { result ≡ [] }
    {
        Pairs {
            pairs: Vec::new(alloc),
            highest: 0,
        }
    }

    /// Adds a variable with its value at the end.
    pub fn push(&mut self, variable: Text, value: Measured) -> Result<(), OutOfMemory>
        ensures { OnOk result (self.new ≡ self.old ++ pair_of variable value ∷ []) }
    {
        let (value, nodes) = value.into_parts();
        self.pairs.push(LetPair { variable, value })?;
        self.highest = self.highest.max(nodes);
        Ok(())
    }

    /// The pairs and the greatest height of their values, 0 for none.
    pub fn into_parts(self) -> (Items<LetPair<SheetMention, NameMention>>, usize)
        ensures pairs { map pair_as_typed result.0 ≡ self }
        ensures highest { result.1 ≡ greatest (map value_height self) }
    {
        let Pairs { mut pairs, highest } = self;
        pairs.shrink_to_fit();
        (Items::from(pairs), highest)
    }
}
