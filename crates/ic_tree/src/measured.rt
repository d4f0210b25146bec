ghost use Rattle.std.specs.Prelude.{◌≡◌, ◌+◌, List, IfOk, Some, None, option_map, nat_le, if◌then◌else◌};
ghost use Rattle.ic_laws.specs.Token.{Token};
ghost use Rattle.ic_laws.specs.Tree.{height, is_callable};
ghost use Rattle.ic_laws.specs.Parse.{made, node};
ghost use Rattle.ic_laws.specs.declared.tree.Tree.TheOpen as one;
ghost use Rattle.ic_tree.specs.Turned.{let_made};
ghost use Rattle.ic_tree.specs.Typed.{as_typed};

use crate::reader::{Arguments, Pairs};
use ic_laws::{BinarySign, Bound, Boxed, Items, NameMention, OutOfMemory, PrefixSign, Text, Tree};
use std::alloc::Global;
use std::marker::Model;

/// A tree that was read, with its height: each sheet and each word dangles in it as it was typed. Contracts see what the
/// text spells.
#[derive(Drop)]
pub struct Measured {
    tree: Box<Bound>,
    nodes: usize,
}

impl Model for Measured {
    ghost use Rattle.std.specs.Prelude.{◌≡◌};
    ghost use Rattle.ic_laws.specs.Tree.{Spelled};

    ghost Value = { Spelled };

    ghost use Rattle.std.specs.Coded.{codes};
    ghost use Rattle.ic_laws.specs.contracts.tree.Tree as trees;
    ghost use Rattle.ic_laws.specs.contracts.text.Text as text;
    ghost use Rattle.std.specs.contracts.option.Option as option;

    ghost coded = { Prim.hlevel (codes, (trees.the_row (option.the_row text.the_row) text.the_row).coded) };

    ghost use Rattle.ic_laws.specs.Tree.{height};
    ghost use Rattle.ic_tree.specs.Typed.{as_typed};

    ghost view = { λ m. as_typed m.tree.value };

    ghost invariant = { λ m. m.nodes ≡ height (as_typed m.tree.value) };
}

impl Measured {
    /// The tree, whose parts are so high, where it may be one higher.
    fn built(
        alloc: Global,
        tree: Bound,
        below: usize,
        most: usize,
    ) -> Result<Option<Measured>, OutOfMemory>
        requires { height (as_typed tree) ≡ below + 1 }
        ensures { IfOk result (λ r. r ≡ (if nat_le (height (as_typed tree)) most
            then Some (as_typed tree) else None)) }
    {
        if below >= most {
            return Ok(None);
        }
        let tree = Box::new(alloc, tree)?;
        Ok(Some(Measured {
            tree,
            nodes: below + 1,
        }))
    }

    /// A leaf, where a tree may be so high.
    pub fn leaf(alloc: Global, tree: Bound, most: usize) -> Result<Option<Measured>, OutOfMemory>
        requires { height (as_typed tree) ≡ 1 }
        ensures { IfOk result (λ r. r ≡ (if nat_le (height (as_typed tree)) most
            then Some (as_typed tree) else None)) }
    {
        Measured::built(alloc, tree, 0, most)
    }

    /// An argument that is left out.
    pub fn left_out(alloc: Global) -> Result<Measured, OutOfMemory>
        ensures { IfOk result (λ t. t ≡ node one.Empty) }
    {
        let tree = Box::new(alloc, Tree::Empty)?;
        Ok(Measured { tree, nodes: 1 })
    }

    /// The tree alone.
    pub fn into_tree(self) -> Bound
        ensures { as_typed result ≡ self }
    {
        Box::into_inner(self.tree)
    }

    /// The tree and its height.
    pub fn into_parts(self) -> (Bound, usize)
        ensures tree { as_typed result.0 ≡ self }
        ensures nodes { result.1 ≡ height self }
    {
        (Box::into_inner(self.tree), self.nodes)
    }

    /// Whether it can be called.
    pub fn is_callable(&self) -> bool
        ensures { result ≡ is_callable self.now }
    {
        match &*self.tree {
            Tree::Paren(_) => true,
            Tree::Fun(_, _) => true,
            Tree::Call(_, _) => true,
            Tree::Let(_, _) => true,
            Tree::Lambda(_, _) => true,
            Tree::Apply(_, _) => true,
            _ => false,
        }
    }

    /// It between brackets.
    pub fn paren(self, alloc: Global, most: usize) -> Result<Option<Measured>, OutOfMemory>
        ensures { IfOk result (λ r. (rest : List Token) → option_map (λ t. (t, rest)) r
            ≡ made most (one.Paren self) rest) }
    {
        let tree = Tree::Paren(Boxed::from(self.tree));
        Ok(Measured::built(alloc, tree, self.nodes, most)?)
    }

    /// It with `%` after it.
    pub fn percent(self, alloc: Global, most: usize) -> Result<Option<Measured>, OutOfMemory>
        ensures { IfOk result (λ r. (rest : List Token) → option_map (λ t. (t, rest)) r
            ≡ made most (one.Percent self) rest) }
    {
        let tree = Tree::Percent(Boxed::from(self.tree));
        Ok(Measured::built(alloc, tree, self.nodes, most)?)
    }

    /// It with `#` after it.
    pub fn spill(self, alloc: Global, most: usize) -> Result<Option<Measured>, OutOfMemory>
        ensures { IfOk result (λ r. (rest : List Token) → option_map (λ t. (t, rest)) r
            ≡ made most (one.Spill self) rest) }
    {
        let tree = Tree::Spill(Boxed::from(self.tree));
        Ok(Measured::built(alloc, tree, self.nodes, most)?)
    }

    /// It with a sign before it.
    pub fn prefix(
        self,
        alloc: Global,
        most: usize,
        sign: PrefixSign,
    ) -> Result<Option<Measured>, OutOfMemory>
        ensures { IfOk result (λ r. (rest : List Token) → option_map (λ t. (t, rest)) r
            ≡ made most (one.Prefix sign self) rest) }
    {
        let tree = Tree::Prefix(sign, Boxed::from(self.tree));
        Ok(Measured::built(alloc, tree, self.nodes, most)?)
    }

    /// It joined by a sign to what stands to the right.
    pub fn binary(
        self,
        alloc: Global,
        most: usize,
        sign: BinarySign,
        right: Measured,
    ) -> Result<Option<Measured>, OutOfMemory>
        ensures { IfOk result (λ r. (rest : List Token) → option_map (λ t. (t, rest)) r
            ≡ made most (one.Binary sign self right) rest) }
    {
        let below = self.nodes.max(right.nodes);
        let tree = Tree::Binary(sign, Boxed::from(self.tree), Boxed::from(right.tree));
        Ok(Measured::built(alloc, tree, below, most)?)
    }

    /// A function of the tables, by its number, with its arguments.
    pub fn fun(
        alloc: Global,
        most: usize,
        number: usize,
        arguments: Arguments,
    ) -> Result<Option<Measured>, OutOfMemory>
        ensures { IfOk result (λ r. (rest : List Token) → option_map (λ t. (t, rest)) r
            ≡ made most (one.Fun number arguments) rest) }
    {
        let (items, below) = arguments.into_parts();
        let tree = Tree::Fun(number, items);
        Ok(Measured::built(alloc, tree, below, most)?)
    }

    /// A called name with its arguments.
    pub fn call(
        alloc: Global,
        most: usize,
        name: Text,
        arguments: Arguments,
    ) -> Result<Option<Measured>, OutOfMemory>
        ensures { IfOk result (λ r. (rest : List Token) → option_map (λ t. (t, rest)) r
            ≡ made most (one.Call name arguments) rest) }
    {
        let (items, below) = arguments.into_parts();
        let name = NameMention::Dangling(Boxed::new(alloc, name)?);
        let tree = Tree::Call(Boxed::new(alloc, name)?, items);
        Ok(Measured::built(alloc, tree, below, most)?)
    }

    /// It called with arguments.
    pub fn apply(
        self,
        alloc: Global,
        most: usize,
        arguments: Arguments,
    ) -> Result<Option<Measured>, OutOfMemory>
        ensures { IfOk result (λ r. (rest : List Token) → option_map (λ t. (t, rest)) r
            ≡ made most (one.Apply self arguments) rest) }
    {
        let (items, highest) = arguments.into_parts();
        let below = self.nodes.max(highest);
        let tree = Tree::Apply(Boxed::from(self.tree), items);
        Ok(Measured::built(alloc, tree, below, most)?)
    }

    /// The body of LAMBDA with the parameters.
    pub fn lambda(
        self,
        alloc: Global,
        most: usize,
        parameters: Vec<Text>,
    ) -> Result<Option<Measured>, OutOfMemory>
        ensures { IfOk result (λ r. (rest : List Token) → option_map (λ t. (t, rest)) r
            ≡ made most (one.Lambda parameters.items self) rest) }
    {
        let tree = Tree::Lambda(Items::from(parameters), Boxed::from(self.tree));
        Ok(Measured::built(alloc, tree, self.nodes, most)?)
    }

    /// The body of LET with the variables and their values; None where there is no variable.
    pub fn let_in(
        self,
        alloc: Global,
        most: usize,
        pairs: Pairs,
    ) -> Result<Option<Measured>, OutOfMemory>
        ensures { IfOk result (λ r. (rest : List Token) → option_map (λ t. (t, rest)) r
            ≡ let_made most pairs self rest) }
    {
        let (items, highest) = pairs.into_parts();
        if items.as_slice().is_empty() {
            return Ok(None);
        }
        let below = highest.max(self.nodes);
        let tree = Tree::Let(items, Boxed::from(self.tree));
        Ok(Measured::built(alloc, tree, below, most)?)
    }
}
