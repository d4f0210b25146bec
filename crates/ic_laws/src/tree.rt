use crate::{Amount, Boxed, Items, PackedPlace, Text};

/// An error value. Its number is its place in this list, from 0.
#[derive(Clone, Copy, Debug, PartialEq)]
pub enum Error {
    REF,
    NAME,
    VALUE,
    DIV,
    NA,
    NUM,
    NIMPL,
    SPILL,
    CALC,
    CIRC,
    ERROR,
    NULL,
}

/// A sign before its operand.
#[derive(Clone, Copy)]
pub enum PrefixSign {
    Plus,
    Minus,
    At,
}

/// A sign between two operands: `= <> < > <= >= & + - * / ^`.
#[derive(Clone, Copy, PartialEq, Eq)]
pub enum BinarySign {
    Equal,
    Unequal,
    Less,
    Greater,
    AtMost,
    AtLeast,
    Join,
    Plus,
    Minus,
    Times,
    Over,
    Power,
}

/// What stands in an array.
#[derive(Drop)]
pub enum Constant {
    Num { minus: bool, amount: Amount },
    Str(Text),
    Bool(bool),
    Err(Error),
}

/// A formula as a tree, whose references name a sheet by an `S` and whose words are a `W`.
#[cycle(tree)]
pub enum Tree<S, W> {
    Num(Amount),
    Str(Text),
    Bool(bool),
    Err(Error),
    Reference(S, PackedPlace),
    /// A name with its sheet, `Sheet1!tax`: what is local to that sheet.
    Local(S, W),
    Word(W),
    /// An argument that is left out.
    Empty,
    Paren(Boxed<Tree<S, W>>),
    Prefix(PrefixSign, Boxed<Tree<S, W>>),
    Percent(Boxed<Tree<S, W>>),
    /// A reference to the area that a formula spills over, `A1#`.
    Spill(Boxed<Tree<S, W>>),
    Binary(BinarySign, Boxed<Tree<S, W>>, Boxed<Tree<S, W>>),
    /// A function of the tables, by its number.
    Fun(usize, Items<Tree<S, W>>),
    /// A name that is called. It is boxed, so that no node is larger for it.
    Call(Boxed<W>, Items<Tree<S, W>>),
    Let(Items<LetPair<S, W>>, Boxed<Tree<S, W>>),
    Lambda(Items<Text>, Boxed<Tree<S, W>>),
    /// What a tree gives, called: `f(1)(2)`.
    Apply(Boxed<Tree<S, W>>, Items<Tree<S, W>>),
    /// The rows of an array of constants.
    Array(Items<Items<Constant>>),
}

impl<S: Drop, W: Drop> Drop for Tree<S, W> {
    #[cycle(tree)]
    fn drop(self) {
        match self {
            Self::Num(_) | Self::Bool(_) | Self::Err(_) | Self::Empty => {}
            Self::Str(text) => drop(text),
            Self::Reference(sheet, _) => drop(sheet),
            Self::Local(sheet, word) => {
                drop(sheet);
                drop(word);
            }
            Self::Word(word) => drop(word),
            Self::Paren(tree) => drop(tree),
            Self::Prefix(_, tree) => drop(tree),
            Self::Percent(tree) => drop(tree),
            Self::Spill(tree) => drop(tree),
            Self::Binary(_, left, right) => {
                drop(left);
                drop(right);
            }
            Self::Fun(_, arguments) => drop(arguments),
            Self::Call(name, arguments) => {
                drop(name);
                drop(arguments);
            }
            Self::Let(pairs, body) => {
                drop(pairs);
                drop(body);
            }
            Self::Lambda(parameters, body) => {
                drop(parameters);
                drop(body);
            }
            Self::Apply(function, arguments) => {
                drop(function);
                drop(arguments);
            }
            Self::Array(rows) => drop(rows),
        }
    }
}

/// A variable of LET with its value.
#[cycle(tree)]
pub struct LetPair<S, W> {
    pub variable: Text,
    pub value: Tree<S, W>,
}

impl<S: Drop, W: Drop> Drop for LetPair<S, W> {
    #[cycle(tree)]
    fn drop(self) {
        let Self { variable, value } = self;
        drop(variable);
        drop(value);
    }
}

/// A formula as its text spells it: a reference has the name of a sheet or none, a word is its text.
pub type Spelled = Tree<Option<Text>, Text>;

/// The sheet of a reference: the formula's own, one that was found, by its id, or one that wasn't, by its name. The name
/// is boxed, so that a node of a tree is no larger for it.
pub enum SheetMention {
    Own,
    Sheet(u32),
    Dangling(Boxed<Text>),
}

impl Drop for SheetMention {
    fn drop(self) {
        match self {
            Self::Own | Self::Sheet(_) => {}
            Self::Dangling(name) => drop(name),
        }
    }
}

/// The key of a definition: its folded name, and the id of the sheet that it is local to, if there is one.
#[derive(Drop)]
pub struct NameKey {
    pub name: Text,
    pub scope: Option<u32>,
}

/// A word: a variable of LET or LAMBDA, a definition that was found, by its key, or one that wasn't, by its spelling. Each
/// is boxed, so that a node of a tree is no larger for it.
pub enum NameMention {
    Var(Boxed<Text>),
    Name(Boxed<NameKey>),
    Dangling(Boxed<Text>),
}

impl Drop for NameMention {
    fn drop(self) {
        match self {
            Self::Var(name) => drop(name),
            Self::Name(key) => drop(key),
            Self::Dangling(name) => drop(name),
        }
    }
}

/// A formula whose mentions are found or dangling.
pub type Bound = Tree<SheetMention, NameMention>;

const _: () = prove!(size_of::<Bound>() == 40);

/// What is kept of a formula: a tree, or its text where that doesn't read.
pub enum Formula {
    Tree(Bound),
    Raw(Text),
}

impl Drop for Formula {
    fn drop(self) {
        match self {
            Self::Tree(tree) => drop(tree),
            Self::Raw(text) => drop(text),
        }
    }
}
