ghost use Rattle.std.specs.Prelude.{◌≡◌, ◌∷◌, [], List, IfOk, OnOk, MatchOption};
ghost use Rattle.ic_laws.specs.Token as tokens;
ghost use Rattle.ic_tree.specs.Tokens.{ahead_of, after_first, token_of};

use crate::near::{FarReference, NearPlace};
use ic_laws::{Amount, BinarySign, Error, OutOfMemory, Text};
use std::alloc::Global;

/// A token of a formula. A head is a name together with the bracket that opens its arguments.
#[derive(Drop)]
pub enum Token {
    Num(Amount),
    Str(Text),
    Boolean(bool),
    Err(Error),
    /// A reference without a sheet.
    Ref(NearPlace),
    /// A reference with the name of its sheet.
    SheetRef(Text, NearPlace),
    /// A reference whose place no tree can hold.
    FarRef(Box<FarReference>),
    /// A word with its sheet.
    Local(Box<LocalWord>),
    Word(Text),
    /// A function, by its number.
    FunHead(usize),
    NameHead(Text),
    Separator,
    Operator(BinarySign),
    At,
    Percent,
    Hash,
    Open,
    Close,
    OpenBrace,
    CloseBrace,
    Semicolon,
}

// A token is moved some times before a tree has it: what is rare is boxed.
const _: () = prove!(size_of::<Token>() <= 48);

/// The name of a sheet, and a word of it.
#[derive(Drop)]
pub struct LocalWord {
    pub sheet: Text,
    pub word: Text,
}

/// What the next token is, as far as a reader needs to know before it takes it.
#[derive(Clone, Copy, PartialEq, Eq)]
pub enum Ahead {
    End,
    Percent,
    Hash,
    Open,
    Close,
    CloseBrace,
    Separator,
    Semicolon,
    Operator(BinarySign),
    Other,
}

/// What tokens come from, one at a time, with one of them in sight.
pub trait TokenSource {
    /// The tokens that are still to come.
    ghost left: { Self → List tokens.Token };

    /// What stands next.
    fn ahead(&self) -> Ahead
        ensures { result ≡ ahead_of (left self.now) };

    /// Passes over the next token.
    fn skip(&mut self, alloc: Global) -> Result<(), OutOfMemory>
        ensures { OnOk result (left self.new ≡ after_first (left self.old)) };

    /// Takes the next token; None at the end.
    fn next(&mut self, alloc: Global) -> Result<Option<Token>, OutOfMemory>
        ensures { IfOk result (λ r. MatchOption r ((left self.old ≡ []) × (left self.new ≡ []))
            (λ t. left self.old ≡ token_of t ∷ left self.new)) };
}
