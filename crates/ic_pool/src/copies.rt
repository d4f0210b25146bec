ghost use Rattle.std.specs.Prelude.{◌≡◌, IfOk, map};
ghost use Rattle.ic_laws.proofs.binding.Again.{pair_mapped};
ghost use Rattle.ic_laws.specs.Mentions.{LocalMention, mapped};
ghost use Rattle.ic_laws.specs.declared.tree.NameMention.{NameMention};
ghost use Rattle.ic_laws.specs.declared.tree.SheetMention.{SheetMention};

mod parts;

use ic_laws::{
    Bound, Boxed, Formula, Items, LetPair, NameMention, OutOfMemory, SheetMention, Text, Tree,
};
use parts::{copy_rows, copy_texts};
pub use parts::{copy_key, copy_local, copy_sheet, copy_word};
use std::alloc::Global;

/// What mentions become in a copy of a formula.
pub trait MentionChange {
    ghost sheet_becomes: { Self → SheetMention → SheetMention };

    ghost word_becomes: { Self → NameMention → NameMention };

    ghost local_becomes: { Self → SheetMention → NameMention → LocalMention };

    /// What the sheet of a reference becomes.
    fn sheet(&self, alloc: Global, mention: &SheetMention) -> Result<SheetMention, OutOfMemory>
        ensures { IfOk result (λ m. m ≡ sheet_becomes self.now mention.now) };

    /// What a word becomes.
    fn word(&self, alloc: Global, mention: &NameMention) -> Result<NameMention, OutOfMemory>
        ensures { IfOk result (λ m. m ≡ word_becomes self.now mention.now) };

    /// What a word with its sheet becomes.
    fn local(
        &self,
        alloc: Global,
        sheet: &SheetMention,
        mention: &NameMention,
    ) -> Result<(SheetMention, NameMention), OutOfMemory>
        ensures { IfOk result (λ m. m ≡ local_becomes self.now sheet.now mention.now) };
}

/// Each mention stays what it is.
#[derive(Drop)]
struct Unchanged;

impl MentionChange for Unchanged {
    ghost sheet_becomes = { λ change mention. mention };

    ghost word_becomes = { λ change mention. mention };

    ghost local_becomes = { λ change sheet mention. (sheet, mention) };

    fn sheet(&self, alloc: Global, mention: &SheetMention) -> Result<SheetMention, OutOfMemory> {
        copy_sheet(alloc, mention)
    }

    fn word(&self, alloc: Global, mention: &NameMention) -> Result<NameMention, OutOfMemory> {
        copy_word(alloc, mention)
    }

    fn local(
        &self,
        alloc: Global,
        sheet: &SheetMention,
        mention: &NameMention,
    ) -> Result<(SheetMention, NameMention), OutOfMemory> {
        copy_local(alloc, sheet, mention)
    }
}

/// A copy of a formula.
pub fn copy_formula(alloc: Global, formula: &Formula) -> Result<Formula, OutOfMemory>
    ensures { IfOk result (λ copy. copy ≡ formula.now) }
{
    match formula {
        Formula::Tree(tree) => Ok(Formula::Tree(copy_changed(alloc, &Unchanged, tree)?)),
        Formula::Raw(text) => Ok(Formula::Raw(Text::from_str(alloc, text.as_str())?)),
    }
}

/// A copy of a tree in which each mention is what a change makes of it.
#[cycle(copy)]
pub fn copy_changed<C: MentionChange>(
    alloc: Global,
    change: &C,
    tree: &Bound,
) -> Result<Bound, OutOfMemory>
    ensures { IfOk result (λ copy. copy ≡ mapped (C.sheet_becomes change.now)
        (C.word_becomes change.now) (C.local_becomes change.now) tree.now) }
{
    match tree {
        Tree::Num(amount) => Ok(Tree::Num(*amount)),
        Tree::Str(text) => Ok(Tree::Str(Text::from_str(alloc, text.as_str())?)),
        Tree::Bool(value) => Ok(Tree::Bool(*value)),
        Tree::Err(error) => Ok(Tree::Err(*error)),
        Tree::Reference(sheet, place) => Ok(Tree::Reference(
            change.sheet(alloc, sheet)?,
            place.copy(),
        )),
        Tree::Local(sheet, word) => {
            let (sheet, word) = change.local(alloc, sheet, word)?;
            Ok(Tree::Local(sheet, word))
        }
        Tree::Word(word) => Ok(Tree::Word(change.word(alloc, word)?)),
        Tree::Empty => Ok(Tree::Empty),
        Tree::Paren(x) => Ok(Tree::Paren(copy_boxed(alloc, change, x)?)),
        Tree::Prefix(sign, x) => Ok(Tree::Prefix(*sign, copy_boxed(alloc, change, x)?)),
        Tree::Percent(x) => Ok(Tree::Percent(copy_boxed(alloc, change, x)?)),
        Tree::Spill(x) => Ok(Tree::Spill(copy_boxed(alloc, change, x)?)),
        Tree::Binary(sign, a, b) => {
            let a = copy_boxed(alloc, change, a)?;
            let b = copy_boxed(alloc, change, b)?;
            Ok(Tree::Binary(*sign, a, b))
        }
        Tree::Fun(number, arguments) => {
            let arguments = copy_all(alloc, change, arguments.as_slice())?;
            Ok(Tree::Fun(*number, Items::from(arguments)))
        }
        Tree::Call(word, arguments) => {
            let arguments = copy_all(alloc, change, arguments.as_slice())?;
            let arguments = Items::from(arguments);
            let word = change.word(alloc, word.as_ref())?;
            Ok(Tree::Call(Boxed::new(alloc, word)?, arguments))
        }
        Tree::Let(pairs, body) => {
            let pairs = copy_pairs(alloc, change, pairs.as_slice())?;
            let body = copy_boxed(alloc, change, body)?;
            Ok(Tree::Let(Items::from(pairs), body))
        }
        Tree::Lambda(parameters, body) => {
            let parameters = copy_texts(alloc, parameters.as_slice())?;
            let body = copy_boxed(alloc, change, body)?;
            Ok(Tree::Lambda(Items::from(parameters), body))
        }
        Tree::Apply(x, arguments) => {
            let x = copy_boxed(alloc, change, x)?;
            let arguments = copy_all(alloc, change, arguments.as_slice())?;
            Ok(Tree::Apply(x, Items::from(arguments)))
        }
        Tree::Array(rows) => {
            let rows = copy_rows(alloc, rows.as_slice())?;
            Ok(Tree::Array(Items::from(rows)))
        }
    }
}

/// The same of a part of a tree.
#[cycle(copy)]
fn copy_boxed<C: MentionChange>(
    alloc: Global,
    change: &C,
    tree: &Boxed<Bound>,
) -> Result<Boxed<Bound>, OutOfMemory>
    ensures { IfOk result (λ copy. copy ≡ mapped (C.sheet_becomes change.now)
        (C.word_becomes change.now) (C.local_becomes change.now) tree.now) }
{
    let copy = copy_changed(alloc, change, tree.as_ref())?;
    Boxed::new(alloc, copy)
}

/// A copy of each tree.
#[cycle(copy)]
fn copy_all<C: MentionChange>(
    alloc: Global,
    change: &C,
    trees: &[Bound],
) -> Result<Vec<Bound>, OutOfMemory>
    ensures { IfOk result (λ copies. copies.items ≡ map (mapped (C.sheet_becomes change.now)
        (C.word_becomes change.now) (C.local_becomes change.now)) trees.now) }
{
    let mut out = Vec::with_capacity(alloc, trees.len())?;
    for tree in trees {
        let copy = copy_changed(alloc, change, tree)?;
        out.push(copy)?;
    }
    Ok(out)
}

/// A copy of each variable of LET with its value.
#[cycle(copy)]
fn copy_pairs<C: MentionChange>(
    alloc: Global,
    change: &C,
    pairs: &[LetPair<SheetMention, NameMention>],
) -> Result<Vec<LetPair<SheetMention, NameMention>>, OutOfMemory>
    ensures { IfOk result (λ copies. copies.items ≡ map (pair_mapped (C.sheet_becomes change.now)
        (C.word_becomes change.now) (C.local_becomes change.now)) pairs.now) }
{
    let mut out = Vec::with_capacity(alloc, pairs.len())?;
    for pair in pairs {
        let value = copy_changed(alloc, change, &pair.value)?;
        let variable = Text::from_str(alloc, pair.variable.as_str())?;
        out.push(LetPair { variable, value })?;
    }
    Ok(out)
}
