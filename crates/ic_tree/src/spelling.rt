ghost use Rattle.std.specs.Prelude.{◌≡◌, List, ℕ, IfOk, map};
ghost use Rattle.std.specs.Fmt.{decimal};
ghost use Rattle.ic_laws.specs.Binding.{spelled, spelled_sheet, spelled_with, spelled_word};
ghost use Rattle.ic_laws.specs.Scene.{definition_spelling, sheet_spelling};
ghost use Rattle.ic_laws.specs.declared.tree.NameKey.{NameKey};
ghost use Rattle.ic_laws.proofs.binding.Again.{pair_spelled};

use crate::copies::{copy_rows, copy_texts};
use crate::mentions::AtPresent;
use ic_laws::{
    Bound, Boxed, Finder, Items, LetPair, NameKey, NameMention, OutOfMemory, SheetMention, Spelled,
    Text, Tree,
};
use std::alloc::Global;

/// How formulas are written: the text that each sheet and each definition has in them.
pub trait Spelling {
    ghost sheet_text: { Self → ℕ → List ℕ };

    ghost key_text: { Self → NameKey → List ℕ };

    /// The text of the sheet with this id.
    fn sheet_text(&self, alloc: Global, id: u32) -> Result<Text, OutOfMemory>
        ensures { IfOk result (λ r. r ≡ sheet_text self.now id) };

    /// The text of the definition with this key.
    fn key_text(&self, alloc: Global, key: &NameKey) -> Result<Text, OutOfMemory>
        ensures { IfOk result (λ r. r ≡ key_text self.now key.now) };
}

impl<'n, N: Finder> Spelling for AtPresent<'n, N> {
    ghost sheet_text = { λ present. sheet_spelling (N.scene present.names.now) };

    ghost key_text = { λ present. definition_spelling (N.scene present.names.now) };

    fn sheet_text(&self, alloc: Global, id: u32) -> Result<Text, OutOfMemory> {
        spell_sheet(alloc, self.names, id)
    }

    fn key_text(&self, alloc: Global, key: &NameKey) -> Result<Text, OutOfMemory> {
        spell_definition(alloc, self.names, key)
    }
}

/// The name of the sheet with this id, or the digits of the id where no sheet has it.
pub fn spell_sheet<N: Finder>(alloc: Global, names: &N, id: u32) -> Result<Text, OutOfMemory>
    ensures { IfOk result (λ r. r ≡ sheet_spelling (N.scene names.now) id) }
{
    match names.sheet_spelling(id) {
        Some(name) => Ok(Text::from_str(alloc, name)?),
        None => digits_of(alloc, id),
    }
}

/// The decimal digits of an id.
pub(crate) fn digits_of(alloc: Global, id: u32) -> Result<Text, OutOfMemory>
    ensures { IfOk result (λ r. r ≡ decimal id) }
{
    Ok(Text::from(id.to_string(alloc)?))
}

/// The name of the definition with this key as it was given, or the key's folded name where no definition has it.
pub fn spell_definition<N: Finder>(
    alloc: Global,
    names: &N,
    key: &NameKey,
) -> Result<Text, OutOfMemory>
    ensures { IfOk result (λ r. r ≡ definition_spelling (N.scene names.now) key.now) }
{
    match names.name_spelling(key) {
        Some(name) => Ok(Text::from_str(alloc, name)?),
        None => Ok(Text::from_str(alloc, key.name.as_str())?),
    }
}

/// A formula with each sheet and each definition that it mentions in its present spelling. What dangles and variables are
/// written as they were typed, an id without a sheet by its digits, a key without a definition by its folded name.
pub fn spell<N: Finder>(alloc: Global, names: &N, tree: &Bound) -> Result<Spelled, OutOfMemory>
    ensures { IfOk result (λ r. r ≡ spelled (N.scene names.now) tree.now) }
{
    spell_with(alloc, &AtPresent { names }, tree)
}

/// The sheet of a reference: a found one by its text.
fn spell_mention<S: Spelling>(
    alloc: Global,
    spelling: &S,
    sheet: &SheetMention,
) -> Result<Option<Text>, OutOfMemory>
    ensures { IfOk result (λ r. r ≡ spelled_sheet (S.sheet_text spelling.now) sheet.now) }
{
    match sheet {
        SheetMention::Own => Ok(None),
        SheetMention::Sheet(id) => Ok(Some(spelling.sheet_text(alloc, *id)?)),
        SheetMention::Dangling(name) => Ok(Some(Text::from_str(alloc, name.as_ref().as_str())?)),
    }
}

/// A word: a found definition by its text.
fn spell_word<S: Spelling>(
    alloc: Global,
    spelling: &S,
    word: &NameMention,
) -> Result<Text, OutOfMemory>
    ensures { IfOk result (λ r. r ≡ spelled_word (S.key_text spelling.now) word.now) }
{
    match word {
        NameMention::Var(word) => Ok(Text::from_str(alloc, word.as_ref().as_str())?),
        NameMention::Name(key) => spelling.key_text(alloc, key.as_ref()),
        NameMention::Dangling(word) => Ok(Text::from_str(alloc, word.as_ref().as_str())?),
    }
}

/// A formula with each sheet and each definition that it mentions by its text. What dangles and variables are written as
/// they were typed.
#[cycle(spell)]
pub fn spell_with<S: Spelling>(
    alloc: Global,
    spelling: &S,
    tree: &Bound,
) -> Result<Spelled, OutOfMemory>
    ensures { IfOk result (λ r. r ≡ spelled_with (S.sheet_text spelling.now)
        (S.key_text spelling.now) tree.now) }
{
    match tree {
        Tree::Num(amount) => Ok(Tree::Num(*amount)),
        Tree::Str(text) => Ok(Tree::Str(Text::from_str(alloc, text.as_str())?)),
        Tree::Bool(value) => Ok(Tree::Bool(*value)),
        Tree::Err(error) => Ok(Tree::Err(*error)),
        Tree::Reference(sheet, place) => Ok(Tree::Reference(
            spell_mention(alloc, spelling, sheet)?,
            place.copy(),
        )),
        Tree::Local(sheet, word) => {
            let sheet = spell_mention(alloc, spelling, sheet)?;
            let word = spell_word(alloc, spelling, word)?;
            Ok(Tree::Local(sheet, word))
        }
        Tree::Word(word) => Ok(Tree::Word(spell_word(alloc, spelling, word)?)),
        Tree::Empty => Ok(Tree::Empty),
        Tree::Paren(x) => Ok(Tree::Paren(spell_boxed(alloc, spelling, x)?)),
        Tree::Prefix(sign, x) => Ok(Tree::Prefix(*sign, spell_boxed(alloc, spelling, x)?)),
        Tree::Percent(x) => Ok(Tree::Percent(spell_boxed(alloc, spelling, x)?)),
        Tree::Spill(x) => Ok(Tree::Spill(spell_boxed(alloc, spelling, x)?)),
        Tree::Binary(sign, a, b) => {
            let a = spell_boxed(alloc, spelling, a)?;
            let b = spell_boxed(alloc, spelling, b)?;
            Ok(Tree::Binary(*sign, a, b))
        }
        Tree::Fun(number, arguments) => {
            let arguments = spell_all(alloc, spelling, arguments.as_slice())?;
            Ok(Tree::Fun(*number, Items::from(arguments)))
        }
        Tree::Call(word, arguments) => {
            let arguments = spell_all(alloc, spelling, arguments.as_slice())?;
            let arguments = Items::from(arguments);
            let word = spell_word(alloc, spelling, word.as_ref())?;
            Ok(Tree::Call(Boxed::new(alloc, word)?, arguments))
        }
        Tree::Let(pairs, body) => {
            let pairs = spell_pairs(alloc, spelling, pairs.as_slice())?;
            let body = spell_boxed(alloc, spelling, body)?;
            Ok(Tree::Let(Items::from(pairs), body))
        }
        Tree::Lambda(parameters, body) => {
            let parameters = copy_texts(alloc, parameters.as_slice())?;
            let body = spell_boxed(alloc, spelling, body)?;
            Ok(Tree::Lambda(Items::from(parameters), body))
        }
        Tree::Apply(x, arguments) => {
            let x = spell_boxed(alloc, spelling, x)?;
            let arguments = spell_all(alloc, spelling, arguments.as_slice())?;
            Ok(Tree::Apply(x, Items::from(arguments)))
        }
        Tree::Array(rows) => {
            let rows = copy_rows(alloc, rows.as_slice())?;
            Ok(Tree::Array(Items::from(rows)))
        }
    }
}

/// The same of a part of a formula.
#[cycle(spell)]
fn spell_boxed<S: Spelling>(
    alloc: Global,
    spelling: &S,
    tree: &Boxed<Bound>,
) -> Result<Boxed<Spelled>, OutOfMemory>
    ensures { IfOk result (λ r. r ≡ spelled_with (S.sheet_text spelling.now)
        (S.key_text spelling.now) tree.now) }
{
    let written = spell_with(alloc, spelling, tree.as_ref())?;
    Ok(Boxed::from(Box::new(alloc, written)?))
}

/// Formulas in their present spelling.
#[cycle(spell)]
fn spell_all<S: Spelling>(
    alloc: Global,
    spelling: &S,
    trees: &[Bound],
) -> Result<Vec<Spelled>, OutOfMemory>
    ensures { IfOk result (λ r. r.items ≡ map
        (spelled_with (S.sheet_text spelling.now) (S.key_text spelling.now)) trees.now) }
{
    let mut out = Vec::with_capacity(alloc, trees.len())?;
    for tree in trees {
        let written = spell_with(alloc, spelling, tree)?;
        out.push(written)?;
    }
    Ok(out)
}

/// The variables of LET with their values in their present spelling.
#[cycle(spell)]
fn spell_pairs<S: Spelling>(
    alloc: Global,
    spelling: &S,
    pairs: &[LetPair<SheetMention, NameMention>],
) -> Result<Vec<LetPair<Option<Text>, Text>>, OutOfMemory>
    ensures { IfOk result (λ r. r.items ≡ map
        (pair_spelled (S.sheet_text spelling.now) (S.key_text spelling.now)) pairs.now) }
{
    let mut out = Vec::with_capacity(alloc, pairs.len())?;
    for pair in pairs {
        let value = spell_with(alloc, spelling, &pair.value)?;
        let variable = Text::from_str(alloc, pair.variable.as_str())?;
        out.push(LetPair { variable, value })?;
    }
    Ok(out)
}
