//! Formulas whose mentions are written out and bound again, in one walk where no variable is seen.
ghost use Rattle.std.specs.Prelude.{◌≡◌, List, [], ℕ, IfOk, IfSome, chars};
ghost use Rattle.ic_keep.specs.Rebound.{all_rebound, rebound};
ghost use Rattle.ic_laws.specs.Binding.{bound_local, bound_sheet, bound_word, name_or_dangling, sheet_or_dangling, spelled_sheet, spelled_word};
ghost use Rattle.ic_laws.specs.Scene.{found_sheet};
ghost use Rattle.ic_laws.specs.declared.tree.NameKey.{NameKey};
ghost use Rattle.ic_tree.specs.LanguageWords.{function_of};

use ic_laws::{
    Bound, Boxed, Finder, Items, NameKey, NameMention, OutOfMemory, SheetMention, Text, Tree,
    find_local,
};
use ic_tables::Language;
use ic_tree::{Spelling, bind, spell_with};
use std::alloc::Global;

/// The texts by which a formula is bound again.
pub(crate) trait Renaming {
    ghost sheet_text: { Self → ℕ → List ℕ };

    ghost key_text: { Self → NameKey → List ℕ };

    /// The text of the sheet with this id, where a book has it. None where it has to be made.
    fn sheet_name(&self, id: u32) -> Option<&str>
        ensures { IfSome result (λ name. chars name.now ≡ sheet_text self.now id) };

    /// The text of the sheet with this id.
    fn sheet_text(&self, alloc: Global, id: u32) -> Result<Text, OutOfMemory>
        ensures { IfOk result (λ r. r ≡ sheet_text self.now id) };

    /// The text of the definition with this key.
    fn key_text<'k>(&'k self, key: &'k NameKey) -> &'k str
        ensures { chars result.now ≡ key_text self.now key.now };
}

/// The texts of a renaming, in memory of their own.
#[derive(Drop)]
struct Written<'n, R: Renaming> {
    renaming: &'n R,
}

impl<'n, R: Renaming> Spelling for Written<'n, R> {
    ghost sheet_text = { λ written. R.sheet_text written.renaming.now };

    ghost key_text = { λ written. R.key_text written.renaming.now };

    fn sheet_text(&self, alloc: Global, id: u32) -> Result<Text, OutOfMemory> {
        self.renaming.sheet_text(alloc, id)
    }

    fn key_text(&self, alloc: Global, key: &NameKey) -> Result<Text, OutOfMemory> {
        Ok(Text::from_str(alloc, self.renaming.key_text(key))?)
    }
}

/// A formula with each sheet and each definition written by its text, and bound by what `names` finds. `scope` is the id of
/// the sheet that words are looked up from first.
#[cycle(rebind)]
pub(crate) fn rebind<R: Renaming, N: Finder>(
    alloc: Global,
    renaming: &R,
    names: &N,
    english: &Language,
    scope: Option<u32>,
    tree: &Bound,
) -> Result<Bound, OutOfMemory>
    ensures { IfOk result (λ r. r ≡ rebound (function_of english.now) (N.scene names.now)
        (R.sheet_text renaming.now) (R.key_text renaming.now) scope tree.now) }
{
    match tree {
        Tree::Num(amount) => Ok(Tree::Num(*amount)),
        Tree::Str(text) => Ok(Tree::Str(Text::from_str(alloc, text.as_str())?)),
        Tree::Bool(value) => Ok(Tree::Bool(*value)),
        Tree::Err(error) => Ok(Tree::Err(*error)),
        Tree::Reference(sheet, place) => Ok(Tree::Reference(
            rebind_sheet(alloc, renaming, names, sheet)?,
            place.copy(),
        )),
        Tree::Local(sheet, word) => {
            let sheet = rebind_sheet(alloc, renaming, names, sheet)?;
            let word = rebind_local_word(alloc, renaming, names, &sheet, word)?;
            Ok(Tree::Local(sheet, word))
        }
        Tree::Word(word) => Ok(Tree::Word(rebind_word(alloc, renaming, names, scope, word)?)),
        Tree::Empty => Ok(Tree::Empty),
        Tree::Paren(x) => Ok(Tree::Paren(rebind_boxed(alloc, renaming, names, english, scope, x)?)),
        Tree::Prefix(sign, x) => Ok(Tree::Prefix(
            *sign,
            rebind_boxed(alloc, renaming, names, english, scope, x)?,
        )),
        Tree::Percent(x) => Ok(Tree::Percent(rebind_boxed(
            alloc, renaming, names, english, scope, x,
        )?)),
        Tree::Spill(x) => Ok(Tree::Spill(rebind_boxed(alloc, renaming, names, english, scope, x)?)),
        Tree::Binary(sign, a, b) => {
            let a = rebind_boxed(alloc, renaming, names, english, scope, a)?;
            let b = rebind_boxed(alloc, renaming, names, english, scope, b)?;
            Ok(Tree::Binary(*sign, a, b))
        }
        Tree::Fun(number, arguments) => {
            let arguments = rebind_all(
                alloc,
                renaming,
                names,
                english,
                scope,
                arguments.as_slice(),
            )?;
            Ok(Tree::Fun(*number, Items::from(arguments)))
        }
        Tree::Apply(x, arguments) => {
            let x = rebind_boxed(alloc, renaming, names, english, scope, x)?;
            let arguments = rebind_all(
                alloc,
                renaming,
                names,
                english,
                scope,
                arguments.as_slice(),
            )?;
            Ok(Tree::Apply(x, Items::from(arguments)))
        }
        Tree::Call(_, _) | Tree::Let(_, _) | Tree::Lambda(_, _) | Tree::Array(_) => {
            rebind_whole(alloc, renaming, names, english, scope, tree)
        }
    }
}

/// The same in two walks, which knows the variables of LET and LAMBDA.
pub(crate) fn rebind_whole<R: Renaming, N: Finder>(
    alloc: Global,
    renaming: &R,
    names: &N,
    english: &Language,
    scope: Option<u32>,
    tree: &Bound,
) -> Result<Bound, OutOfMemory>
    ensures { IfOk result (λ r. r ≡ rebound (function_of english.now) (N.scene names.now)
        (R.sheet_text renaming.now) (R.key_text renaming.now) scope tree.now) }
{
    let written = spell_with(alloc, &Written { renaming }, tree)?;
    bind(alloc, names, english, scope, &written)
}

/// The same of a part of a formula.
#[cycle(rebind)]
fn rebind_boxed<R: Renaming, N: Finder>(
    alloc: Global,
    renaming: &R,
    names: &N,
    english: &Language,
    scope: Option<u32>,
    tree: &Boxed<Bound>,
) -> Result<Boxed<Bound>, OutOfMemory>
    ensures { IfOk result (λ r. r ≡ rebound (function_of english.now) (N.scene names.now)
        (R.sheet_text renaming.now) (R.key_text renaming.now) scope tree.now) }
{
    let bound = rebind(alloc, renaming, names, english, scope, tree.as_ref())?;
    Ok(Boxed::from(Box::new(alloc, bound)?))
}

/// The same of each of these formulas.
#[cycle(rebind)]
fn rebind_all<R: Renaming, N: Finder>(
    alloc: Global,
    renaming: &R,
    names: &N,
    english: &Language,
    scope: Option<u32>,
    trees: &[Bound],
) -> Result<Vec<Bound>, OutOfMemory>
    ensures { IfOk result (λ r. r.items ≡ all_rebound (function_of english.now)
        (N.scene names.now) (R.sheet_text renaming.now) (R.key_text renaming.now) scope
        trees.now) }
{
    let mut out = Vec::with_capacity(alloc, trees.len())?;
    for tree in trees {
        let bound = rebind(alloc, renaming, names, english, scope, tree)?;
        out.push(bound)?;
    }
    Ok(out)
}

/// The sheet of a reference.
pub(crate) fn rebind_sheet<R: Renaming, N: Finder>(
    alloc: Global,
    renaming: &R,
    names: &N,
    sheet: &SheetMention,
) -> Result<SheetMention, OutOfMemory>
    ensures { IfOk result (λ r. r ≡ bound_sheet (N.scene names.now)
        (spelled_sheet (R.sheet_text renaming.now) sheet.now)) }
{
    match sheet {
        SheetMention::Own => Ok(SheetMention::Own),
        SheetMention::Sheet(id) => match renaming.sheet_name(*id) {
            Some(name) => bind_name(alloc, names, name),
            None => bind_name(alloc, names, renaming.sheet_text(alloc, *id)?.as_str()),
        },
        SheetMention::Dangling(name) => bind_name(alloc, names, name.as_ref().as_str()),
    }
}

/// The sheet that a name means.
fn bind_name<N: Finder>(alloc: Global, names: &N, name: &str) -> Result<SheetMention, OutOfMemory>
    ensures { IfOk result (λ r. r ≡ sheet_or_dangling (chars name.now)
        (found_sheet (N.scene names.now) (chars name.now))) }
{
    match names.find_sheet(alloc, name)? {
        Some(id) => Ok(SheetMention::Sheet(id)),
        None => Ok(SheetMention::Dangling(Boxed::from_str(alloc, name)?)),
    }
}

/// A word where no variable is seen.
fn rebind_word<R: Renaming, N: Finder>(
    alloc: Global,
    renaming: &R,
    names: &N,
    scope: Option<u32>,
    word: &NameMention,
) -> Result<NameMention, OutOfMemory>
    ensures { IfOk result (λ r. r ≡ bound_word (N.scene names.now) scope []
        (spelled_word (R.key_text renaming.now) word.now)) }
{
    let text = word_text(renaming, word);
    name_or_dangling(alloc, names.find_name(alloc, scope, text)?, text)
}

/// A word behind its sheet, which is bound already.
pub(crate) fn rebind_local_word<R: Renaming, N: Finder>(
    alloc: Global,
    renaming: &R,
    names: &N,
    sheet: &SheetMention,
    word: &NameMention,
) -> Result<NameMention, OutOfMemory>
    ensures { IfOk result (λ r. r ≡ bound_local (N.scene names.now) sheet.now
        (spelled_word (R.key_text renaming.now) word.now)) }
{
    let text = word_text(renaming, word);
    match sheet {
        SheetMention::Sheet(id) => {
            name_or_dangling(alloc, find_local(alloc, names, *id, text)?, text)
        }
        _ => name_or_dangling(alloc, None, text),
    }
}

/// The definition that was found by a word, or the word.
fn name_or_dangling(
    alloc: Global,
    found: Option<NameKey>,
    word: &str,
) -> Result<NameMention, OutOfMemory>
    ensures { IfOk result (λ r. r ≡ name_or_dangling (chars word.now) found) }
{
    match found {
        Some(key) => Ok(NameMention::Name(Boxed::new(alloc, key)?)),
        None => Ok(NameMention::Dangling(Boxed::from_str(alloc, word)?)),
    }
}

/// The text of a word.
fn word_text<'k, R: Renaming>(renaming: &'k R, word: &'k NameMention) -> &'k str
    ensures { chars result.now ≡ spelled_word (R.key_text renaming.now) word.now }
{
    match word {
        NameMention::Var(word) => word.as_ref().as_str(),
        NameMention::Name(key) => renaming.key_text(key.as_ref()),
        NameMention::Dangling(word) => word.as_ref().as_str(),
    }
}
