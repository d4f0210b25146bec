ghost use Rattle.std.specs.Prelude.{◌≡◌, IfOk, OnOk, map};
ghost use Rattle.ic_laws.specs.Binding.{all_bound, bound, bound_local, bound_sheet, bound_under, bound_word, pair_binds, pairs_bound, with_variables};
ghost use Rattle.ic_laws.specs.declared.tree.Tree.TheOpen as one;
ghost use Rattle.ic_laws.proofs.binding.Again.{bound_node};
ghost use Rattle.ic_tree.specs.LanguageWords.{function_of};

use crate::copies::{copy_rows, copy_texts};
use crate::in_scope::Binders;
use crate::language_words::function_of;
use ic_laws::{
    Bound, Boxed, Finder, Items, LetPair, NameMention, OutOfMemory, SheetMention, Spelled, Text,
    Tree, find_local,
};
use ic_tables::Language;
use std::alloc::Global;

/// A formula bound to what `names` finds: a sheet name to the first sheet whose name agrees; a word to the variable of
/// LET or LAMBDA that is seen there, else to the definition that is local to the sheet with the id `scope`, else to the
/// one for all sheets; a called word that is a function word of `english` to that function. What isn't found dangles,
/// and keeps the text that was typed.
pub fn bind<N: Finder>(
    alloc: Global,
    names: &N,
    english: &Language,
    scope: Option<u32>,
    tree: &Spelled,
) -> Result<Bound, OutOfMemory>
    ensures { IfOk result (λ r. r ≡ bound (function_of english.now) (N.scene names.now) scope
        tree.now) }
{
    let mut seen = Binders::new(alloc);
    bind_under(alloc, names, english, scope, &mut seen, tree)
}

/// The sheet of a reference.
fn bind_sheet<N: Finder>(
    alloc: Global,
    names: &N,
    sheet: &Option<Text>,
) -> Result<SheetMention, OutOfMemory>
    ensures { IfOk result (λ r. r ≡ bound_sheet (N.scene names.now) sheet.now) }
{
    match sheet {
        None => Ok(SheetMention::Own),
        Some(name) => match names.find_sheet(alloc, name.as_str())? {
            Some(id) => Ok(SheetMention::Sheet(id)),
            None => Ok(SheetMention::Dangling(Boxed::from_str(alloc, name.as_str())?)),
        },
    }
}

/// What a word means.
fn bind_word<N: Finder>(
    alloc: Global,
    names: &N,
    scope: Option<u32>,
    seen: &Binders,
    word: &Text,
) -> Result<NameMention, OutOfMemory>
    ensures { IfOk result (λ r. r ≡ bound_word (N.scene names.now) scope seen.now word.now) }
{
    if seen.has(word.as_str())? {
        return Ok(NameMention::Var(Boxed::from_str(alloc, word.as_str())?));
    }
    match names.find_name(alloc, scope, word.as_str())? {
        Some(key) => Ok(NameMention::Name(Boxed::new(alloc, key)?)),
        None => Ok(NameMention::Dangling(Boxed::from_str(alloc, word.as_str())?)),
    }
}

/// The definition that a word with this sheet means: one that is local to that sheet, and no other.
fn bind_local_word<N: Finder>(
    alloc: Global,
    names: &N,
    sheet: &SheetMention,
    word: &Text,
) -> Result<NameMention, OutOfMemory>
    ensures { IfOk result (λ r. r ≡ bound_local (N.scene names.now) sheet.now word.now) }
{
    match sheet {
        SheetMention::Sheet(id) => match find_local(alloc, names, *id, word.as_str())? {
            Some(key) => Ok(NameMention::Name(Boxed::new(alloc, key)?)),
            None => Ok(NameMention::Dangling(Boxed::from_str(alloc, word.as_str())?)),
        },
        _ => Ok(NameMention::Dangling(Boxed::from_str(alloc, word.as_str())?)),
    }
}

/// A word with its sheet.
fn bind_local<N: Finder>(
    alloc: Global,
    names: &N,
    sheet: &Option<Text>,
    word: &Text,
) -> Result<Bound, OutOfMemory>
    ensures { IfOk result (λ r. r ≡ bound_node
        (one.Local (bound_sheet (N.scene names.now) sheet.now)
        (bound_local (N.scene names.now) (bound_sheet (N.scene names.now) sheet.now) word.now))) }
{
    let sheet = bind_sheet(alloc, names, sheet)?;
    let word = bind_local_word(alloc, names, &sheet, word)?;
    Ok(Tree::Local(sheet, word))
}

/// A formula that stands where these variables are seen. They are the same after an Ok.
#[cycle(bind)]
fn bind_under<N: Finder>(
    alloc: Global,
    names: &N,
    english: &Language,
    scope: Option<u32>,
    seen: &mut Binders,
    tree: &Spelled,
) -> Result<Bound, OutOfMemory>
    ensures bound { IfOk result (λ r. r ≡ bound_under (function_of english.now) (N.scene names.now)
        scope tree.now seen.old) }
    ensures seen { OnOk result (seen.new ≡ seen.old) }
{
    match tree {
        Tree::Num(amount) => Ok(Tree::Num(*amount)),
        Tree::Str(text) => Ok(Tree::Str(Text::from_str(alloc, text.as_str())?)),
        Tree::Bool(value) => Ok(Tree::Bool(*value)),
        Tree::Err(error) => Ok(Tree::Err(*error)),
        Tree::Reference(sheet, place) => Ok(Tree::Reference(
            bind_sheet(alloc, names, sheet)?,
            place.copy(),
        )),
        Tree::Local(sheet, word) => bind_local(alloc, names, sheet, word),
        Tree::Word(word) => Ok(Tree::Word(bind_word(alloc, names, scope, seen, word)?)),
        Tree::Empty => Ok(Tree::Empty),
        Tree::Paren(x) => {
            let x = bind_boxed(alloc, names, english, scope, seen, x)?;
            Ok(Tree::Paren(x))
        }
        Tree::Prefix(sign, x) => {
            let x = bind_boxed(alloc, names, english, scope, seen, x)?;
            Ok(Tree::Prefix(*sign, x))
        }
        Tree::Percent(x) => {
            let x = bind_boxed(alloc, names, english, scope, seen, x)?;
            Ok(Tree::Percent(x))
        }
        Tree::Spill(x) => {
            let x = bind_boxed(alloc, names, english, scope, seen, x)?;
            Ok(Tree::Spill(x))
        }
        Tree::Binary(sign, a, b) => {
            let a = bind_boxed(alloc, names, english, scope, seen, a)?;
            let b = bind_boxed(alloc, names, english, scope, seen, b)?;
            Ok(Tree::Binary(*sign, a, b))
        }
        Tree::Fun(number, arguments) => {
            let arguments = bind_all(alloc, names, english, scope, seen, arguments.as_slice())?;
            Ok(Tree::Fun(*number, Items::from(arguments)))
        }
        Tree::Call(word, arguments) => {
            let arguments = bind_all(alloc, names, english, scope, seen, arguments.as_slice())?;
            let arguments = Items::from(arguments);
            match function_of(english, word.as_ref().as_str()) {
                Some(number) => Ok(Tree::Fun(number, arguments)),
                None => {
                    let word = bind_word(alloc, names, scope, seen, word.as_ref())?;
                    Ok(Tree::Call(Boxed::new(alloc, word)?, arguments))
                }
            }
        }
        Tree::Let(pairs, body) => {
            let count = seen.len();
            let pairs = bind_pairs(alloc, names, english, scope, seen, pairs.as_slice())?;
            let body = bind_boxed(alloc, names, english, scope, seen, body)?;
            seen.leave(count)?;
            Ok(Tree::Let(Items::from(pairs), body))
        }
        Tree::Lambda(parameters, body) => {
            let count = seen.len();
            seen.push_all(parameters.as_slice())?;
            let body = bind_boxed(alloc, names, english, scope, seen, body)?;
            seen.leave(count)?;
            let parameters = copy_texts(alloc, parameters.as_slice())?;
            Ok(Tree::Lambda(Items::from(parameters), body))
        }
        Tree::Apply(x, arguments) => {
            let x = bind_boxed(alloc, names, english, scope, seen, x)?;
            let arguments = bind_all(alloc, names, english, scope, seen, arguments.as_slice())?;
            Ok(Tree::Apply(x, Items::from(arguments)))
        }
        Tree::Array(rows) => {
            let rows = copy_rows(alloc, rows.as_slice())?;
            Ok(Tree::Array(Items::from(rows)))
        }
    }
}

/// The same of a part of a formula.
#[cycle(bind)]
fn bind_boxed<N: Finder>(
    alloc: Global,
    names: &N,
    english: &Language,
    scope: Option<u32>,
    seen: &mut Binders,
    tree: &Boxed<Spelled>,
) -> Result<Boxed<Bound>, OutOfMemory>
    ensures bound { IfOk result (λ r. r ≡ bound_under (function_of english.now) (N.scene names.now)
        scope tree.now seen.old) }
    ensures seen { OnOk result (seen.new ≡ seen.old) }
{
    let bound = bind_under(alloc, names, english, scope, seen, tree.as_ref())?;
    Ok(Boxed::from(Box::new(alloc, bound)?))
}

/// Formulas that stand where these variables are seen.
#[cycle(bind)]
fn bind_all<N: Finder>(
    alloc: Global,
    names: &N,
    english: &Language,
    scope: Option<u32>,
    seen: &mut Binders,
    ts: &[Spelled],
) -> Result<Vec<Bound>, OutOfMemory>
    ensures bound { IfOk result (λ r. r.items
        ≡ all_bound (map (bound_under (function_of english.now) (N.scene names.now) scope) ts.now)
        seen.old) }
    ensures seen { OnOk result (seen.new ≡ seen.old) }
{
    let mut out = Vec::with_capacity(alloc, ts.len())?;
    for t in ts {
        let bound = bind_under(alloc, names, english, scope, seen, t)?;
        out.push(bound)?;
    }
    Ok(out)
}

/// The variables of LET with their values; each is added to those that are seen.
#[cycle(bind)]
fn bind_pairs<N: Finder>(
    alloc: Global,
    names: &N,
    english: &Language,
    scope: Option<u32>,
    seen: &mut Binders,
    pairs: &[LetPair<Option<Text>, Text>],
) -> Result<Vec<LetPair<SheetMention, NameMention>>, OutOfMemory>
    ensures values { IfOk result (λ r. r.items
        ≡ pairs_bound (map (pair_binds (function_of english.now) (N.scene names.now) scope)
        pairs.now) seen.old) }
    ensures variables { OnOk result (seen.new
        ≡ with_variables (map (pair_binds (function_of english.now) (N.scene names.now) scope)
        pairs.now) seen.old) }
{
    let mut out = Vec::with_capacity(alloc, pairs.len())?;
    for pair in pairs {
        let value = bind_under(alloc, names, english, scope, seen, &pair.value)?;
        let variable = Text::from_str(alloc, pair.variable.as_str())?;
        out.push(LetPair { variable, value })?;
        seen.push(pair.variable.as_str())?;
    }
    Ok(out)
}
