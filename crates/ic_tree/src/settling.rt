ghost use Rattle.std.specs.Prelude.{◌≡◌, ◌∷◌, [], OnOk, chars, map, option_map};
ghost use Rattle.ic_laws.specs.Binding.{all_bound, bound, bound_local, bound_sheet, bound_under, bound_word, pair_binds, pairs_bound, with_variables};
ghost use Rattle.ic_laws.specs.declared.tree.NameMention.TheVariants as mentions;
ghost use Rattle.ic_tree.specs.LanguageWords.{function_of};
ghost use Rattle.ic_tree.specs.Typed.{as_typed, dangling_sheet, pair_as_typed, pair_bound, typed_sheet, typed_word};

use crate::in_scope::Binders;
use crate::language_words::function_of;
use ic_laws::{
    Bound, Boxed, Finder, Items, LetPair, NameMention, OutOfMemory, SheetMention, Tree, find_local,
};
use ic_tables::Language;
use std::alloc::Global;

/// Binds a formula where it stands, as `bind` does a copy of it. It is one that was only read, so what it mentions dangles
/// as it was typed; what doesn't is looked for again, by the text that it would dangle by. After an error nothing is known
/// of the formula.
pub fn settle<N: Finder>(
    alloc: Global,
    names: &N,
    english: &Language,
    scope: Option<u32>,
    tree: &mut Bound,
) -> Result<(), OutOfMemory>
    ensures { OnOk result (tree.new ≡ bound (function_of english.now) (N.scene names.now) scope
        (as_typed tree.old)) }
{
    let mut seen = Binders::new(alloc);
    settle_under(alloc, names, english, scope, &mut seen, tree)
}

/// The sheet of a reference.
fn settle_sheet<N: Finder>(
    alloc: Global,
    names: &N,
    sheet: &mut SheetMention,
) -> Result<(), OutOfMemory>
    ensures { OnOk result (sheet.new ≡ bound_sheet (N.scene names.now) (typed_sheet sheet.old)) }
{
    let Some(name) = typed_sheet(sheet) else {
        return Ok(());
    };
    match names.find_sheet(alloc, name)? {
        Some(id) => {
            *sheet = SheetMention::Sheet(id);
            Ok(())
        }
        None => dangle_sheet(alloc, sheet),
    }
}

/// A sheet as it was typed, None where the formula's own is meant.
fn typed_sheet(sheet: &SheetMention) -> Option<&str>
    ensures { option_map (λ s. chars s.now) result ≡ typed_sheet sheet.now }
{
    match sheet {
        SheetMention::Own => None,
        SheetMention::Sheet(_) => Some(""),
        SheetMention::Dangling(name) => Some(name.as_ref().as_str()),
    }
}

/// A sheet that isn't found dangles.
fn dangle_sheet(alloc: Global, sheet: &mut SheetMention) -> Result<(), OutOfMemory>
    ensures { OnOk result (sheet.new ≡ dangling_sheet (typed_sheet sheet.old)) }
{
    if let SheetMention::Sheet(_) = sheet {
        *sheet = SheetMention::Dangling(Boxed::from_str(alloc, "")?);
    }
    Ok(())
}

/// What a word means.
fn settle_word<N: Finder>(
    alloc: Global,
    names: &N,
    scope: Option<u32>,
    seen: &Binders,
    word: &mut NameMention,
) -> Result<(), OutOfMemory>
    ensures { OnOk result (word.new
        ≡ bound_word (N.scene names.now) scope seen.now (typed_word word.old)) }
{
    let text = typed_word(word);
    if seen.has(text)? {
        let text = Boxed::from_str(alloc, text)?;
        *word = NameMention::Var(text);
        return Ok(());
    }
    match names.find_name(alloc, scope, text)? {
        Some(key) => {
            *word = NameMention::Name(Boxed::new(alloc, key)?);
            Ok(())
        }
        None => dangle_word(alloc, word),
    }
}

/// A word as it was typed.
fn typed_word(word: &NameMention) -> &str
    ensures { chars result.now ≡ typed_word word.now }
{
    match word {
        NameMention::Var(text) => text.as_ref().as_str(),
        NameMention::Name(key) => key.as_ref().name.as_str(),
        NameMention::Dangling(text) => text.as_ref().as_str(),
    }
}

/// A word that isn't found dangles.
fn dangle_word(alloc: Global, word: &mut NameMention) -> Result<(), OutOfMemory>
    ensures { OnOk result (word.new ≡ mentions.Dangling (typed_word word.old)) }
{
    if let NameMention::Dangling(_) = word {
        return Ok(());
    }
    let text = Boxed::from_str(alloc, typed_word(word))?;
    *word = NameMention::Dangling(text);
    Ok(())
}

/// The definition that a word with this sheet means: one that is local to that sheet, and no other.
fn settle_local_word<N: Finder>(
    alloc: Global,
    names: &N,
    sheet: &SheetMention,
    word: &mut NameMention,
) -> Result<(), OutOfMemory>
    ensures { OnOk result (word.new
        ≡ bound_local (N.scene names.now) sheet.now (typed_word word.old)) }
{
    let SheetMention::Sheet(id) = sheet else {
        return dangle_word(alloc, word);
    };
    match find_local(alloc, names, *id, typed_word(word))? {
        Some(key) => {
            *word = NameMention::Name(Boxed::new(alloc, key)?);
            Ok(())
        }
        None => dangle_word(alloc, word),
    }
}

/// A formula that stands where these variables are seen. They are the same after an Ok.
#[cycle(settle)]
fn settle_under<N: Finder>(
    alloc: Global,
    names: &N,
    english: &Language,
    scope: Option<u32>,
    seen: &mut Binders,
    tree: &mut Bound,
) -> Result<(), OutOfMemory>
    ensures bound { OnOk result (tree.new ≡ bound_under (function_of english.now)
        (N.scene names.now) scope (as_typed tree.old) seen.old) }
    ensures seen { OnOk result (seen.new ≡ seen.old) }
{
    match tree {
        Tree::Num(_) | Tree::Str(_) | Tree::Bool(_) | Tree::Err(_) | Tree::Empty => Ok(()),
        Tree::Array(_) => Ok(()),
        Tree::Reference(sheet, _) => settle_sheet(alloc, names, sheet),
        Tree::Local(sheet, word) => {
            settle_sheet(alloc, names, sheet)?;
            settle_local_word(alloc, names, sheet, word)
        }
        Tree::Word(word) => settle_word(alloc, names, scope, seen, word),
        Tree::Paren(x) => settle_under(alloc, names, english, scope, seen, x.as_mut()),
        Tree::Prefix(_, x) => settle_under(alloc, names, english, scope, seen, x.as_mut()),
        Tree::Percent(x) => settle_under(alloc, names, english, scope, seen, x.as_mut()),
        Tree::Spill(x) => settle_under(alloc, names, english, scope, seen, x.as_mut()),
        Tree::Binary(_, a, b) => {
            settle_under(alloc, names, english, scope, seen, a.as_mut())?;
            settle_under(alloc, names, english, scope, seen, b.as_mut())
        }
        Tree::Fun(_, arguments) => { settle_all(alloc, names, english, scope, seen, arguments) }
        Tree::Call(word, arguments) => {
            settle_all(alloc, names, english, scope, seen, arguments)?;
            match function_of(english, typed_word(word.as_ref())) {
                Some(number) => {
                    let list = std::mem::replace(arguments, Items::from(Vec::new(alloc)));
                    *tree = Tree::Fun(number, list);
                    Ok(())
                }
                None => settle_word(alloc, names, scope, seen, word.as_mut()),
            }
        }
        Tree::Let(pairs, body) => {
            let count = seen.len();
            settle_pairs(alloc, names, english, scope, seen, pairs)?;
            settle_under(alloc, names, english, scope, seen, body.as_mut())?;
            seen.leave(count)
        }
        Tree::Lambda(parameters, body) => {
            let count = seen.len();
            seen.push_all(parameters.as_slice())?;
            settle_under(alloc, names, english, scope, seen, body.as_mut())?;
            seen.leave(count)
        }
        Tree::Apply(x, arguments) => {
            settle_under(alloc, names, english, scope, seen, x.as_mut())?;
            settle_all(alloc, names, english, scope, seen, arguments)
        }
    }
}

/// Formulas that stand where these variables are seen.
#[cycle(settle)]
fn settle_all<N: Finder>(
    alloc: Global,
    names: &N,
    english: &Language,
    scope: Option<u32>,
    seen: &mut Binders,
    ts: &mut Items<Bound>,
) -> Result<(), OutOfMemory>
    ensures bound { OnOk result (ts.new ≡ all_bound (map (bound_under (function_of english.now)
        (N.scene names.now) scope) (map as_typed ts.old)) seen.old) }
    ensures seen { OnOk result (seen.new ≡ seen.old) }
{
    for place in 0..ts.len() {
        settle_under(alloc, names, english, scope, seen, ts.at_mut(place))?;
    }
    Ok(())
}

/// The variables of LET with their values; each is added to those that are seen.
#[cycle(settle)]
fn settle_pairs<N: Finder>(
    alloc: Global,
    names: &N,
    english: &Language,
    scope: Option<u32>,
    seen: &mut Binders,
    pairs: &mut Items<LetPair<SheetMention, NameMention>>,
) -> Result<(), OutOfMemory>
    ensures values { OnOk result (pairs.new
        ≡ pairs_bound (map (pair_binds (function_of english.now) (N.scene names.now) scope)
        (map pair_as_typed pairs.old)) seen.old) }
    ensures variables { OnOk result (seen.new
        ≡ with_variables (map (pair_binds (function_of english.now) (N.scene names.now) scope)
        (map pair_as_typed pairs.old)) seen.old) }
{
    for place in 0..pairs.len() {
        settle_pair(alloc, names, english, scope, seen, pairs.at_mut(place))?;
    }
    Ok(())
}

/// A variable of LET with its value; it is seen from then on.
#[cycle(settle)]
fn settle_pair<N: Finder>(
    alloc: Global,
    names: &N,
    english: &Language,
    scope: Option<u32>,
    seen: &mut Binders,
    pair: &mut LetPair<SheetMention, NameMention>,
) -> Result<(), OutOfMemory>
    ensures value { OnOk result (pair.new
        ≡ pair_bound (pair_binds (function_of english.now) (N.scene names.now) scope
        (pair_as_typed pair.old)) seen.old) }
    ensures variable { OnOk result (seen.new
        ≡ with_variables (pair_binds (function_of english.now) (N.scene names.now) scope
        (pair_as_typed pair.old) ∷ []) seen.old) }
{
    settle_under(alloc, names, english, scope, seen, &mut pair.value)?;
    seen.push(pair.variable.as_str())
}
