//! Which formulas an update of a definition would capture, told without making what is kept of them.
ghost use Rattle.std.specs.Prelude.{◌≡◌, List, [], IfOk, Some, map, ℕ};
ghost use Rattle.ic_keep.specs.Capture.{captured, captured_beside, captured_formula, is_captured, means, some_captured};
ghost use Rattle.ic_keep.specs.Change.{change_of};
ghost use Rattle.ic_keep.specs.Rebound.{all_rebound, rebound};
ghost use Rattle.ic_laws.specs.Binding.{bound_local, bound_sheet, bound_word, name_or_dangling, spelled_sheet, spelled_word};
ghost use Rattle.ic_laws.specs.Keeping.{kept, kept_formula};
ghost use Rattle.ic_tree.specs.LanguageWords.{function_of};

use crate::KeyChange;
use crate::capture::{is_captured, is_captured_beside};
use crate::change::{changed_key, is_same_key};
use crate::keeping::Change;
use crate::rebinding::{Renaming, rebind_local_word, rebind_sheet, rebind_whole};
use ic_laws::{Bound, Finder, Formula, NameKey, NameMention, OutOfMemory, SheetMention, Tree};
use ic_tables::Language;
use std::alloc::Global;

/// Whether the update of a definition would capture some word of a formula: what `captured_formula` tells of it and of what
/// `keep_formula` makes of it. A copy is made only of the parts that call a word or have variables.
pub fn would_capture<B: Finder, A: Finder>(
    alloc: Global,
    before: &B,
    after: &A,
    change: &KeyChange,
    english: &Language,
    scope: Option<u32>,
    formula: &Formula,
) -> Result<bool, OutOfMemory>
    ensures { IfOk result (λ r. r ≡ captured_formula (change_of (Some change.now)) formula.now
        (kept_formula (function_of english.now) (B.scene before.now) (A.scene after.now)
        (change_of (Some change.now)) scope formula.now)) }
{
    match formula {
        Formula::Tree(tree) => would_capture_in(alloc, before, after, change, english, scope, tree),
        Formula::Raw(_) => Ok(false),
    }
}

/// The same of a tree.
fn would_capture_in<B: Finder, A: Finder>(
    alloc: Global,
    before: &B,
    after: &A,
    change: &KeyChange,
    english: &Language,
    scope: Option<u32>,
    tree: &Bound,
) -> Result<bool, OutOfMemory>
    ensures { IfOk result (λ r. r ≡ captured (change_of (Some change.now)) tree.now
        (kept (function_of english.now) (B.scene before.now) (A.scene after.now)
        (change_of (Some change.now)) scope tree.now)) }
{
    let renaming = Change {
        before,
        after,
        key: Some(change),
    };
    is_captured_again(alloc, &renaming, after, english, scope, change, tree)
}

/// Whether the update captures some word of a formula that is bound again as `rebind` does.
#[cycle(would_capture)]
fn is_captured_again<R: Renaming, N: Finder>(
    alloc: Global,
    renaming: &R,
    names: &N,
    english: &Language,
    scope: Option<u32>,
    change: &KeyChange,
    tree: &Bound,
) -> Result<bool, OutOfMemory>
    ensures { IfOk result (λ r. r ≡ captured_beside (change_of (Some change.now)) tree.now
        (rebound (function_of english.now) (N.scene names.now) (R.sheet_text renaming.now)
        (R.key_text renaming.now) scope tree.now)) }
{
    match tree {
        Tree::Local(sheet, word) => is_local_captured(alloc, renaming, names, change, sheet, word),
        Tree::Word(word) => is_word_captured(alloc, renaming, names, scope, change, word),
        Tree::Paren(x) => is_captured_again(
            alloc,
            renaming,
            names,
            english,
            scope,
            change,
            x.as_ref(),
        ),
        Tree::Prefix(_, x) => {
            is_captured_again(alloc, renaming, names, english, scope, change, x.as_ref())
        }
        Tree::Percent(x) => {
            is_captured_again(alloc, renaming, names, english, scope, change, x.as_ref())
        }
        Tree::Spill(x) => is_captured_again(
            alloc,
            renaming,
            names,
            english,
            scope,
            change,
            x.as_ref(),
        ),
        Tree::Binary(_, a, b) => {
            if is_captured_again(alloc, renaming, names, english, scope, change, a.as_ref())? {
                return Ok(true);
            }
            is_captured_again(alloc, renaming, names, english, scope, change, b.as_ref())
        }
        Tree::Fun(_, arguments) => {
            let arguments = arguments.as_slice();
            let captured = is_some_captured_again(
                alloc, renaming, names, english, scope, change, arguments,
            )?;
            Ok(captured)
        }
        Tree::Apply(x, arguments) => {
            if is_captured_again(alloc, renaming, names, english, scope, change, x.as_ref())? {
                return Ok(true);
            }
            let arguments = arguments.as_slice();
            let captured = is_some_captured_again(
                alloc, renaming, names, english, scope, change, arguments,
            )?;
            Ok(captured)
        }
        Tree::Call(_, _) | Tree::Let(_, _) | Tree::Lambda(_, _) => {
            let kept = rebind_whole(alloc, renaming, names, english, scope, tree)?;
            Ok(is_captured_beside(tree, &kept, change))
        }
        _ => Ok(false),
    }
}

/// The same of one of these formulas.
#[cycle(would_capture)]
fn is_some_captured_again<R: Renaming, N: Finder>(
    alloc: Global,
    renaming: &R,
    names: &N,
    english: &Language,
    scope: Option<u32>,
    change: &KeyChange,
    trees: &[Bound],
) -> Result<bool, OutOfMemory>
    ensures { IfOk result (λ r. r ≡ some_captured
        (map (captured_beside (change_of (Some change.now))) trees.now)
        (all_rebound (function_of english.now) (N.scene names.now) (R.sheet_text renaming.now)
        (R.key_text renaming.now) scope trees.now)) }
{
    for tree in trees {
        if is_captured_again(alloc, renaming, names, english, scope, change, tree)? {
            return Ok(true);
        }
    }
    Ok(false)
}

/// The same of a word where no variable is seen.
fn is_word_captured<R: Renaming, N: Finder>(
    alloc: Global,
    renaming: &R,
    names: &N,
    scope: Option<u32>,
    change: &KeyChange,
    word: &NameMention,
) -> Result<bool, OutOfMemory>
    ensures { IfOk result (λ r. r ≡ is_captured (change_of (Some change.now)) (Some word.now)
        (Some (bound_word (N.scene names.now) scope []
        (spelled_word (R.key_text renaming.now) word.now)))) }
{
    let NameMention::Name(key) = word else {
        return Ok(false);
    };
    let key = key.as_ref();
    let found = names.find_name(alloc, scope, renaming.key_text(key))?;
    Ok(!is_found(&found, changed_key(Some(change), key)))
}

/// Whether a word for which this was found means the definition with this key, whatever the word is.
fn is_found(found: &Option<NameKey>, key: &NameKey) -> bool
    ensures { (word : List ℕ) → result ≡ means key.now (Some (name_or_dangling word found.now)) }
{
    match found {
        Some(found) => is_same_key(found, key),
        None => false,
    }
}

/// The same of a word behind its sheet.
fn is_local_captured<R: Renaming, N: Finder>(
    alloc: Global,
    renaming: &R,
    names: &N,
    change: &KeyChange,
    sheet: &SheetMention,
    word: &NameMention,
) -> Result<bool, OutOfMemory>
    ensures { IfOk result (λ r. r ≡ is_captured (change_of (Some change.now)) (Some word.now)
        (Some (bound_local (N.scene names.now) (bound_sheet (N.scene names.now)
        (spelled_sheet (R.sheet_text renaming.now) sheet.now))
        (spelled_word (R.key_text renaming.now) word.now)))) }
{
    let sheet = rebind_sheet(alloc, renaming, names, sheet)?;
    let after = rebind_local_word(alloc, renaming, names, &sheet, word)?;
    Ok(is_captured(word, Some(&after), change))
}
