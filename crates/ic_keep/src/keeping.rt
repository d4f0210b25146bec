ghost use Rattle.std.specs.Prelude.{◌≡◌, IfOk, option_copied};
ghost use Rattle.ic_keep.specs.Change.{change_of};
ghost use Rattle.ic_laws.specs.Keeping.{kept, kept_formula, kept_name, kept_sheet};
ghost use Rattle.ic_tree.specs.LanguageWords.{function_of};

use crate::KeyChange;
use crate::change::changed_key;
use crate::rebinding::{Renaming, rebind};
use ic_laws::{Bound, Finder, Formula, NameKey, OutOfMemory, Text};
use ic_tables::Language;
use ic_tree::spell_sheet;
use std::alloc::Global;

/// The names after a change, and those before it of what is gone.
#[derive(Drop)]
pub(crate) struct Change<'k, B: Finder, A: Finder> {
    pub(crate) before: &'k B,
    pub(crate) after: &'k A,
    pub(crate) key: Option<&'k KeyChange>,
}

impl<'k, B: Finder, A: Finder> Renaming for Change<'k, B, A> {
    ghost sheet_text = { λ change. kept_sheet (B.scene change.before.now)
        (A.scene change.after.now) };

    ghost key_text = { λ change. kept_name (B.scene change.before.now)
        (A.scene change.after.now) (change_of (option_copied change.key)) };

    fn sheet_name(&self, id: u32) -> Option<&str> {
        match self.after.sheet_spelling(id) {
            Some(name) => Some(name),
            None => self.before.sheet_spelling(id),
        }
    }

    fn sheet_text(&self, alloc: Global, id: u32) -> Result<Text, OutOfMemory> {
        match self.after.sheet_spelling(id) {
            Some(name) => Ok(Text::from_str(alloc, name)?),
            None => spell_sheet(alloc, self.before, id),
        }
    }

    fn key_text<'n>(&'n self, key: &'n NameKey) -> &'n str {
        if let Some(name) = self.after.name_spelling(changed_key(self.key, key)) {
            return name;
        }
        match self.before.name_spelling(key) {
            Some(name) => name,
            None => key.name.as_str(),
        }
    }
}

/// A formula over a change of its book, from the sheets and definitions `before` to those `after`. Each sheet and each
/// definition is written by its name after the change, by the one before where it is gone, and by the digits of its id or
/// its folded name where it wasn't there either; what is written so is bound in the book after, with the sheet with the id
/// `scope` as the one that words are looked up from first. `change` is the key of a definition that was updated, before and
/// after; None where every definition keeps its key.
pub fn keep<B: Finder, A: Finder>(
    alloc: Global,
    before: &B,
    after: &A,
    change: Option<&KeyChange>,
    english: &Language,
    scope: Option<u32>,
    tree: &Bound,
) -> Result<Bound, OutOfMemory>
    ensures { IfOk result (λ r. r ≡ kept (function_of english.now) (B.scene before.now)
        (A.scene after.now) (change_of (option_copied change.entry)) scope tree.now) }
{
    let change = Change {
        before,
        after,
        key: change,
    };
    rebind(alloc, &change, after, english, scope, tree)
}

/// What is kept of a formula, over a change of its book. A text that doesn't read stays as it is.
pub fn keep_formula<B: Finder, A: Finder>(
    alloc: Global,
    before: &B,
    after: &A,
    change: Option<&KeyChange>,
    english: &Language,
    scope: Option<u32>,
    formula: &Formula,
) -> Result<Formula, OutOfMemory>
    ensures { IfOk result (λ r. r ≡ kept_formula (function_of english.now) (B.scene before.now)
        (A.scene after.now) (change_of (option_copied change.entry)) scope formula.now) }
{
    match formula {
        Formula::Tree(tree) => Ok(Formula::Tree(keep(
            alloc, before, after, change, english, scope, tree,
        )?)),
        Formula::Raw(text) => Ok(Formula::Raw(Text::from_str(alloc, text.as_str())?)),
    }
}
