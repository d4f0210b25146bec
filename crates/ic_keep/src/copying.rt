ghost use Rattle.std.specs.Prelude.{◌≡◌, IfOk, if◌then◌else◌, nat_eq};
ghost use Rattle.ic_keep.specs.Copy.{copied, copied_for, copy_spelling};
ghost use Rattle.ic_laws.specs.Scene.{definition_spelling};
ghost use Rattle.ic_tree.specs.LanguageWords.{function_of};

use crate::rebinding::{Renaming, rebind};
use ic_laws::{Bound, Finder, Formula, NameKey, OutOfMemory, Text};
use ic_tables::Language;
use ic_tree::spell_sheet;
use std::alloc::Global;

/// The names in a book with the copy of a sheet; the source is written by the name of its copy.
#[derive(Drop)]
struct Copying<'a, A: Finder> {
    after: &'a A,
    source: u32,
    copy: u32,
}

impl<'a, A: Finder> Renaming for Copying<'a, A> {
    ghost sheet_text = { λ copying. copy_spelling (A.scene copying.after.now)
        copying.source copying.copy };

    ghost key_text = { λ copying. definition_spelling (A.scene copying.after.now) };

    fn sheet_name(&self, id: u32) -> Option<&str> {
        self.after.sheet_spelling(self.named_by(id))
    }

    fn sheet_text(&self, alloc: Global, id: u32) -> Result<Text, OutOfMemory> {
        spell_sheet(alloc, self.after, self.named_by(id))
    }

    fn key_text<'k>(&'k self, key: &'k NameKey) -> &'k str {
        match self.after.name_spelling(key) {
            Some(name) => name,
            None => key.name.as_str(),
        }
    }
}

impl<'a, A: Finder> Copying<'a, A> {
    /// The id of the sheet by whose name this one is written.
    fn named_by(&self, id: u32) -> u32
        ensures { result ≡ (if nat_eq id self.now.source then self.now.copy else id) }
    {
        if id == self.source { self.copy } else { id }
    }
}

/// A formula of a sheet that is copied, as the copy has it. `after` is the book with the copy, `source` the id of the sheet
/// that is copied, `copy` the id of its copy. The source is written by the name of the copy, all else by its own name; what
/// is written so is bound in the book after, with the sheet with the id `scope` as the one that words are looked up from
/// first. Fails where memory runs out.
pub fn keep_copy<A: Finder>(
    alloc: Global,
    after: &A,
    source: u32,
    copy: u32,
    english: &Language,
    scope: Option<u32>,
    tree: &Bound,
) -> Result<Bound, OutOfMemory>
    ensures { IfOk result (λ r. r ≡ copied (function_of english.now) (A.scene after.now)
        source copy scope tree.now) }
{
    let copying = Copying {
        after,
        source,
        copy,
    };
    rebind(alloc, &copying, after, english, scope, tree)
}

/// What is kept of a formula of a sheet that is copied, as the copy has it. A text that doesn't read is copied as it is.
pub fn keep_copy_formula<A: Finder>(
    alloc: Global,
    after: &A,
    source: u32,
    copy: u32,
    english: &Language,
    scope: Option<u32>,
    formula: &Formula,
) -> Result<Formula, OutOfMemory>
    ensures { IfOk result (λ r. r ≡ copied_for (function_of english.now) (A.scene after.now)
        source copy scope formula.now) }
{
    match formula {
        Formula::Tree(tree) => Ok(Formula::Tree(keep_copy(
            alloc, after, source, copy, english, scope, tree,
        )?)),
        Formula::Raw(text) => Ok(Formula::Raw(Text::from_str(alloc, text.as_str())?)),
    }
}
