//! What a change of the sheets or the definitions of a book does to its formulas.
ghost use Rattle.std.specs.Prelude.{◌≡◌, [], ◌∷◌, IfOk, is_some};
ghost use Rattle.std.specs.Option.{unwrap_or};
ghost use Rattle.ic_laws.specs.Changes as laws;
ghost use Rattle.ic_laws.specs.Changes.{changed_local, changed_sheet, changed_word, changes_local, changes_sheet, changes_word};
ghost use Rattle.ic_pool.specs.Mentions.{formula_after, is_changed_by};
ghost use Rattle.ic_pool.specs.Topics.{SparesOthers};

mod definitions;
mod sheets;

use crate::copies::{MentionChange, copy_changed};
use crate::mentions::{MentionTest, some_in};
pub(crate) use definitions::is_of_name;
pub use definitions::{DefinitionAdded, DefinitionGone, same_key, same_scope};
use ic_laws::{Formula, NameMention, OutOfMemory, SheetMention};
pub(crate) use sheets::is_to_sheet;
pub use sheets::{SheetGone, SheetNamed};
use std::alloc::Global;

/// A change of the sheets or the definitions of a book, as single mentions see it.
pub trait BookChange {
    /// The mentions that it changes, and what they become.
    ghost change: { Self → laws.Change };

    /// A topic that each formula mentions which it changes.
    fn topic(&self) -> u64
        ensures { SparesOthers (change self.now) (result ∷ []) };

    /// Whether it changes the sheet of a reference.
    fn changes_sheet(&self, mention: &SheetMention) -> bool
        ensures { result ≡ changes_sheet (change self.now) mention.now };

    /// Whether it changes a word in a formula whose words are looked up from the sheet with this id, or from none.
    fn changes_word(&self, scope: Option<u32>, mention: &NameMention) -> bool
        ensures { result ≡ changes_word (change self.now) scope mention.now };

    /// Whether it changes a word with its sheet where it leaves that sheet, whichever formula both stand in.
    fn changes_local(&self, sheet: &SheetMention, mention: &NameMention) -> bool
        ensures { result ≡ changes_local (change self.now) sheet.now mention.now };

    /// What the sheet of a reference becomes.
    fn changed_sheet(
        &self,
        alloc: Global,
        mention: &SheetMention,
    ) -> Result<SheetMention, OutOfMemory>
        ensures { IfOk result (λ m. m ≡ changed_sheet (change self.now) mention.now) };

    /// What a word becomes in a formula whose words are looked up from the sheet with this id, or from none.
    fn changed_word(
        &self,
        alloc: Global,
        scope: Option<u32>,
        mention: &NameMention,
    ) -> Result<NameMention, OutOfMemory>
        ensures { IfOk result (λ m. m ≡ changed_word (change self.now) scope mention.now) };

    /// What a word with its sheet becomes, and what the sheet does.
    fn changed_local(
        &self,
        alloc: Global,
        sheet: &SheetMention,
        mention: &NameMention,
    ) -> Result<(SheetMention, NameMention), OutOfMemory>
        ensures { IfOk result (λ m. m ≡ changed_local (change self.now) sheet.now mention.now) };
}

/// A change in formulas whose words are looked up from one sheet, or from none.
#[derive(Drop)]
struct Changing<'c, C: BookChange> {
    change: &'c C,
    scope: Option<u32>,
}

impl<'c, C: BookChange> MentionTest for Changing<'c, C> {
    ghost use Rattle.ic_laws.specs.Changes.{changes_local, changes_sheet, changes_word};

    ghost is_sheet = { λ c mention. changes_sheet (C.change c.change.now) mention };

    ghost is_word = { λ c mention. changes_word (C.change c.change.now) c.scope mention };

    ghost is_local = { λ c sheet mention. changes_local (C.change c.change.now) sheet mention };

    fn sheet(&self, mention: &SheetMention) -> bool {
        self.change.changes_sheet(mention)
    }

    fn word(&self, mention: &NameMention) -> bool {
        self.change.changes_word(self.scope, mention)
    }

    fn local(&self, sheet: &SheetMention, mention: &NameMention) -> bool {
        self.change.changes_local(sheet, mention)
    }
}

impl<'c, C: BookChange> MentionChange for Changing<'c, C> {
    ghost use Rattle.ic_laws.specs.Changes.{changed_local, changed_sheet, changed_word};

    ghost sheet_becomes = { λ c mention. changed_sheet (C.change c.change.now) mention };

    ghost word_becomes = { λ c mention. changed_word (C.change c.change.now) c.scope mention };

    ghost local_becomes = { λ c sheet mention. changed_local (C.change c.change.now) sheet mention };

    fn sheet(&self, alloc: Global, mention: &SheetMention) -> Result<SheetMention, OutOfMemory> {
        self.change.changed_sheet(alloc, mention)
    }

    fn word(&self, alloc: Global, mention: &NameMention) -> Result<NameMention, OutOfMemory> {
        self.change.changed_word(alloc, self.scope, mention)
    }

    fn local(
        &self,
        alloc: Global,
        sheet: &SheetMention,
        mention: &NameMention,
    ) -> Result<(SheetMention, NameMention), OutOfMemory> {
        self.change.changed_local(alloc, sheet, mention)
    }
}

/// What a formula becomes over a change, where its words are looked up from the sheet with this id, or from none. None
/// exactly where no mention of it is one that the change changes: then it stays as it is, and nothing is copied.
pub fn changed_formula<C: BookChange>(
    alloc: Global,
    change: &C,
    scope: Option<u32>,
    formula: &Formula,
) -> Result<Option<Formula>, OutOfMemory>
    ensures becomes { IfOk result (λ r. formula_after (C.change change.now) scope formula.now
        ≡ unwrap_or r formula.now) }
    ensures anew { IfOk result (λ r. is_some r
        ≡ is_changed_by (C.change change.now) scope formula.now) }
{
    let changing = Changing { change, scope };
    if !some_in(&changing, formula) {
        return Ok(None);
    }
    match formula {
        Formula::Tree(tree) => Ok(Some(Formula::Tree(copy_changed(alloc, &changing, tree)?))),
        Formula::Raw(_) => Ok(None),
    }
}
