//! A definition comes, and a definition goes.
ghost use Rattle.std.specs.Prelude.{◌≡◌, ◌||◌, None, chars, IfOk};
ghost use Rattle.ic_laws.specs.Changes.{could_mean, could_mean_local, is_of_name};
ghost use Rattle.ic_laws.specs.Name.{fold};
ghost use Rattle.ic_laws.specs.Scene.{key_of, same_key, same_scope};
ghost use Rattle.ic_laws.specs.declared.tree.NameMention.TheVariants as names;

use crate::changes::BookChange;
use crate::copies::{copy_key, copy_local, copy_sheet, copy_word};
use crate::topics::folded_topic;
use ic_laws::{Boxed, NameKey, NameMention, OutOfMemory, SheetMention, agree};
use std::alloc::Global;
use std::marker::Model;

/// A definition comes, by the name that it was given and its key: words that could mean it do, those with the sheet that it
/// is local to among them. Contracts see its name and the id of that sheet, if there is one.
#[derive(Drop)]
pub struct DefinitionAdded<'n> {
    name: &'n str,
    key: &'n NameKey,
}

impl<'n> Model for DefinitionAdded<'n> {
    ghost use Rattle.std.specs.Prelude.{◌≡◌, chars};
    ghost use Rattle.ic_laws.specs.Name.{fold};
    ghost use Rattle.ic_laws.specs.declared.scene.NameSpelling.{NameSpelling};

    ghost Value = { NameSpelling };

    ghost view = { λ a. record { name = chars a.name.now; scope = a.key.now.scope } };

    ghost invariant = { λ a. a.key.now.name ≡ fold (chars a.name.now) };
}

impl<'n> DefinitionAdded<'n> {
    /// The change that this definition makes. The key must be its own.
    pub fn new(name: &'n str, key: &'n NameKey) -> DefinitionAdded<'n>
        requires { key.now.name ≡ fold (chars name.now) }
        ensures { result ≡ record { name = chars name.now; scope = key.now.scope } }
    {
        DefinitionAdded { name, key }
    }

    /// The id of the sheet that it is local to, if there is one.
    pub fn scope(&self) -> Option<u32>
        ensures { result ≡ self.now.scope }
    {
        self.key.scope
    }

    /// Whether a word could mean it.
    fn could_mean(&self, scope: Option<u32>, mention: &NameMention) -> bool
        ensures { result ≡ could_mean (key_of self.now) scope mention.now }
    {
        match mention {
            NameMention::Var(_) => false,
            NameMention::Name(found) => {
                let found = found.as_ref();
                self.key.name == found.name && same_scope(self.key.scope, scope)
            }
            NameMention::Dangling(word) => {
                agree(self.name, word.as_ref().as_str()) && self.reaches(scope)
            }
        }
    }

    /// Whether a word with its sheet could mean it.
    fn could_mean_local(&self, sheet: &SheetMention, mention: &NameMention) -> bool
        ensures { result ≡ could_mean_local (key_of self.now) sheet.now mention.now }
    {
        match (sheet, mention) {
            (SheetMention::Sheet(id), NameMention::Dangling(word)) => {
                agree(self.name, word.as_ref().as_str()) && same_scope(self.key.scope, Some(*id))
            }
            _ => false,
        }
    }

    /// A word that means it.
    fn mention(&self, alloc: Global) -> Result<NameMention, OutOfMemory>
        ensures { IfOk result (λ m. m ≡ names.Name (key_of self.now)) }
    {
        let key = copy_key(alloc, self.key)?;
        Ok(NameMention::Name(Boxed::new(alloc, key)?))
    }

    /// Whether formulas whose words are looked up from this sheet find it where they find no other.
    fn reaches(&self, scope: Option<u32>) -> bool
        ensures { result ≡ (same_scope self.now.scope scope || same_scope self.now.scope None) }
    {
        same_scope(self.key.scope, scope) || self.key.scope.is_none()
    }
}

impl<'n> BookChange for DefinitionAdded<'n> {
    ghost use Rattle.ic_laws.specs.Changes.{definition_added};

    ghost change = { λ added. definition_added added };

    fn topic(&self) -> u64 {
        folded_topic(self.key.name.as_str())
    }

    fn changes_sheet(&self, _mention: &SheetMention) -> bool {
        false
    }

    fn changes_word(&self, scope: Option<u32>, mention: &NameMention) -> bool {
        self.could_mean(scope, mention)
    }

    fn changes_local(&self, sheet: &SheetMention, mention: &NameMention) -> bool {
        self.could_mean_local(sheet, mention)
    }

    fn changed_sheet(
        &self,
        alloc: Global,
        mention: &SheetMention,
    ) -> Result<SheetMention, OutOfMemory> {
        copy_sheet(alloc, mention)
    }

    fn changed_word(
        &self,
        alloc: Global,
        scope: Option<u32>,
        mention: &NameMention,
    ) -> Result<NameMention, OutOfMemory> {
        if self.could_mean(scope, mention) {
            return self.mention(alloc);
        }
        copy_word(alloc, mention)
    }

    fn changed_local(
        &self,
        alloc: Global,
        sheet: &SheetMention,
        mention: &NameMention,
    ) -> Result<(SheetMention, NameMention), OutOfMemory> {
        if self.could_mean_local(sheet, mention) {
            let word = self.mention(alloc)?;
            return Ok((copy_sheet(alloc, sheet)?, word));
        }
        copy_local(alloc, sheet, mention)
    }
}

/// The definition with this key and this name, as it was given, goes: words that mean it become this mention, and words with
/// their sheets that mean it dangle by the name.
#[derive(Drop)]
pub struct DefinitionGone<'n> {
    pub key: &'n NameKey,
    pub name: &'n str,
    pub becomes: &'n NameMention,
}

impl<'n> BookChange for DefinitionGone<'n> {
    ghost use Rattle.std.specs.Prelude.{chars};
    ghost use Rattle.ic_laws.specs.Changes.{OfWords, is_of_name};

    ghost change = { λ gone. OfWords (λ scope mention. is_of_name gone.key.now mention) gone.becomes.now
        (λ sheet mention. is_of_name gone.key.now mention) (names.Dangling (chars gone.name.now)) };

    fn topic(&self) -> u64 {
        folded_topic(self.key.name.as_str())
    }

    fn changes_sheet(&self, _mention: &SheetMention) -> bool {
        false
    }

    fn changes_word(&self, _scope: Option<u32>, mention: &NameMention) -> bool {
        is_of_name(self.key, mention)
    }

    fn changes_local(&self, _sheet: &SheetMention, mention: &NameMention) -> bool {
        is_of_name(self.key, mention)
    }

    fn changed_sheet(
        &self,
        alloc: Global,
        mention: &SheetMention,
    ) -> Result<SheetMention, OutOfMemory> {
        copy_sheet(alloc, mention)
    }

    fn changed_word(
        &self,
        alloc: Global,
        _scope: Option<u32>,
        mention: &NameMention,
    ) -> Result<NameMention, OutOfMemory> {
        if is_of_name(self.key, mention) {
            return copy_word(alloc, self.becomes);
        }
        copy_word(alloc, mention)
    }

    fn changed_local(
        &self,
        alloc: Global,
        sheet: &SheetMention,
        mention: &NameMention,
    ) -> Result<(SheetMention, NameMention), OutOfMemory> {
        if is_of_name(self.key, mention) {
            let word = NameMention::Dangling(Boxed::from_str(alloc, self.name)?);
            return Ok((copy_sheet(alloc, sheet)?, word));
        }
        copy_local(alloc, sheet, mention)
    }
}

/// Whether a word means the definition with this key.
pub(crate) fn is_of_name(key: &NameKey, mention: &NameMention) -> bool
    ensures { result ≡ is_of_name key.now mention.now }
{
    match mention {
        NameMention::Name(found) => same_key(found.as_ref(), key),
        _ => false,
    }
}

/// Whether two keys of definitions are equal.
pub fn same_key(a: &NameKey, b: &NameKey) -> bool
    ensures { result ≡ same_key a.now b.now }
{
    a.name == b.name && same_scope(a.scope, b.scope)
}

/// Whether both are local to one sheet, or to none.
pub fn same_scope(a: Option<u32>, b: Option<u32>) -> bool
    ensures { result ≡ same_scope a b }
{
    match (a, b) {
        (None, None) => true,
        (Some(a), Some(b)) => a == b,
        _ => false,
    }
}
