//! A sheet gets a name, and a sheet goes.
ghost use Rattle.std.specs.Prelude.{◌≡◌, IfOk, chars};
ghost use Rattle.ic_laws.specs.Binding.{spelled_word};
ghost use Rattle.ic_laws.specs.Changes.{dangles_by, found_with_sheet, is_of_sheet};
ghost use Rattle.ic_laws.specs.Scene.{definition_spelling};
ghost use Rattle.ic_laws.specs.declared.tree.SheetMention.TheVariants as sheets;

use crate::changes::BookChange;
use crate::copies::{copy_local, copy_sheet, copy_word};
use crate::topics::{name_topic, sheet_topic};
use ic_laws::{Boxed, Finder, NameKey, NameMention, OutOfMemory, SheetMention, agree, find_local};
use std::alloc::Global;

/// The sheet with this id, a new one or one that was there, gets a name: references that dangle by an agreeing one become
/// references to it, and so do the sheets of words with their sheets. Such a word means the definition that is local to the
/// sheet then, where there is one of an agreeing name.
#[derive(Drop)]
pub struct SheetNamed<'n, F: Finder> {
    pub id: u32,
    pub name: &'n str,
    /// What finds the definitions of the book.
    pub definitions: &'n F,
}

impl<'n, F: Finder> BookChange for SheetNamed<'n, F> {
    ghost use Rattle.std.specs.Prelude.{chars};
    ghost use Rattle.ic_laws.specs.Changes.{sheet_named};

    ghost change = { λ named. sheet_named (F.scene named.definitions.now) named.id (chars named.name.now) };

    fn topic(&self) -> u64 {
        name_topic(self.name)
    }

    fn changes_sheet(&self, mention: &SheetMention) -> bool {
        is_dangling_by(mention, self.name)
    }

    fn changes_word(&self, _scope: Option<u32>, _mention: &NameMention) -> bool {
        false
    }

    fn changes_local(&self, _sheet: &SheetMention, _mention: &NameMention) -> bool {
        false
    }

    fn changed_sheet(
        &self,
        alloc: Global,
        mention: &SheetMention,
    ) -> Result<SheetMention, OutOfMemory> {
        if is_dangling_by(mention, self.name) {
            return Ok(SheetMention::Sheet(self.id));
        }
        copy_sheet(alloc, mention)
    }

    fn changed_word(
        &self,
        alloc: Global,
        _scope: Option<u32>,
        mention: &NameMention,
    ) -> Result<NameMention, OutOfMemory> {
        copy_word(alloc, mention)
    }

    fn changed_local(
        &self,
        alloc: Global,
        sheet: &SheetMention,
        mention: &NameMention,
    ) -> Result<(SheetMention, NameMention), OutOfMemory> {
        if is_dangling_by(sheet, self.name) {
            let word = found_with_sheet(alloc, self.definitions, self.id, mention)?;
            return Ok((SheetMention::Sheet(self.id), word));
        }
        copy_local(alloc, sheet, mention)
    }
}

/// What a word that dangled with its sheet means where that is the sheet with this id; any other stays.
fn found_with_sheet<F: Finder>(
    alloc: Global,
    definitions: &F,
    id: u32,
    mention: &NameMention,
) -> Result<NameMention, OutOfMemory>
    ensures { IfOk result (λ m. m
        ≡ found_with_sheet (F.scene definitions.now) id mention.now) }
{
    match mention {
        NameMention::Dangling(word) => {
            match find_local(alloc, definitions, id, word.as_ref().as_str())? {
                Some(key) => Ok(NameMention::Name(Boxed::new(alloc, key)?)),
                None => copy_word(alloc, mention),
            }
        }
        _ => copy_word(alloc, mention),
    }
}

/// The sheet with this id and this name goes: references to it dangle by its name, and a word with this sheet dangles with
/// it, by the name of the definition that it meant.
#[derive(Drop)]
pub struct SheetGone<'n, F: Finder> {
    pub id: u32,
    pub name: &'n str,
    /// What finds the definitions of the book, those that are local to the sheet among them.
    pub definitions: &'n F,
}

impl<'n, F: Finder> SheetGone<'n, F> {
    /// What a reference to it becomes.
    fn dangling(&self, alloc: Global) -> Result<SheetMention, OutOfMemory>
        ensures { IfOk result (λ m. m ≡ sheets.Dangling (chars self.now.name.now)) }
    {
        Ok(SheetMention::Dangling(Boxed::from_str(alloc, self.name)?))
    }
}

impl<'n, F: Finder> BookChange for SheetGone<'n, F> {
    ghost use Rattle.std.specs.Prelude.{chars};
    ghost use Rattle.ic_laws.specs.Changes.{sheet_gone};

    ghost change = { λ gone. sheet_gone (F.scene gone.definitions.now) gone.id (chars gone.name.now) };

    fn topic(&self) -> u64 {
        sheet_topic(self.id)
    }

    fn changes_sheet(&self, mention: &SheetMention) -> bool {
        is_to_sheet(mention, self.id)
    }

    fn changes_word(&self, _scope: Option<u32>, _mention: &NameMention) -> bool {
        false
    }

    fn changes_local(&self, _sheet: &SheetMention, _mention: &NameMention) -> bool {
        false
    }

    fn changed_sheet(
        &self,
        alloc: Global,
        mention: &SheetMention,
    ) -> Result<SheetMention, OutOfMemory> {
        if is_to_sheet(mention, self.id) {
            return self.dangling(alloc);
        }
        copy_sheet(alloc, mention)
    }

    fn changed_word(
        &self,
        alloc: Global,
        _scope: Option<u32>,
        mention: &NameMention,
    ) -> Result<NameMention, OutOfMemory> {
        copy_word(alloc, mention)
    }

    fn changed_local(
        &self,
        alloc: Global,
        sheet: &SheetMention,
        mention: &NameMention,
    ) -> Result<(SheetMention, NameMention), OutOfMemory> {
        if is_to_sheet(sheet, self.id) {
            let word = Boxed::from_str(alloc, spelling(self.definitions, mention))?;
            let sheet = self.dangling(alloc)?;
            return Ok((sheet, NameMention::Dangling(word)));
        }
        copy_local(alloc, sheet, mention)
    }
}

/// How a word is written: by the name of its definition, or as it was typed.
fn spelling<'n, F: Finder>(definitions: &'n F, mention: &'n NameMention) -> &'n str
    ensures { chars result.now ≡ spelled_word (definition_spelling (F.scene definitions.now))
        mention.now }
{
    match mention {
        NameMention::Var(word) => word.as_ref().as_str(),
        NameMention::Name(key) => definition_spelling(definitions, key.as_ref()),
        NameMention::Dangling(word) => word.as_ref().as_str(),
    }
}

/// How a definition is written: by its name as it was given, a key without a definition by its folded name.
fn definition_spelling<'n, F: Finder>(definitions: &'n F, key: &'n NameKey) -> &'n str
    ensures { chars result.now ≡ definition_spelling (F.scene definitions.now) key.now }
{
    match definitions.name_spelling(key) {
        Some(name) => name,
        None => key.name.as_str(),
    }
}

/// Whether a reference dangles by a name that agrees with this one.
fn is_dangling_by(mention: &SheetMention, name: &str) -> bool
    ensures { result ≡ dangles_by (chars name.now) mention.now }
{
    match mention {
        SheetMention::Dangling(typed) => agree(name, typed.as_ref().as_str()),
        _ => false,
    }
}

/// Whether a reference is to the sheet with this id.
pub(crate) fn is_to_sheet(mention: &SheetMention, id: u32) -> bool
    ensures { result ≡ is_of_sheet id mention.now }
{
    match mention {
        SheetMention::Sheet(found) => *found == id,
        _ => false,
    }
}
