ghost use Rattle.std.specs.Prelude.{◌≡◌, ◌&&◌, IfOk, chars, option_map};
ghost use Rattle.ic_laws.specs.Name.{agrees, fold};
ghost use Rattle.ic_laws.specs.Scene.{definition_at, key_of, same_scope};
ghost use Rattle.ic_sheets.specs.Index.{FindsSheets};
ghost use Rattle.ic_parts.specs.Names.{IsIndexed};
ghost use Rattle.ic_parts.specs.Scene.{scene_with};

use crate::NameIndex;
use crate::contents::Contents;
use ic_definitions::NamedDefinitions;
use ic_laws::{Finder, NameKey, OutOfMemory, agree};
use ic_pool::{copy_key, same_key, same_scope};
use ic_sheets::Sheets;
use std::alloc::Global;
use std::collections::BTreeMap;

/// What the formulas of a book can mention: its sheets, which are found by their folded names in an ordered map, and its
/// definitions, which are found so by their keys.
#[derive(Clone, Copy)]
pub struct BookScene<'b> {
    sheets: &'b Sheets,
    ids: &'b BTreeMap<String, u32>,
    definitions: NamedDefinitions<'b>,
    ghost own: { FindsSheets ids.now sheets.now },
}

impl<'b> BookScene<'b> {
    /// The scene of a book with these contents, and what finds them by their names.
    pub fn new(contents: &'b Contents, names: &'b NameIndex) -> BookScene<'b>
        requires { IsIndexed names.now contents.now.sheets contents.now.definitions }
        ensures sheets { result.sheets.now ≡ contents.now.sheets }
        ensures definitions { result.definitions.definitions.now ≡ contents.now.definitions }
    {
        BookScene {
            sheets: &contents.sheets,
            ids: &names.sheets,
            definitions: NamedDefinitions {
                definitions: &contents.definitions,
                places: &names.names,
            },
        }
    }
}

impl<'b> Finder for BookScene<'b> {
    ghost use Rattle.ic_parts.specs.Scene.{scene_of_parts};

    ghost scene = { λ s. scene_of_parts s.sheets.now s.definitions.definitions.now };

    fn find_sheet(&self, _alloc: Global, name: &str) -> Result<Option<u32>, OutOfMemory> {
        Ok(self.sheets.find(self.ids, name))
    }

    fn find_name(
        &self,
        _alloc: Global,
        scope: Option<u32>,
        word: &str,
    ) -> Result<Option<NameKey>, OutOfMemory> {
        self.definitions.find(scope, word)
    }

    fn sheet_spelling(&self, id: u32) -> Option<&str> {
        self.sheets.name_of(id)
    }

    fn name_spelling(&self, key: &NameKey) -> Option<&str> {
        self.definitions.name_of(key)
    }
}

/// The same where one definition more stands at the end: the name and the key of that.
#[derive(Clone, Copy)]
pub struct SceneWithDefinition<'b> {
    book: BookScene<'b>,
    name: &'b str,
    key: &'b NameKey,
    ghost own: { key.now.name ≡ fold (chars name.now) },
}

impl<'b> SceneWithDefinition<'b> {
    /// The scene of a book with one definition more. The key must be that of the name.
    pub fn new(book: BookScene<'b>, name: &'b str, key: &'b NameKey) -> SceneWithDefinition<'b>
        requires { key.now.name ≡ fold (chars name.now) }
        ensures book { result.book ≡ book.entry }
        ensures name { result.name.now ≡ name.now }
        ensures key { result.key.now ≡ key.now }
    {
        SceneWithDefinition { book, name, key }
    }

    /// The key of the definition of an agreeing name that is local to the sheet with this id, or to none.
    fn key_at(
        &self,
        alloc: Global,
        scope: Option<u32>,
        word: &str,
    ) -> Result<Option<NameKey>, OutOfMemory>
        ensures { IfOk result (λ key. key ≡ option_map key_of (definition_at
            (scene_with self.now.book.sheets.now self.now.book.definitions.definitions.now
            (chars self.now.name.now) self.now.key.now.scope) (fold (chars word.now)) scope)) }
    {
        if let Some(key) = self.book.definitions.key_at(scope, word)? {
            return Ok(Some(key));
        }
        if self.is_named(scope, word) {
            return Ok(Some(copy_key(alloc, self.key)?));
        }
        Ok(None)
    }

    /// Whether the definition at the end has an agreeing name and is local to the sheet with this id, or to none.
    fn is_named(&self, scope: Option<u32>, word: &str) -> bool
        ensures { result ≡ (agrees (chars self.now.name.now)
            (chars word.now) && same_scope self.now.key.now.scope scope) }
    {
        agree(self.name, word) && same_scope(self.key.scope, scope)
    }
}

impl<'b> Finder for SceneWithDefinition<'b> {
    ghost use Rattle.std.specs.Prelude.{chars};
    ghost use Rattle.ic_parts.specs.Scene.{scene_with};

    ghost scene = { λ s. scene_with s.book.sheets.now s.book.definitions.definitions.now (chars s.name.now) s.key.now.scope };

    fn find_sheet(&self, alloc: Global, name: &str) -> Result<Option<u32>, OutOfMemory> {
        self.book.find_sheet(alloc, name)
    }

    fn find_name(
        &self,
        alloc: Global,
        scope: Option<u32>,
        word: &str,
    ) -> Result<Option<NameKey>, OutOfMemory> {
        match self.key_at(alloc, scope, word)? {
            Some(key) => Ok(Some(key)),
            None => self.key_at(alloc, None, word),
        }
    }

    fn sheet_spelling(&self, id: u32) -> Option<&str> {
        self.book.sheet_spelling(id)
    }

    fn name_spelling(&self, key: &NameKey) -> Option<&str> {
        if let Some(name) = self.book.name_spelling(key) {
            return Some(name);
        }
        if same_key(self.key, key) {
            return Some(self.name);
        }
        None
    }
}

/// The sheets of a book, with definitions that are found another way.
#[derive(Drop)]
pub struct SceneOver<'b, F: Finder> {
    sheets: &'b Sheets,
    ids: &'b BTreeMap<String, u32>,
    definitions: &'b F,
    ghost own: { FindsSheets ids.now sheets.now },
}

impl<'b, F: Finder> SceneOver<'b, F> {
    /// The scene of a book with these sheets, which this finds by their names, where the definitions are those that `F`
    /// finds.
    pub fn new(
        sheets: &'b Sheets,
        ids: &'b BTreeMap<String, u32>,
        definitions: &'b F,
    ) -> SceneOver<'b, F>
        requires { FindsSheets ids.now sheets.now }
        ensures sheets { result.sheets.now ≡ sheets.now }
        ensures definitions { result.definitions.now ≡ definitions.now }
    {
        SceneOver {
            sheets,
            ids,
            definitions,
        }
    }
}

impl<'b, F: Finder> Finder for SceneOver<'b, F> {
    ghost use Rattle.std.specs.Prelude.{map};
    ghost use Rattle.ic_parts.specs.Scene.{named};

    ghost scene = { λ s. record { sheets = map named s.sheets.now; names = (F.scene s.definitions.now).names } };

    fn find_sheet(&self, _alloc: Global, name: &str) -> Result<Option<u32>, OutOfMemory> {
        Ok(self.sheets.find(self.ids, name))
    }

    fn find_name(
        &self,
        alloc: Global,
        scope: Option<u32>,
        word: &str,
    ) -> Result<Option<NameKey>, OutOfMemory> {
        self.definitions.find_name(alloc, scope, word)
    }

    fn sheet_spelling(&self, id: u32) -> Option<&str> {
        self.sheets.name_of(id)
    }

    fn name_spelling(&self, key: &NameKey) -> Option<&str> {
        self.definitions.name_spelling(key)
    }
}
