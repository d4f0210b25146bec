ghost use Rattle.std.specs.Prelude.{◌≡◌, ◌&&◌, IfOk, bytes_eq, chars, find, nat_eq, option_map};
ghost use Rattle.ic_laws.specs.Name.{agrees, fold};
ghost use Rattle.ic_laws.specs.Scene.{found_local, found_name, found_sheet, key_of, name_of_key, name_of_sheet, past_front, same_scope};
ghost use Rattle.ic_laws.specs.declared.scene.Scene.{Scene};
ghost use Rattle.ucd_case.specs.CaseFolding.{full_fold};

use crate::scan::first_char;
use crate::{Items, NameKey, OutOfMemory, Text, agree};
use caseless::default_case_fold_str;
use std::alloc::Global;
use ucd_case::full_folding;

/// A sheet as formulas see it: its id and its name.
#[derive(Drop)]
pub struct SheetName {
    pub id: u32,
    pub name: Text,
}

/// A definition as formulas see it: its name, and the id of the sheet that it is local to, if there is one.
#[derive(Drop)]
pub struct NameSpelling {
    pub name: Text,
    pub scope: Option<u32>,
}

/// What formulas can mention: sheets and definitions, each in its order. Of two with one name the first is found.
#[derive(Drop)]
pub struct Scene {
    pub sheets: Items<SheetName>,
    pub names: Items<NameSpelling>,
}

/// What finds the sheets and definitions that formulas mention. It stands for a scene, and each call answers what that
/// scene says.
pub trait Finder {
    ghost scene: { Self → Scene };

    /// The id of the first sheet whose name agrees.
    fn find_sheet(&self, alloc: Global, name: &str) -> Result<Option<u32>, OutOfMemory>
        ensures { IfOk result (λ id. id ≡ found_sheet (scene self.now) (chars name.now)) };

    /// The key of the definition that a word means where it is no variable: of the first that is local to the sheet with
    /// the id `scope`, else of the first that is local to none.
    fn find_name(
        &self,
        alloc: Global,
        scope: Option<u32>,
        word: &str,
    ) -> Result<Option<NameKey>, OutOfMemory>
        ensures { IfOk result (λ key. key ≡ found_name (scene self.now) scope (chars word.now)) };

    /// The name of the sheet with this id, None where no sheet has it.
    fn sheet_spelling(&self, id: u32) -> Option<&str>
        ensures { option_map (λ name. chars name.now) result ≡ name_of_sheet (scene self.now) id };

    /// The name of the definition with this key as it was given, None where no definition has it.
    fn name_spelling(&self, key: &NameKey) -> Option<&str>
        ensures { option_map (λ name. chars name.now) result
            ≡ name_of_key (scene self.now) key.now };
}

/// The key of the definition that a word with its sheet means: of one that is local to the sheet with this id, and of no
/// other.
#[tactic(auto, using(crate::proofs::binding::LocalWords::local_where_scoped, crate::proofs::binding::LocalWords::none_where_other, crate::proofs::binding::LocalWords::none_where_none))]
pub fn find_local<N: Finder>(
    alloc: Global,
    names: &N,
    id: u32,
    word: &str,
) -> Result<Option<NameKey>, OutOfMemory>
    ensures { IfOk result (λ key. key ≡ found_local (N.scene names.now) id (chars word.now)) }
{
    let Some(key) = names.find_name(alloc, Some(id), word)? else {
        return Ok(None);
    };
    if same_scope(key.scope, Some(id)) {
        Ok(Some(key))
    } else {
        Ok(None)
    }
}

/// A scene finds by plain search.
impl Finder for Scene {
    ghost scene = { λ s. s };

    fn find_sheet(&self, _alloc: Global, name: &str) -> Result<Option<u32>, OutOfMemory> {
        Ok(first_named(self.sheets.as_slice(), name).map(|sheet| sheet.id))
    }

    fn find_name(
        &self,
        alloc: Global,
        scope: Option<u32>,
        word: &str,
    ) -> Result<Option<NameKey>, OutOfMemory> {
        let names = self.names.as_slice();
        match first_local(names, scope, word) {
            Some(definition) => Ok(Some(key_of(alloc, definition)?)),
            None => match first_local(names, None, word) {
                Some(definition) => Ok(Some(key_of(alloc, definition)?)),
                None => Ok(None),
            },
        }
    }

    fn sheet_spelling(&self, id: u32) -> Option<&str> {
        let sheet = first_with_id(self.sheets.as_slice(), id)?;
        Some(sheet.name.as_str())
    }

    fn name_spelling(&self, key: &NameKey) -> Option<&str> {
        let definition = first_with_key(self.names.as_slice(), key)?;
        Some(definition.name.as_str())
    }
}

/// The first sheet whose name agrees.
fn first_named<'a>(sheets: &'a [SheetName], name: &str) -> Option<&'a SheetName>
    ensures { option_map (λ found. found.now) result
        ≡ find (λ sheet. agrees sheet.name (chars name.now)) sheets.now }
{
    sheets.iter().find(|sheet| agree(sheet.name.as_str(), name))
}

/// The sheet with this id.
fn first_with_id(sheets: &[SheetName], id: u32) -> Option<&SheetName>
    ensures { option_map (λ found. found.now) result
        ≡ find (λ sheet. nat_eq sheet.id id) sheets.now }
{
    sheets.iter().find(|sheet| sheet.id == id)
}

/// The first definition of an agreeing name that is local to this sheet, or to none.
fn first_local<'a>(
    names: &'a [NameSpelling],
    scope: Option<u32>,
    word: &str,
) -> Option<&'a NameSpelling>
    ensures { option_map (λ found. found.now) result
        ≡ find (λ definition. bytes_eq (fold definition.name) (fold (chars word.now))
        && same_scope definition.scope scope) names.now }
{
    names.iter().find(|definition| agree(definition.name.as_str(), word)
        && same_scope(definition.scope, scope))
}

/// The definition with this key.
fn first_with_key<'a>(names: &'a [NameSpelling], key: &NameKey) -> Option<&'a NameSpelling>
    ensures { option_map (λ found. found.now) result
        ≡ find (λ definition. bytes_eq (fold definition.name) key.now.name
        && same_scope definition.scope key.now.scope) names.now }
{
    names.iter().find(|definition| folds_to(definition.name.as_str(), key.name.as_str())
        && same_scope(definition.scope, key.scope))
}

/// The key of a definition.
fn key_of(alloc: Global, definition: &NameSpelling) -> Result<NameKey, OutOfMemory>
    ensures { IfOk result (λ key. key ≡ key_of definition.now) }
{
    let name = fold_text(alloc, definition.name.as_str())?;
    Ok(NameKey {
        name,
        scope: definition.scope,
    })
}

/// The Unicode default case folding of a text.
fn fold_text(alloc: Global, text: &str) -> Result<Text, OutOfMemory>
    ensures { IfOk result (λ t. t ≡ fold (chars text.now)) }
{
    Ok(Text::from(default_case_fold_str(alloc, text)?))
}

/// Whether both are local to one sheet, or to none.
fn same_scope(a: Option<u32>, b: Option<u32>) -> bool
    ensures { result ≡ same_scope a b }
{
    match (a, b) {
        (None, None) => true,
        (Some(a), Some(b)) => a == b,
        _ => false,
    }
}

/// Whether `folded` is the folding of `name`.
fn folds_to(name: &str, folded: &str) -> bool
    ensures { result ≡ bytes_eq (fold (chars name.now)) (chars folded.now) }
{
    let mut left = name;
    let mut rest = folded;
    while let Some((c, after)) = first_char(left) {
        let Some(unread) = past_folding(c, rest) else {
            return false;
        };
        left = after;
        rest = unread;
    }
    match first_char(rest) {
        None => true,
        Some(_) => false,
    }
}

/// What is left of a text after the folding of `c`, None where it doesn't begin with that.
fn past_folding(c: char, text: &str) -> Option<&str>
    ensures { option_map (λ rest. chars rest.now) result
        ≡ past_front (full_fold c) (chars text.now) }
{
    match full_folding(c) {
        [] => past_front(&[c], text),
        folding => past_front(folding, text),
    }
}

/// What is left of a text after these characters, None where it doesn't begin with them.
fn past_front<'a>(front: &[char], text: &'a str) -> Option<&'a str>
    ensures { option_map (λ rest. chars rest.now) result ≡ past_front front.now (chars text.now) }
{
    let mut left = front;
    let mut rest = text;
    while let Some((c, others)) = left.split_first() {
        match first_char(rest) {
            Some((d, after)) if *c == d => {
                left = others;
                rest = after;
            }
            _ => return None,
        }
    }
    Some(rest)
}
