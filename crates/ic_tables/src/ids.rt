ghost use Rattle.std.specs.Prelude.{◌≡◌, ◌&&◌, List, [], ℕ, bytes_eq, chars, find, codes, map, not, option_map, string_bytes, IfOk};
ghost use Rattle.ic_tables.specs.Tables.{are_different, has_text};

use crate::{Language, NamedLocale};
use ic_laws::{OutOfMemory, Text};
use std::alloc::Global;

/// What is listed under a text.
pub trait HasId {
    ghost id_of: { Self → List ℕ };

    /// The text.
    fn id(&self) -> &Text
        ensures { result.now ≡ id_of self.now };
}

impl HasId for Language {
    ghost id_of = { λ l. l.code };

    fn id(&self) -> &Text {
        &self.code
    }
}

impl HasId for NamedLocale {
    ghost id_of = { λ l. l.id };

    fn id(&self) -> &Text {
        &self.id
    }
}

impl HasId for Text {
    ghost id_of = { λ t. t };

    fn id(&self) -> &Text {
        self
    }
}

impl HasId for &Text {
    ghost id_of = { λ t. t.now };

    fn id(&self) -> &Text {
        self
    }
}

/// Whether one is listed under `id`.
pub fn has_id<T: HasId>(items: &[T], id: &str) -> bool
    ensures { result ≡ has_text (map T.id_of items.now) (chars id.now) }
{
    find_id(items, id).is_some()
}

/// The first that is listed under `id`.
pub fn find_id<'a, T: HasId>(items: &'a [T], id: &str) -> Option<&'a T>
    ensures { option_map (λ found. found.now) result
        ≡ find (λ item. bytes_eq (T.id_of item) (chars id.now)) items.now }
{
    let mut rest = items;
    while let Some((first, others)) = rest.split_first() {
        if first.id().is(id) {
            return Some(first);
        }
        rest = others;
    }
    None
}

/// Whether no two are listed under one text.
pub fn have_different_ids<T: HasId>(items: &[T]) -> bool
    ensures { result ≡ are_different (map T.id_of items.now) }
{
    let mut rest = items;
    while let Some((first, others)) = rest.split_first() {
        if has_id(others, first.id().as_str()) {
            return false;
        }
        rest = others;
    }
    true
}

/// Whether the list has `en`, and lists each item under a text of its own that isn't empty.
pub fn has_good_ids<T: HasId>(items: &[T]) -> bool
    ensures { let ids = map T.id_of items.now in
        result ≡ has_text ids (codes "en") && are_different ids && not (has_text ids []) }
{
    has_id(items, "en") && have_different_ids(items) && !has_id(items, "")
}

/// The texts that they are listed under, in their order.
pub fn copy_ids<T: HasId>(alloc: Global, items: &[T]) -> Result<Vec<String>, OutOfMemory>
    ensures { IfOk result (λ ids. map (λ s. chars (string_bytes s)) ids.items
        ≡ map T.id_of items.now) }
{
    let mut ids = Vec::new(alloc);
    for item in items {
        ids.push(String::from_str(alloc, item.id().as_str())?)?;
    }
    Ok(ids)
}
