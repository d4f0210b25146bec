ghost use Rattle.std.specs.Prelude.{◌≡◌, [], chars, length, take, IfOk, OnErr, OnOk};
ghost use Rattle.ic_cells.specs.Listed.{IsPlaced};
ghost use Rattle.ic_cells.specs.Strings.{AreStrings, string_index, string_place, with_string};

use crate::text_places::TextPlaces;
use ic_laws::{Items, OutOfMemory, Text};
use std::alloc::Global;
use std::marker::Model;

/// The texts that the cells of a workbook share, by index from 0. No text stands twice. Callers see the list; beside it
/// stands where each is found, so that one of many texts is found at once.
pub struct SharedStrings {
    alloc: Global,
    list: Items<Text>,
    places: TextPlaces,
}

impl Drop for SharedStrings {
    fn drop(self) {
        let Self {
            alloc,
            list,
            places,
        } = self;
        drop(alloc);
        drop(list);
        drop(places);
    }
}

impl Model for SharedStrings {
    ghost use Rattle.std.specs.Prelude.{List, ℕ};
    ghost use Rattle.ic_cells.specs.Strings.{IsKnown};

    ghost Value = { List (List ℕ) };

    ghost view = { λ s. s.list };

    ghost invariant = { λ s. IsKnown s.places s.list };
}

impl SharedStrings {
    /// No texts.
    pub fn new(alloc: Global) -> SharedStrings
        ensures { result ≡ [] }
    {
        SharedStrings {
            alloc,
            list: Items::from(Vec::new(alloc)),
            places: TextPlaces::new(alloc),
        }
    }

    /// The texts in their order.
    pub fn as_items(&self) -> &Items<Text>
        ensures { result.now ≡ self.now }
    {
        &self.list
    }

    /// How many texts there are.
    pub fn len(&self) -> usize
        ensures exact { result ≡ length self.now }

        // No text stands twice.
        ensures strings { AreStrings self.now }
    {
        self.list.len()
    }

    /// The index of a text; where it isn't there it is put at the end. Only memory can be missing, and then nothing has
    /// changed.
    pub fn index_of_or_create(&mut self, text: &str) -> Result<usize, OutOfMemory>
        ensures index { IfOk result (λ n. n ≡ string_index (chars text.now) self.old) }
        ensures strings { OnOk result (self.new ≡ with_string (chars text.now) self.old) }
        ensures placed { IfOk result (λ n. IsPlaced (chars text.now) n self.old self.new) }
        ensures err { OnErr result (self.new ≡ self.old) }
    {
        if let Some(at) = self.find(text) {
            return Ok(at);
        }
        let copy = Text::from_str(self.alloc, text)?;
        let at = self.list.len();
        self.list.push(copy)?;
        match self.places.put(self.alloc, text, at) {
            Ok(()) => Ok(at),
            Err(error) => {
                self.list.truncate(at);
                Err(error)
            }
        }
    }

    /// The index of a text.
    fn find(&self, text: &str) -> Option<usize>
        ensures { result ≡ string_place (chars text.now) self.now }
    {
        self.places.find(self.list.as_slice(), text)
    }

    /// Keeps the first `len` texts. Where there are no more, all stay.
    pub fn truncate(&mut self, len: usize)
        ensures { self.new ≡ take len self.old }
    {
        self.places.truncate(len);
        self.list.truncate(len);
    }
}
