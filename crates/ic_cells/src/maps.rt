//! Ordered maps that contracts see as finite maps, so that a record which holds one is plain data.
ghost use Rattle.std.specs.Prelude.{◌≡◌, None, false, option_copied, IfOk, OnErr, OnOk};
ghost use Rattle.std.specs.Borrow.{LendsIf, sem};
ghost use Rattle.std.specs.Option.{option_copied_mut};
ghost use Rattle.std.specs.FinMap as map;
ghost use Rattle.ic_cells.specs.Made.{PutsMade};
ghost use Rattle.ic_cells.specs.Maps.{HasNoneBetween, column_mark};
ghost use Rattle.ic_cells.specs.contracts.maps.PlaceMap.{the_row};

use ic_laws::OutOfMemory;
use std::alloc::Global;
use std::collections::BTreeMap;
use std::collections::btree_map::Entry;
use std::marker::Model;

/// What makes items, each of something that it is given.
pub trait Maker<X, T> {
    /// Whether it can make one now.
    ghost ready: { Self → Type 0 };

    /// What it was, what it was given, the item, and what it is then.
    ghost makes: { Self → X → T → Self → Type 0 };

    /// The item. `OutOfMemory` changes nothing.
    fn make(&mut self, given: X) -> Result<T, OutOfMemory>
        requires { ready self.old }
        ensures ok { IfOk result (λ item. makes self.old given item self.new) }
        ensures err { OnErr result (self.new ≡ self.old) };
}

/// The bit that marks a column, by its number modulo 64.
fn mark_of(column: i32) -> u64
    ensures { result ≡ column_mark column }
{
    1 << column.rem_euclid(64)
}

/// A map from places, each a row and a column from 1, by row and then by column. Contracts see the finite map. Beside it
/// are marks of the columns in which something was ever put, so that it is told at once that nothing stands in a column.
#[derive(Drop)]
pub struct PlaceMap<T> {
    alloc: Global,
    inner: BTreeMap<(i32, i32), T>,
    marks: u64,
}

impl<T> Model for PlaceMap<T> {
    ghost use Rattle.std.specs.Coded.{coded×, coded_ℤ};
    ghost use Rattle.std.specs.FinMap as map;
    ghost use Rattle.ic_cells.specs.Maps.{AreMarked, place_cmp};

    ghost Value = { map.FinMap place_cmp T };

    ghost coded = { map.code (coded× coded_ℤ coded_ℤ) T.code };

    ghost view = { λ m. map.from_entries m.inner.entries };

    ghost invariant = { λ m. AreMarked m.marks (map.from_entries m.inner.entries) };
}

impl<T: Drop> PlaceMap<T> {
    /// No places.
    pub fn new(alloc: Global) -> PlaceMap<T>
        ensures { result ≡ map.empty }
    {
        PlaceMap {
            alloc,
            inner: BTreeMap::new(alloc),
            marks: 0,
        }
    }

    /// What a map is that was made by hand. The memory is the one that it was made with.
    pub fn of_map(alloc: Global, inner: BTreeMap<(i32, i32), T>) -> PlaceMap<T>
        ensures { result ≡ map.from_entries inner.entries }
    {
        PlaceMap {
            alloc,
            inner,
            marks: u64::MAX,
        }
    }

    /// Where its memory comes from.
    pub fn alloc(&self) -> Global {
        self.alloc
    }

    /// What stands at a place. None exactly where nothing does.
    pub fn get(&self, row: i32, column: i32) -> Option<&T>
        ensures { option_copied result ≡ map.get self.now (row, column) }
    {
        self.inner.get(&(row, column))
    }

    /// What stands at a place, which may be changed there; the place is searched once. None exactly where nothing does.
    pub fn get_mut(&mut self, row: i32, column: i32) -> Option<&mut T>
        ensures* writes_back { sem 𝓛 (LendsIf (the_row T.row) T.row self.entry result
            (map.insert self.old (row, column)) self.old) }
        ensures value { option_copied_mut result ≡ map.get self.old (row, column) }
    {
        match self.inner.get_mut(&(row, column)) {
            Some(item) => Some(item),
            None => None,
        }
    }

    /// What `get` answers. The last place is asked first, behind which nothing stands: so it takes no search where places come in their
    /// order.
    pub fn get_from_last(&self, row: i32, column: i32) -> Option<&T>
        ensures { option_copied result ≡ map.get self.now (row, column) }
    {
        if let Some((last, _)) = self.inner.last_key_value() {
            if *last < (row, column) {
                return None;
            }
        }
        self.get(row, column)
    }

    /// Puts an item at a place, and answers what stood there. Memory can only be missing where nothing stands there, and
    /// then nothing has changed.
    pub fn insert(&mut self, row: i32, column: i32, item: T) -> Result<Option<T>, OutOfMemory>
        ensures before { IfOk result (λ before. before ≡ map.get self.old (row, column)) }
        ensures ok { OnOk result (self.new ≡ map.insert self.old (row, column) item) }
        ensures err { OnErr result (self.new ≡ self.old) }
        ensures absent { OnErr result (map.get self.old (row, column) ≡ None) }
    {
        self.marks |= mark_of(column);
        Ok(self.inner.insert((row, column), item)?)
    }

    /// Puts an item that is made of what is given at a place where nothing stands, and answers None; the place is searched
    /// once. Where something stands there, it answers what it was given, and nothing has changed. Nor has it where memory is
    /// missing.
    pub fn put_made<X: Drop, M: Maker<X, T>>(
        &mut self,
        row: i32,
        column: i32,
        maker: &mut M,
        given: X,
    ) -> Result<Option<X>, OutOfMemory>
        requires { M.ready maker.old }
        ensures made { IfOk result
            (PutsMade M.makes (row, column) given maker.old maker.new self.old self.new) }
        ensures err { OnErr result (self.new ≡ self.old) }
        ensures kept { OnErr result (maker.new ≡ maker.old) }
    {
        self.marks |= mark_of(column);
        let Entry::Vacant(free) = self.inner.entry((row, column))? else {
            return Ok(Some(given));
        };
        let item = maker.make(given)?;
        free.insert(item);
        Ok(None)
    }

    /// Takes away what stands at a place, and answers it. None exactly where nothing did.
    pub fn remove(&mut self, row: i32, column: i32) -> Option<T>
        ensures before { result ≡ map.get self.old (row, column) }
        ensures removed { self.new ≡ map.remove self.old (row, column) }
    {
        self.inner.remove(&(row, column))
    }

    /// Whether something may stand in the columns from `from` up to before `to`. It is false only where nothing does; columns
    /// are told apart by their numbers modulo 64 alone.
    pub fn may_stand_in(&self, from: i32, to: i32) -> bool
        ensures { result ≡ false → HasNoneBetween self.now from to }
    {
        if to.saturating_sub(from) >= 64 {
            return true;
        }
        for column in from..to {
            if self.marks & mark_of(column) != 0 {
                return true;
            }
        }
        false
    }

    /// All of it, in its order.
    pub fn as_map(&self) -> &BTreeMap<(i32, i32), T>
        ensures { map.from_entries result.now.entries ≡ self.now }
    {
        &self.inner
    }
}

/// A map from the numbers of rows or of columns, from 1, in their order. Contracts see the finite map.
#[derive(Drop)]
pub struct LineMap<T> {
    inner: BTreeMap<i32, T>,
}

impl<T> Model for LineMap<T> {
    ghost use Rattle.std.specs.Coded.{coded_ℤ};
    ghost use Rattle.std.specs.FinMap as map;
    ghost use Rattle.std.specs.Ordering.{int_cmp};

    ghost Value = { map.FinMap int_cmp T };

    ghost coded = { map.code coded_ℤ T.code };

    ghost view = { λ m. map.from_entries m.inner.entries };
}

impl<T: Drop> LineMap<T> {
    /// No numbers.
    pub fn new(alloc: Global) -> LineMap<T>
        ensures { result ≡ map.empty }
    {
        LineMap {
            inner: BTreeMap::new(alloc),
        }
    }

    /// What stands at a number. None exactly where nothing does.
    pub fn get(&self, number: i32) -> Option<&T>
        ensures { option_copied result ≡ map.get self.now number }
    {
        self.inner.get(&number)
    }

    /// Puts an item at a number, and answers what stood there. Memory can only be missing where nothing stands there, and
    /// then nothing has changed.
    pub fn insert(&mut self, number: i32, item: T) -> Result<Option<T>, OutOfMemory>
        ensures before { IfOk result (λ before. before ≡ map.get self.old number) }
        ensures ok { OnOk result (self.new ≡ map.insert self.old number item) }
        ensures err { OnErr result (self.new ≡ self.old) }
        ensures absent { OnErr result (map.get self.old number ≡ None) }
    {
        Ok(self.inner.insert(number, item)?)
    }

    /// Takes away what stands at a number, and answers it. None exactly where nothing did.
    pub fn remove(&mut self, number: i32) -> Option<T>
        ensures before { result ≡ map.get self.old number }
        ensures removed { self.new ≡ map.remove self.old number }
    {
        self.inner.remove(&number)
    }

    /// All of it, in its order.
    pub fn as_map(&self) -> &BTreeMap<i32, T>
        ensures { map.from_entries result.now.entries ≡ self.now }
    {
        &self.inner
    }
}

impl<T> From<BTreeMap<i32, T>> for LineMap<T> {
    ghost use Rattle.std.specs.Prelude.{◌≡◌};
    ghost use Rattle.std.specs.FinMap as map;

    ghost from_gives = { λ m p. p ≡ map.from_entries m.entries };

    fn from(inner: BTreeMap<i32, T>) -> LineMap<T> {
        LineMap { inner }
    }
}
