ghost use Rattle.std.specs.Prelude.{◌≡◌, ◌<◌, [], ◌∷◌, ◌++◌, OnErr, OnOk, Some, length, slice_set, take};
ghost use Rattle.std.specs.List.{slice_get};
ghost use Rattle.std.specs.Borrow.{Lends, sem};
ghost use Rattle.ic_laws.specs.contracts.items.Items.{the_row};

use crate::OutOfMemory;
use std::marker::Model;

/// A `Vec` that contracts see as the list of its items, so that a value which holds one is plain data.
#[derive(Debug, Drop)]
pub struct Items<T> {
    inner: Vec<T>,
}

impl<T> Model for Items<T> {
    ghost use Rattle.std.specs.Prelude.{List};
    ghost use Rattle.std.specs.Coded.{coded_list};

    ghost Value = { List T };

    ghost coded = { coded_list T.code };

    ghost view = { λ i. i.inner.items };
}

impl<T> Items<T> {
    /// The items in their order.
    pub fn as_slice(&self) -> &[T]
        ensures { result.now ≡ self.now }
    {
        self.inner.as_slice()
    }

    /// The item at a place, from 0, which may be changed there.
    pub fn at_mut(&mut self, place: usize) -> &mut T
        requires { place < length self.old }
        ensures* writes_back { sem 𝓛 (Lends (the_row T.row) T.row self.entry result
            (slice_set self.old place)) }
        ensures value { slice_get self.old place ≡ Some result.now }
    {
        &mut self.inner[place]
    }

    /// How many items there are.
    pub fn len(&self) -> usize
        ensures { result ≡ length self.now }
    {
        self.inner.len()
    }
}

impl<T: Drop> Items<T> {
    /// Puts an item at the end. Only memory can be missing, and then nothing has changed.
    pub fn push(&mut self, item: T) -> Result<(), OutOfMemory>
        ensures ok { OnOk result (self.new ≡ self.old ++ item ∷ []) }
        ensures err { OnErr result (self.new ≡ self.old) }
    {
        self.inner.push(item)?;
        Ok(())
    }

    /// Keeps the first `len` items. Where there are no more, all stay.
    pub fn truncate(&mut self, len: usize)
        ensures { self.new ≡ take len self.old }
    {
        self.inner.truncate(len);
    }
}

impl<T> From<Vec<T>> for Items<T> {
    ghost from_gives = { λ v i. i ≡ v.items };

    fn from(inner: Vec<T>) -> Items<T> {
        Items { inner }
    }
}
