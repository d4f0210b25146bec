ghost use Rattle.std.specs.Prelude.{◌≡◌, IfOk, chars};
ghost use Rattle.std.specs.Borrow.{Lends, sem};
ghost use Rattle.ic_laws.specs.contracts.boxed.Boxed.{the_row};

use crate::{OutOfMemory, Text};
use std::alloc::Global;
use std::marker::Model;

/// A `Box` that contracts see as the value in it, so that a tree of them is plain data.
#[derive(Drop)]
pub struct Boxed<T> {
    inner: Box<T>,
}

impl<T> Model for Boxed<T> {
    ghost use Rattle.std.specs.Prelude.{List};

    ghost Value = { T };

    ghost coded = { T.code };

    ghost view = { λ b. b.inner.value };
}

impl<T> Boxed<T> {
    /// The value in it.
    pub fn as_ref(&self) -> &T
        ensures { result.now ≡ self.now }
    {
        &self.inner
    }

    /// The value in it, which may be changed there.
    pub fn as_mut(&mut self) -> &mut T
        ensures* writes_back { sem 𝓛 (Lends (the_row T.row) T.row self.entry result (λ w. w)) }
        ensures value { result.now ≡ self.old }
    {
        &mut *self.inner
    }
}

impl<T: Drop> Boxed<T> {
    /// This value in a box.
    pub fn new(alloc: Global, value: T) -> Result<Boxed<T>, OutOfMemory>
        ensures { IfOk result (λ b. b ≡ value) }
    {
        let inner = Box::new(alloc, value)?;
        Ok(Boxed { inner })
    }
}

impl Boxed<Text> {
    /// A copy of `s` in a box.
    pub fn from_str(alloc: Global, s: &str) -> Result<Boxed<Text>, OutOfMemory>
        ensures { IfOk result (λ b. b ≡ chars s.now) }
    {
        Boxed::new(alloc, Text::from_str(alloc, s)?)
    }
}

impl<T> From<Box<T>> for Boxed<T> {
    ghost from_gives = { λ b v. v ≡ b.value };

    fn from(inner: Box<T>) -> Boxed<T> {
        Boxed { inner }
    }
}
