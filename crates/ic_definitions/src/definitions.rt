ghost use Rattle.std.specs.Prelude.{◌≡◌, [], map};
ghost use Rattle.std.specs.List.{IsDistinct};
ghost use Rattle.ic_laws.specs.Greatest.{greatest};
ghost use Rattle.ic_laws.specs.Scene.{same_key};
ghost use Rattle.ic_definitions.specs.Named.{key_in, scopes_of};

mod changes;
mod named;
mod preparing;
mod testing;

use crate::Definition;
use crate::mentioned::Mentioned;
pub use named::NamedDefinitions;
use std::alloc::Global;
use std::marker::Model;

/// The definitions of a book in their order. No two have one key. What finds them by their keys is the caller's: a call that
/// asks for a name is lent it, and one that changes names changes it, too.
pub struct Definitions {
    alloc: Global,
    list: Vec<Definition>,
    /// The greatest id that one is local to, 0 where none is.
    greatest: u32,
    /// Where it is false, all that the bodies mention was found.
    may_dangle: bool,
    /// What the bodies mention.
    mentioned: Mentioned,
}

impl Drop for Definitions {
    fn drop(self) {
        let Self {
            alloc,
            list,
            greatest: _,
            may_dangle: _,
            mentioned,
        } = self;
        drop(alloc);
        drop(list);
        drop(mentioned);
    }
}

impl Model for Definitions {
    ghost use Rattle.std.specs.Prelude.{List};
    ghost use Rattle.std.specs.Coded.{codes};
    ghost use Rattle.ic_laws.specs.CoreBook as core;
    ghost use Rattle.ic_definitions.specs.Mentioned.{KnowsBodies};
    ghost use Rattle.ic_definitions.specs.Named.{AreNamed};
    ghost use Rattle.ic_definitions.specs.contracts.definition.Definition as definition;

    ghost Value = { List core.Definition };

    ghost coded = { Prim.hlevel (codes, definition.the_row.coded) };

    ghost view = { λ d. d.list.items };

    ghost invariant = { λ d. AreNamed d.greatest d.may_dangle d.list.items × KnowsBodies d.mentioned d.list.items };
}

impl Definitions {
    /// No definitions.
    pub fn new(alloc: Global) -> Definitions
        ensures { result ≡ [] }
    {
        Definitions {
            alloc,
            list: Vec::new(alloc),
            greatest: 0,
            may_dangle: false,
            mentioned: Mentioned::new(alloc),
        }
    }

    /// The definitions in their order.
    pub fn as_slice(&self) -> &[Definition]
        ensures { result.now ≡ self.now }
    {
        self.list.as_slice()
    }

    /// The same, with what always holds of them.
    fn in_order(&self) -> &[Definition]
        ensures list { result.now ≡ self.now }
        ensures differ { IsDistinct same_key (map key_in self.now) }
    {
        self.list.as_slice()
    }

    /// Where their memory comes from.
    fn alloc(&self) -> Global {
        self.alloc
    }

    /// The greatest id of a sheet that one is local to, 0 where none is.
    pub fn greatest_scope(&self) -> u32
        ensures { result ≡ greatest (scopes_of self.now) }
    {
        self.greatest
    }
}
