ghost use Rattle.std.specs.Prelude.{◌≡◌, IfOk, chars, string_bytes};
ghost use Rattle.ic_laws.specs.CoreBook.{spelling_of};
ghost use Rattle.ic_laws.specs.Name.{fold};
ghost use Rattle.ic_laws.specs.Scene.{key_of};

use caseless::default_case_fold_str;
use ic_laws::{Formula, NameKey, OutOfMemory, Text};
use std::alloc::Global;
use std::marker::Model;

/// A definition: its name as it was given, the id of the sheet that it is local to, if there is one, whether its body was
/// typed with an equals sign, and the body. It keeps its key, by which it is found.
pub struct Definition {
    name: Text,
    key: NameKey,
    has_equals: bool,
    body: Formula,
}

impl Drop for Definition {
    fn drop(self) {
        let Self {
            name,
            key,
            has_equals: _,
            body,
        } = self;
        drop(name);
        drop(key);
        drop(body);
    }
}

impl Model for Definition {
    ghost use Rattle.std.specs.Prelude.{◌≡◌};
    ghost use Rattle.std.specs.Coded.{codes};
    ghost use Rattle.ic_laws.specs.CoreBook as core;
    ghost use Rattle.ic_laws.specs.Name.{fold};
    ghost use Rattle.ic_laws.specs.contracts.tree.Formula as formula;

    ghost Value = { core.Definition };

    ghost coded = { Prim.hlevel (codes, formula.the_row.coded) };

    ghost view = { λ d. record { name = d.name; scope = d.key.scope; has_equals = d.has_equals; body = d.body } };

    ghost invariant = { λ d. d.key.name ≡ fold d.name };
}

impl Definition {
    /// A definition of this name, local to the sheet with this id, or to none.
    pub fn new(
        alloc: Global,
        name: &str,
        scope: Option<u32>,
        has_equals: bool,
        body: Formula,
    ) -> Result<Definition, OutOfMemory>
        ensures { IfOk result (λ d. d ≡ record {
          name = chars name.now;
          scope = scope;
          has_equals
              = has_equals;
          body = body;
        }) }
    {
        let key = key_with(fold_name(alloc, name)?, scope);
        let name = Text::from_str(alloc, name)?;
        Ok(Definition {
            name,
            key,
            has_equals,
            body,
        })
    }

    /// Its name as it was given.
    pub fn name(&self) -> &str
        ensures { chars result.now ≡ self.now.name }
    {
        self.name.as_str()
    }

    /// Its key: the folded name, and the id of the sheet that it is local to, if there is one.
    pub fn key(&self) -> &NameKey
        ensures { result.now ≡ key_of (spelling_of self.now) }
    {
        &self.key
    }

    /// The id of the sheet that it is local to, if there is one.
    pub fn scope(&self) -> Option<u32>
        ensures { result ≡ self.now.scope }
    {
        self.key.scope
    }

    /// Whether its body was typed with an equals sign.
    pub fn has_equals(&self) -> bool
        ensures { result ≡ self.now.has_equals }
    {
        self.has_equals
    }

    /// Its body.
    pub fn body(&self) -> &Formula
        ensures { result.now ≡ self.now.body }
    {
        &self.body
    }

    /// Gives it another body.
    pub(crate) fn set_body(&mut self, body: Formula)
        ensures { self.new ≡ record self.old { body = body } }
    {
        self.body = body;
    }
}

/// The folded name by which a name is found.
pub(crate) fn fold_name(alloc: Global, name: &str) -> Result<String, OutOfMemory>
    ensures { IfOk result (λ folded. chars (string_bytes folded) ≡ fold (chars name.now)) }
{
    let folded = default_case_fold_str(alloc, name)?;
    Ok(folded)
}

/// A key as a look-up has it: a copy of a folded name, and the id of the sheet that a definition is local to, if there is one.
pub(crate) fn held_key(
    alloc: Global,
    folded: &str,
    scope: Option<u32>,
) -> Result<(String, Option<u32>), OutOfMemory>
    ensures name { IfOk result (λ held. string_bytes held.0 ≡ folded.now) }
    ensures scope { IfOk result (λ held. held.1 ≡ scope) }
{
    let name = String::from_str(alloc, folded)?;
    Ok((name, scope))
}

/// A key with this folded name.
pub(crate) fn key_with(folded: String, scope: Option<u32>) -> NameKey
    ensures { result ≡ record { name = chars (string_bytes folded); scope = scope } }
{
    NameKey {
        name: Text::from(folded),
        scope,
    }
}
