//! A definition gets another name, another scope and another body.
ghost use Rattle.std.specs.Prelude.{◌≡◌, ◌&&◌, chars, not};
ghost use Rattle.std.specs.List.{list_any};
ghost use Rattle.ic_laws.specs.CoreStep.{is_named};
ghost use Rattle.ic_laws.specs.Name.{agrees};
ghost use Rattle.ic_laws.specs.Scene.{same_scope};

use ic_definitions::NamedDefinitions;
use ic_laws::agree;
use ic_parts::definitions::body::TypedBody;
use ic_pool::same_scope;
use ic_refs::CellReferenceIndex;

/// The first cell of a sheet: bodies of definitions count from there.
pub const FIRST_CELL: CellReferenceIndex = CellReferenceIndex {
    sheet: 0,
    row: 1,
    column: 1,
};

/// An update of a definition that nothing refuses before memory is asked for what it captures: the ids of the sheets that
/// the definition is local to before and after it, if there are such, its index, from 0, and the body that it gets.
pub struct CheckedUpdate {
    pub old_scope: Option<u32>,
    pub new_scope: Option<u32>,
    pub index: usize,
    pub body: TypedBody,
}

impl Drop for CheckedUpdate {
    fn drop(self) {
        let Self {
            old_scope: _,
            new_scope: _,
            index: _,
            body,
        } = self;
        drop(body);
    }
}

/// Whether another definition than the one of this name and this scope has the new name and the new scope.
pub fn meets_other(
    definitions: &NamedDefinitions,
    name: &str,
    scope: Option<u32>,
    new_name: &str,
    new_scope: Option<u32>,
) -> bool
    ensures { result ≡ (list_any (is_named (chars new_name.now) new_scope)
        definitions.now.definitions.now
        && not (agrees (chars name.now) (chars new_name.now) && same_scope scope new_scope)) }
{
    is_defined(definitions, new_name, new_scope) && !is_same_name(name, scope, new_name, new_scope)
}

/// Whether a definition has an agreeing name and this scope.
fn is_defined(definitions: &NamedDefinitions, name: &str, scope: Option<u32>) -> bool
    ensures { result ≡ list_any (is_named (chars name.now) scope) definitions.now.definitions.now }
{
    definitions.index_of(name, scope).is_some()
}

/// Whether two names agree and have one scope.
fn is_same_name(name: &str, scope: Option<u32>, other: &str, other_scope: Option<u32>) -> bool
    ensures { result ≡ (agrees (chars name.now) (chars other.now) && same_scope scope other_scope) }
{
    agree(name, other) && same_scope(scope, other_scope)
}
