//! What is asked of the names and the scopes of definitions.
ghost use Rattle.std.specs.Prelude.{◌≡◌, ◌↔◌, ◌++◌, [], ◌∷◌, IfOk, IsTrue, MatchResult, OnOk, false, map};
ghost use Rattle.std.specs.List.{list_any};
ghost use Rattle.ic_laws.specs.CoreStep.{is_named};
ghost use Rattle.ic_laws.specs.ValidCore.{IsScope};
ghost use Rattle.ic_definitions.specs.Named.{FindsNames};
ghost use Rattle.ic_workbooks.specs.Asked.{AreDefined, Breaks, IsDefined, unread};

use ic_cells::DefinedName;
use ic_definitions::{Definition, Definitions, NamedDefinitions};
use ic_laws::{Formula, OutOfMemory, Text};
use ic_parts::BookError;
use ic_parts::definitions::body::past_equals;
use ic_refs::is_valid_identifier;
use std::alloc::Global;
use std::collections::BTreeMap;

/// Asks whether each definition's name is an identifier and its scope an id, and no two have one key; then gives
/// definitions with these names and scopes, whose bodies aren't read yet, and what finds them by their keys.
pub fn ask_definitions(
    alloc: Global,
    names: &[DefinedName],
) -> Result<(Definitions, BTreeMap<(String, Option<u32>), usize>), BookError>
    ensures { MatchResult result
        (λ made. AreDefined names.now × (made.0 ≡ map unread names.now)
        × FindsNames made.1 made.0) (Breaks 4 (AreDefined names.now)) }
{
    let mut definitions = Definitions::new(alloc);
    let mut places = BTreeMap::new(alloc);
    for name in names {
        if !is_defined(name) || is_there(&definitions, &places, name) {
            return Err(BookError::BadWorkbook(4));
        }
        put_name(alloc, &mut definitions, &mut places, name)?;
    }
    Ok((definitions, places))
}

/// Whether a definition may have this name and this scope.
fn is_defined(name: &DefinedName) -> bool
    ensures { IsTrue result ↔ IsDefined name.now }
{
    is_valid_identifier(name.name.as_str()) && is_scope(name.sheet_id)
}

/// Whether a definition may be local to this: a sheet with an id, or none.
fn is_scope(scope: Option<u32>) -> bool
    ensures { IsTrue result ↔ IsScope scope }
{
    match scope {
        Some(id) => id > 0,
        None => true,
    }
}

/// Whether a definition of an agreeing name with this scope is there.
fn is_there(
    definitions: &Definitions,
    places: &BTreeMap<(String, Option<u32>), usize>,
    name: &DefinedName,
) -> bool
    requires { FindsNames places.now definitions.now }
    ensures { result ≡ list_any (is_named name.now.name name.now.sheet_id) definitions.now }
{
    let named = NamedDefinitions {
        definitions,
        places,
    };
    named.index_of(name.name.as_str(), name.sheet_id).is_some()
}

/// Puts a definition at the end, whose body isn't read yet.
fn put_name(
    alloc: Global,
    definitions: &mut Definitions,
    places: &mut BTreeMap<(String, Option<u32>), usize>,
    name: &DefinedName,
) -> Result<(), OutOfMemory>
    requires finds { FindsNames places.old definitions.old }
    requires free { list_any (is_named name.now.name name.now.sheet_id) definitions.old ≡ false }
    ensures put { OnOk result (definitions.new ≡ definitions.old ++ unread name.now ∷ []) }
    ensures finds { FindsNames places.new definitions.new }
{
    let definition = unread(alloc, name)?;
    definitions.add_leaving_bodies(places, definition)
}

/// A definition whose body isn't read yet.
fn unread(alloc: Global, name: &DefinedName) -> Result<Definition, OutOfMemory>
    ensures { IfOk result (λ d. d ≡ unread name.now) }
{
    let (has_equals, _) = past_equals(name.formula.as_str());
    let body = Formula::Raw(Text::from(String::new(alloc)));
    Definition::new(alloc, name.name.as_str(), name.sheet_id, has_equals, body)
}
