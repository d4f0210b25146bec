//! The definitions that are copied with a sheet.
ghost use Rattle.std.specs.Prelude.{◌≡◌, ◌≤◌, ◌++◌, [], ◌∷◌, IfOk, OnOk, Some, chars, false, filter, length, map, true, if◌then◌else◌};
ghost use Rattle.std.specs.List.{AllByRecursion, IsDistinct, list_any};
ghost use Rattle.ic_laws.specs.CoreStep.{is_named};
ghost use Rattle.ic_laws.specs.Name.{agrees};
ghost use Rattle.ic_laws.specs.Scene.{same_key};
ghost use Rattle.ic_definitions.specs.Named.{FindsNames, key_in};
ghost use Rattle.ic_machine.specs.subjects.Sheets.{copied_of, local_in, local_to};
ghost use Rattle.ic_changes.specs.Copied.{is_copied, with_each_body};

use crate::sheet_copies::mentions::mentions_sheet;
use ic_definitions::{Definition, Definitions, NamedDefinitions};
use ic_laws::{Formula, OutOfMemory};
use ic_pool::{copy_formula, same_scope};
use std::alloc::Global;
use std::collections::BTreeMap;

/// Which of the definitions that are copied with a sheet.
#[derive(Clone, Copy)]
pub enum CopiedKind {
    /// Those that are local to it.
    Local,
    /// Those that are local to none, whose body mentions it, where it has none of an agreeing name.
    Shared,
}

/// The definitions that are copied with the sheet with the id `source`, as ones that are local to the sheet with the id
/// `copy`. Their bodies are as they are. No two of them have one key then.
pub fn copied_definitions(
    alloc: Global,
    definitions: &NamedDefinitions,
    source: u32,
    copy: u32,
) -> Result<(Definitions, BTreeMap<(String, Option<u32>), usize>), OutOfMemory>
    requires { IsDistinct same_key
        (map key_in (map (local_in copy) (copied_of source definitions.now.definitions.now))) }
    ensures copies { IfOk result (λ made. made.0
        ≡ map (local_in copy) (copied_of source definitions.now.definitions.now)) }
    ensures finds { IfOk result (λ made. FindsNames made.1 made.0) }
{
    let mut copies = Definitions::new(alloc);
    let mut places = BTreeMap::new(alloc);
    push_copies(
        alloc,
        &mut copies,
        &mut places,
        definitions,
        CopiedKind::Local,
        source,
        copy,
    )?;
    push_copies(
        alloc,
        &mut copies,
        &mut places,
        definitions,
        CopiedKind::Shared,
        source,
        copy,
    )?;
    Ok((copies, places))
}

/// Adds the copies of those of a kind. Where it is known that there is none the definitions aren't gone over.
fn push_copies(
    alloc: Global,
    copies: &mut Definitions,
    places: &mut BTreeMap<(String, Option<u32>), usize>,
    definitions: &NamedDefinitions,
    kind: CopiedKind,
    source: u32,
    copy: u32,
) -> Result<(), OutOfMemory>
    requires finds { FindsNames places.old copies.old }
    requires differ { IsDistinct same_key (map key_in (copies.old ++ map (local_in copy)
        (filter (is_copied kind source definitions.now.definitions.now)
        definitions.now.definitions.now))) }
    ensures put { OnOk result (copies.new ≡ copies.old ++ map (local_in copy)
        (filter (is_copied kind source definitions.now.definitions.now)
        definitions.now.definitions.now)) }
    ensures finds { FindsNames places.new copies.new }
{
    if !may_copy(definitions, kind, source) {
        return Ok(());
    }
    for definition in definitions.definitions.as_slice() {
        let passes = is_copied(definitions, definition, kind, source);
        push_if(alloc, copies, places, definition, copy, passes)?;
    }
    Ok(())
}

/// Whether there may be one of those of a kind: where not, there is none.
fn may_copy(definitions: &NamedDefinitions, kind: CopiedKind, source: u32) -> bool
    ensures { result ≡ false → AllByRecursion (λ d. is_copied kind source
        definitions.now.definitions.now d ≡ false) definitions.now.definitions.now }
{
    match kind {
        CopiedKind::Local => source <= definitions.definitions.greatest_scope(),
        CopiedKind::Shared => definitions.definitions.may_mention_sheet(source),
    }
}

/// Whether a definition is one of those of a kind.
fn is_copied(
    definitions: &NamedDefinitions,
    definition: &Definition,
    kind: CopiedKind,
    source: u32,
) -> bool
    ensures { result ≡ is_copied kind source definitions.now.definitions.now definition.now }
{
    match kind {
        CopiedKind::Local => same_scope(definition.scope(), Some(source)),
        CopiedKind::Shared => {
            definition.scope().is_none()
                && mentions_sheet(source, definition.body())
                && !has_local(definitions, definition.name(), source)
        }
    }
}

/// Whether a definition of an agreeing name is local to the sheet with this id.
fn has_local(definitions: &NamedDefinitions, name: &str, id: u32) -> bool
    ensures { result ≡ list_any (λ other. agrees other.name (chars name.now))
        (local_to id definitions.now.definitions.now) }
{
    definitions.index_of(name, Some(id)).is_some()
}

/// Adds the copy of a definition if it passes.
fn push_if(
    alloc: Global,
    copies: &mut Definitions,
    places: &mut BTreeMap<(String, Option<u32>), usize>,
    definition: &Definition,
    copy: u32,
    passes: bool,
) -> Result<(), OutOfMemory>
    requires finds { FindsNames places.old copies.old }
    requires free { passes ≡ true
        → list_any (is_named definition.now.name (Some copy)) copies.old ≡ false }
    ensures put { OnOk result (copies.new
        ≡ copies.old ++ (if passes then local_in copy definition.now ∷ [] else [])) }
    ensures finds { FindsNames places.new copies.new }
{
    if passes {
        let definition = local_copy(alloc, definition, copy)?;
        copies.add_leaving_bodies(places, definition)?;
    }
    Ok(())
}

/// A copy of a definition that is local to the sheet with this id.
fn local_copy(alloc: Global, definition: &Definition, id: u32) -> Result<Definition, OutOfMemory>
    ensures { IfOk result (λ copy. copy ≡ local_in id definition.now) }
{
    let body = copy_formula(alloc, definition.body())?;
    Definition::new(
        alloc,
        definition.name(),
        Some(id),
        definition.has_equals(),
        body,
    )
}

/// Gives definitions other bodies, one for each. It takes no memory.
pub fn put_bodies(definitions: &mut Definitions, mut bodies: Vec<Formula>)
    requires { length bodies.items ≤ length definitions.old }
    ensures { definitions.new ≡ with_each_body bodies.items definitions.old }
{
    while let Some(body) = bodies.pop() {
        definitions.set_body(bodies.len(), body);
    }
}
