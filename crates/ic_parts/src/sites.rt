//! Where an update of a definition would capture words.
ghost use Rattle.std.specs.Prelude.{◌≡◌, ◌++◌, ℕ, IfOk, IfSome, OnOk, find, map, nat_eq, option_map, true};
ghost use Rattle.std.specs.BTreeMap as tree;
ghost use Rattle.std.specs.BTreeSet.{contains};
ghost use Rattle.std.specs.List.{AllByRecursion, IsDistinct, slice_get};
ghost use Rattle.std.specs.Ordering.{nat_cmp};
ghost use Rattle.ic_laws.specs.Keeping.{changed_key};
ghost use Rattle.ic_cells.specs.Cell.{cell_formula_index};
ghost use Rattle.ic_cells.specs.Maps.{place_cmp};
ghost use Rattle.ic_sheets.specs.Index.{is_part};
ghost use Rattle.ic_parts.specs.Sites.{AreAlikePools, IsAlikeBody, IsAlikeIn, body_sites, captures, captures_at, listed_sites, prepared_sites, sheet_sites, site_if, sites_in, sites_of_bodies, sites_of_sheets};

use crate::contents::Contents;
use ic_cells::Cell;
use ic_definitions::{BodyRewrites, Definition, NewBody};
use ic_keep::{KeyChange, captured_formula};
use ic_laws::{NameKey, OutOfMemory};
use ic_pool::{Pool, Replacement, Rewrites, copy_key, same_key};
use ic_sheets::{Sheet, Sheets};
use std::alloc::Global;
use std::collections::{BTreeMap, BTreeSet};
use std::fmt;

/// Where an update of a definition would capture a word.
pub enum MentionSite {
    /// In a cell of the sheet with this id, at this row and this column, both from 1.
    Cell {
        sheet_id: u32,
        row: i32,
        column: i32,
    },
    /// In the body of the definition with this key.
    Definition(NameKey),
}

impl Drop for MentionSite {
    fn drop(self) {
        match self {
            Self::Cell {
                sheet_id: _,
                row: _,
                column: _,
            } => {}
            Self::Definition(key) => drop(key),
        }
    }
}

impl fmt::Debug for MentionSite {
    fn fmt<W: fmt::Write>(&self, f: &mut fmt::Formatter<W>) -> fmt::Result {
        match self {
            Self::Cell {
                sheet_id,
                row,
                column,
            } => write!(f, "Cell {sheet_id} {row} {column}"),
            Self::Definition(key) => write!(f, "Definition {:?} {:?}", key.name, key.scope),
        }
    }
}

/// Where an update would capture: cells by the order of sheets, rows and columns, then definitions in the order of the
/// book, each once. The update is told by what was prepared for the formulas of each sheet and for the bodies of
/// definitions, and by the key of its definition, before and after. Only memory can be missing.
pub fn sites_of_update(
    alloc: Global,
    contents: &Contents,
    change: &KeyChange,
    formulas: &[(u32, Rewrites)],
    bodies: &BodyRewrites,
) -> Result<Vec<MentionSite>, OutOfMemory>
    requires pools { AreAlikePools formulas.now contents.now.sheets }
    requires ordered { is_part (map (λ p. p.0) formulas.now)
        (map (λ s. s.id) contents.now.sheets) ≡ true }
    requires apart { IsDistinct nat_eq (map (λ s. s.id) contents.now.sheets) }
    requires bodies { AllByRecursion (IsAlikeBody contents.now.definitions)
        bodies.now.bodies.items }
    ensures { IfOk result (λ sites. sites.items
        ≡ listed_sites (changed_key change.now.old change.now.new) change.now.old
        contents.now.sheets contents.now.definitions formulas.now bodies.now.bodies.items) }
{
    let mut sites = Vec::new(alloc);
    push_sheets(alloc, &mut sites, &contents.sheets, formulas, change)?;
    let definitions = contents.definitions.as_slice();
    push_bodies(alloc, &mut sites, definitions, bodies.bodies(), change)?;
    Ok(sites)
}

/// Puts the captured cells of these sheets at the end.
fn push_sheets(
    alloc: Global,
    sites: &mut Vec<MentionSite>,
    sheets: &Sheets,
    formulas: &[(u32, Rewrites)],
    change: &KeyChange,
) -> Result<(), OutOfMemory>
    requires pools { AreAlikePools formulas.now sheets.now }
    requires ordered { is_part (map (λ p. p.0) formulas.now) (map (λ s. s.id) sheets.now) ≡ true }
    requires apart { IsDistinct nat_eq (map (λ s. s.id) sheets.now) }
    ensures { OnOk result (sites.new.items ≡ sites.old.items ++ sites_of_sheets
        (changed_key change.now.old change.now.new) formulas.now sheets.now) }
{
    for prepared in formulas {
        push_prepared(alloc, sites, sheets, prepared.0, &prepared.1, change)?;
    }
    Ok(())
}

/// Puts the captured cells of the sheet with this id at the end, where there is one.
fn push_prepared(
    alloc: Global,
    sites: &mut Vec<MentionSite>,
    sheets: &Sheets,
    id: u32,
    rewrites: &Rewrites,
    change: &KeyChange,
) -> Result<(), OutOfMemory>
    requires { IfSome (find (λ s. nat_eq s.id id) sheets.now)
        (λ s. AllByRecursion (IsAlikeIn s.pool.formulas) rewrites.now.changes) }
    ensures { OnOk result (sites.new.items ≡ sites.old.items ++ prepared_sites
        (changed_key change.now.old change.now.new) sheets.now (id, rewrites.now)) }
{
    match sheets.with_id(id) {
        Some(sheet) => push_sheet(alloc, sites, sheet, rewrites, change),
        None => Ok(()),
    }
}

/// Puts the captured cells of a sheet at the end. Where there are none its cells aren't walked.
fn push_sheet(
    alloc: Global,
    sites: &mut Vec<MentionSite>,
    sheet: &Sheet,
    rewrites: &Rewrites,
    change: &KeyChange,
) -> Result<(), OutOfMemory>
    requires { AllByRecursion (IsAlikeIn sheet.now.pool.formulas) rewrites.now.changes }
    ensures { OnOk result (sites.new.items ≡ sites.old.items ++ sheet_sites
        (changed_key change.now.old change.now.new) rewrites.now sheet.now) }
{
    let places = captured_places(alloc, &sheet.pool, rewrites.changes(), change)?;
    if !places.is_empty() {
        push_cells(sites, sheet.id, &places, sheet.grid.cells.as_map())?;
    }
    Ok(())
}

/// The places of the formulas of a pool that capture when they are made anew.
fn captured_places(
    alloc: Global,
    pool: &Pool,
    changes: &[Replacement],
    change: &KeyChange,
) -> Result<BTreeSet<usize>, OutOfMemory>
    requires { AllByRecursion (IsAlikeIn pool.now.formulas) changes.now }
    ensures { IfOk result (λ places. (index : ℕ) → contains nat_cmp places index ≡ captures_at
        (changed_key change.now.old change.now.new) pool.now.formulas changes.now index) }
{
    let mut places = BTreeSet::new(alloc);
    for new in changes {
        if captures(pool, new, change) {
            places.insert(new.at)?;
        }
    }
    Ok(places)
}

/// Whether what a formula of a pool becomes captures a word of it.
fn captures(pool: &Pool, new: &Replacement, change: &KeyChange) -> bool
    requires { IsAlikeIn pool.now.formulas new.now }
    ensures { result ≡ captures (changed_key change.now.old change.now.new) pool.now.formulas
        new.now }
{
    match pool.get(new.at) {
        Some(formula) => captured_formula(formula, &new.formula, change),
        None => false,
    }
}

/// Puts the cells of a sheet whose formulas stand at one of these places at the end.
pub fn push_cells(
    sites: &mut Vec<MentionSite>,
    id: u32,
    places: &BTreeSet<usize>,
    cells: &BTreeMap<(i32, i32), Cell>,
) -> Result<(), OutOfMemory>
    ensures pushed { OnOk result (sites.new.items
        ≡ sites.old.items ++ sites_in id (contains nat_cmp places.now) cells.now.entries) }
    ensures ordered { tree.IsOrdered place_cmp cells.now }
{
    for (place, cell) in cells.iter() {
        push_cell(sites, id, places, *place, cell)?;
    }
    Ok(())
}

/// Puts a cell at the end if its formula stands at one of these places.
fn push_cell(
    sites: &mut Vec<MentionSite>,
    id: u32,
    places: &BTreeSet<usize>,
    place: (i32, i32),
    cell: &Cell,
) -> Result<(), OutOfMemory>
    ensures { OnOk result (sites.new.items ≡ sites.old.items ++ site_if id
        (contains nat_cmp places.now) place (cell_formula_index cell.now)) }
{
    if let Some(index) = cell.get_formula() {
        if places.contains(&index) {
            sites.push(MentionSite::Cell {
                sheet_id: id,
                row: place.0,
                column: place.1,
            })?;
        }
    }
    Ok(())
}

/// Puts the captured definitions at the end.
fn push_bodies(
    alloc: Global,
    sites: &mut Vec<MentionSite>,
    definitions: &[Definition],
    bodies: &[NewBody],
    change: &KeyChange,
) -> Result<(), OutOfMemory>
    requires { AllByRecursion (IsAlikeBody definitions.now) bodies.now }
    ensures { OnOk result (sites.new.items ≡ sites.old.items ++ sites_of_bodies
        (changed_key change.now.old change.now.new) change.now.old definitions.now bodies.now) }
{
    for new in bodies {
        push_body(alloc, sites, definitions, new, change)?;
    }
    Ok(())
}

/// Puts a definition at the end if what its body becomes captures a word of it, and it isn't the updated one.
fn push_body(
    alloc: Global,
    sites: &mut Vec<MentionSite>,
    definitions: &[Definition],
    new: &NewBody,
    change: &KeyChange,
) -> Result<(), OutOfMemory>
    requires { IsAlikeBody definitions.now new.now }
    ensures { OnOk result (sites.new.items ≡ sites.old.items ++ body_sites
        (changed_key change.now.old change.now.new) change.now.old definitions.now new.now) }
{
    let Some(definition) = definition_at(definitions, new.at) else {
        return Ok(());
    };
    let key = definition.key();
    if !same_key(&change.old, key) && captured_formula(definition.body(), &new.body, change) {
        sites.push(MentionSite::Definition(copy_key(alloc, key)?))?;
    }
    Ok(())
}

/// The definition at an index, from 0. None past the end.
fn definition_at(definitions: &[Definition], index: usize) -> Option<&Definition>
    ensures { option_map (λ d. d.now) result ≡ slice_get definitions.now index }
{
    definitions.get(index)
}
