//! Formulas in scenes: a text is read, its mentions are bound in the scene that the row gives, and it is written again.
use ic_laws::{Bound, Dialect, Items, NameSpelling, OutOfMemory, Scene, SheetName, Spelled};
use ic_rows::Row;
use ic_tables::Tables;
use ic_tree::{Shown, bind, clashes, is_dynamic, print, print_bound, read, spell};
use std::alloc::Global;

/// The scene that stands behind the text of a row. A sheet and a name each stand after a word that says so.
fn scene_in(row: &mut Row<'_>) -> Scene {
    let mut scene = empty_scene(row.alloc);
    for at in (5..row.words.len()).step_by(3) {
        if row.word(at) == "sheet" {
            add_sheet(row, at, &mut scene.sheets);
        }
        if row.word(at) == "name" {
            add_name(row, at, &mut scene.names);
        }
    }
    scene
}

/// A scene without sheets and names.
pub fn empty_scene(alloc: Global) -> Scene {
    Scene {
        sheets: Items::from(Vec::new(alloc)),
        names: Items::from(Vec::new(alloc)),
    }
}

fn add_sheet(row: &mut Row<'_>, at: usize, sheets: &mut Items<SheetName>) {
    let sheet = SheetName {
        id: row.index(at.saturating_add(1)),
        name: row.text(row.word(at.saturating_add(2))),
    };
    row.done(sheets.push(sheet).is_ok());
}

fn add_name(row: &mut Row<'_>, at: usize, names: &mut Items<NameSpelling>) {
    let name = NameSpelling {
        name: row.text(row.word(at.saturating_add(1))),
        scope: row.scope(at.saturating_add(2)),
    };
    row.done(names.push(name).is_ok());
}

/// A text read and bound in a scene; None where it doesn't read.
fn bound_in<D: Dialect>(
    row: &Row<'_>,
    dialect: &D,
    scene: &Scene,
    scope: Option<u32>,
    text: &str,
) -> Result<Option<Bound>, OutOfMemory> {
    match &read(row.alloc, dialect, text)? {
        Some(tree) => bound(row, scene, scope, tree),
        None => Ok(None),
    }
}

fn bound(
    row: &Row<'_>,
    scene: &Scene,
    scope: Option<u32>,
    tree: &Spelled,
) -> Result<Option<Bound>, OutOfMemory> {
    let english = row.tables.get_default_language();
    Ok(Some(bind(row.alloc, scene, english, scope, tree)?))
}

/// A formula as it is written in a scene.
fn put_spelled<D: Dialect>(row: &mut Row<'_>, dialect: &D, scene: &Scene, bound: &Bound) {
    row.put_made(print_bound(row.alloc, dialect, scene, "", bound));
}

/// A text bound in the scene of the row, which is `sheet`, an id and a name, or `name`, a name and a scope or `none`, and
/// so on: the formula, and what it clashes with.
pub fn put_bound(row: &mut Row<'_>, shown: &Shown<'_>) {
    let scene = scene_in(row);
    let scope = row.scope(3);
    match &bound_in(row, shown, &scene, scope, row.word(4)) {
        Ok(Some(bound)) => put_bound_in(row, shown, &scene, bound),
        Ok(None) => row.none(),
        Err(_) => row.bad(),
    }
}

fn put_bound_in(row: &mut Row<'_>, shown: &Shown<'_>, scene: &Scene, bound: &Bound) {
    if row.name == "spell" {
        put_spelled_tree(row, shown, scene, bound);
    } else {
        put_spelled(row, shown, scene, bound);
        put_clashes(row, bound);
    }
}

/// The spelled tree of a formula in a scene, printed.
fn put_spelled_tree(row: &mut Row<'_>, shown: &Shown<'_>, scene: &Scene, bound: &Bound) {
    match &spell(row.alloc, scene, bound) {
        Ok(tree) => row.put_made(print(row.alloc, shown, tree)),
        Err(_) => row.bad(),
    }
}

/// The languages whose words the formula clashes with, and whether it is dynamic.
fn put_clashes(row: &mut Row<'_>, bound: &Bound) {
    row.put("\tclashes\t");
    let mut some = false;
    for code in &["en", "es", "fr", "de", "it"] {
        if clashes_with(row.tables, bound, code) {
            row.put(if some { "," } else { "" });
            row.put(code);
            some = true;
        }
    }
    row.put(match (some, is_dynamic(bound, row.tables)) {
        (true, true) => "\tdynamic",
        (true, false) => "\tplain",
        (false, true) => "none\tdynamic",
        (false, false) => "none\tplain",
    });
}

fn clashes_with(tables: &Tables, bound: &Bound, code: &str) -> bool {
    match tables.get_language(code) {
        Ok(language) => clashes(bound, language),
        Err(_) => false,
    }
}
