//! Sheets come, get other names and go, and definitions come and go: what becomes of the formulas of all sheets.
ghost use Rattle.std.specs.Prelude.{◌≡◌, ◌<◌, ◌≤◌, ◌++◌, ℕ, [], ◌∷◌, None, Some, IfOk, IfSome, OnOk, OnErr, chars, false, true, insert, length, map, nat_eq, remove};
ghost use Rattle.std.specs.List.{AllByRecursion, list_any, slice_get};
ghost use Rattle.ic_laws.specs.Changes.{definition_added, sheet_gone, sheet_named};
ghost use Rattle.ic_laws.specs.CoreStep.{updated_at};
ghost use Rattle.ic_laws.specs.Greatest.{greatest};
ghost use Rattle.ic_laws.specs.Name.{agrees};
ghost use Rattle.ic_pool.specs.Mentions.{SparesFound};
ghost use Rattle.ic_pool.specs.Remade.{LeavesUntouched};
ghost use Rattle.ic_pool.specs.Rewrites.{FitsPool};
ghost use Rattle.ic_sheets.specs.Index.{FindsSheets};
ghost use Rattle.ic_sheets.specs.Remade.{AreRemade};
ghost use Rattle.ic_sheets.specs.Rewriting.{FitOwn, Makes, SparesElsewhere, changed_pool, look_ups, looks_up_after, own_rewrites, sheets_of, with_own_rewrites, with_rewrites};
ghost use Rattle.ic_sheets.specs.Sheet.{empty_grid, plain_tab};
ghost use Rattle.ic_sheets.specs.declared.sheet.Sheet.{Sheet as HeldSheet};

use super::dangling::{dangles, looked_at, settle};
use super::rewriting::{prepare_own, prepare_remade};
use super::{Sheets, index_in};
use ic_laws::{Finder, OutOfMemory};
use ic_pool::{BookChange, DefinitionAdded, Remaking, Rewrites, SheetGone, SheetNamed};
use std::collections::BTreeMap;

impl Sheets {
    /// Adds a sheet at the end, which keeps no formulas. References of all sheets that dangle by an agreeing name become
    /// references to it, and words with such a sheet mean the definitions that are local to it. `OutOfMemory` changes nothing.
    pub fn add_sheet<F: Finder>(
        &mut self,
        ids: &mut BTreeMap<String, u32>,
        id: u32,
        name: &str,
        definitions: &F,
    ) -> Result<(), OutOfMemory>
        requires finds { FindsSheets ids.old self.old }
        requires free { list_any (agrees (chars name.now)) (map (λ s. s.name) self.old) ≡ false }
        requires fresh { greatest (map (λ s. s.id) self.old) < id }
        ensures ok { OnOk result (sheets_of self.new
            ≡ map (changed_pool (sheet_named (F.scene definitions.now) id (chars name.now)))
            (sheets_of self.old)
            ++ record {
              id = id;
              name = chars name.now;
              pool = [];
              grid = empty_grid;
              tab
                  = plain_tab;
            } ∷ []) }
        ensures looks_up { OnOk result (look_ups self.new
            ≡ map (looks_up_after (sheet_named (F.scene definitions.now) id (chars name.now)))
            self.old ++ true ∷ []) }
        ensures err { OnErr result (self.new ≡ self.old) }
        ensures finds { FindsSheets ids.new self.new }
    {
        let end = self.len();
        self.insert_sheet(ids, end, id, name, definitions)
    }

    /// Puts a sheet without formulas in at an index, from 0 and at most the number of sheets, so that those from there on
    /// stand one further. None of the others has its id. References of all sheets that dangle by an agreeing name become
    /// references to it, and words with such a sheet mean the definitions that are local to it. `OutOfMemory` changes nothing.
    pub fn insert_sheet<F: Finder>(
        &mut self,
        ids: &mut BTreeMap<String, u32>,
        index: usize,
        id: u32,
        name: &str,
        definitions: &F,
    ) -> Result<(), OutOfMemory>
        requires finds { FindsSheets ids.old self.old }
        requires within { index ≤ length self.old }
        requires free { list_any (agrees (chars name.now)) (map (λ s. s.name) self.old) ≡ false }
        requires fresh { list_any (nat_eq id) (map (λ s. s.id) self.old) ≡ false }
        ensures ok { OnOk result (sheets_of self.new ≡ insert
            (map (changed_pool (sheet_named (F.scene definitions.now) id (chars name.now)))
            (sheets_of self.old)) index
            (record {
              id = id;
              name = chars name.now;
              pool = [];
              grid = empty_grid;
              tab = plain_tab;
            })) }
        ensures looks_up { OnOk result (look_ups self.new ≡ insert
            (map (looks_up_after (sheet_named (F.scene definitions.now) id (chars name.now)))
            self.old) index true) }
        ensures err { OnErr result (self.new ≡ self.old) }
        ensures finds { FindsSheets ids.new self.new }
    {
        let prepared = self.insert_unapplied(ids, index, id, name, definitions)?;
        self.apply(prepared);
        Ok(())
    }

    /// The same, and answers what that does to the formulas of all sheets, by their ids. They stay until `apply` does
    /// it. `OutOfMemory` changes nothing.
    pub fn insert_unapplied<F: Finder>(
        &mut self,
        ids: &mut BTreeMap<String, u32>,
        index: usize,
        id: u32,
        name: &str,
        definitions: &F,
    ) -> Result<Vec<(u32, Rewrites)>, OutOfMemory>
        requires finds { FindsSheets ids.old self.old }
        requires within { index ≤ length self.old }
        requires free { list_any (agrees (chars name.now)) (map (λ s. s.name) self.old) ≡ false }
        requires fresh { list_any (nat_eq id) (map (λ s. s.id) self.old) ≡ false }
        ensures ok { OnOk result (self.new ≡ insert self.old index
            (record {
              id = id;
              name = chars name.now;
              pool
                  = record { formulas = []; is_whole = true };
              grid = empty_grid;
              tab = plain_tab;
            })) }
        ensures fits { IfOk result (λ prepared. FitOwn prepared.items self.new) }
        ensures made { IfOk result (λ prepared.
            sheets_of (with_own_rewrites prepared.items self.new) ≡ insert
            (map (changed_pool (sheet_named (F.scene definitions.now) id (chars name.now)))
            (sheets_of self.old)) index
            (record {
              id = id;
              name = chars name.now;
              pool = [];
              grid = empty_grid;
              tab = plain_tab;
            })) }
        ensures looks_up { IfOk result (λ prepared.
            look_ups (with_own_rewrites prepared.items self.new) ≡ insert
            (map (looks_up_after (sheet_named (F.scene definitions.now) id (chars name.now)))
            self.old) index true) }
        ensures own { IfOk result (λ prepared. own_rewrites id prepared.items ≡ None) }
        ensures err { OnErr result (self.new ≡ self.old) }
        ensures finds { FindsSheets ids.new self.new }
    {
        let named = SheetNamed {
            id,
            name,
            definitions,
        };
        let prepared = self.prepare_dangling(&named)?;
        self.insert_leaving_formulas(ids, index, id, name)?;
        Ok(prepared)
    }

    /// Gives the sheet at an index, from 0, another name. References of all sheets that dangle by an agreeing name become
    /// references to it, and words with such a sheet mean the definitions that are local to it. `OutOfMemory` changes nothing.
    pub fn rename_sheet<F: Finder>(
        &mut self,
        ids: &mut BTreeMap<String, u32>,
        index: usize,
        name: &str,
        definitions: &F,
    ) -> Result<(), OutOfMemory>
        requires finds { FindsSheets ids.old self.old }
        requires within { index < length self.old }
        requires free { list_any (agrees (chars name.now))
            (remove (map (λ s. s.name) self.old) index) ≡ false }
        ensures ok { OnOk result ((sheet : HeldSheet) → slice_get self.old index ≡ Some sheet
            → sheets_of self.new ≡ updated_at (λ s. record s { name = chars name.now }) index
            (map (changed_pool (sheet_named (F.scene definitions.now) sheet.id (chars name.now)))
            (sheets_of self.old))) }
        ensures looks_up { OnOk result ((sheet : HeldSheet) → slice_get self.old index ≡ Some sheet
            → look_ups self.new ≡ map (looks_up_after (sheet_named (F.scene definitions.now)
            sheet.id (chars name.now))) self.old) }
        ensures err { OnErr result (self.new ≡ self.old) }
        ensures finds { FindsSheets ids.new self.new }
    {
        let id = self.list[index].as_ref().id;
        let named = SheetNamed {
            id,
            name,
            definitions,
        };
        let prepared = self.prepare_dangling(&named)?;
        self.rename_leaving_formulas(ids, index, name)?;
        self.apply(prepared);
        Ok(())
    }

    /// Takes the sheet at an index away, from 0. References of all sheets to it dangle by its name, and words with this sheet
    /// dangle with it. `OutOfMemory` changes nothing.
    pub fn delete_sheet<F: Finder>(
        &mut self,
        ids: &mut BTreeMap<String, u32>,
        index: usize,
        definitions: &F,
    ) -> Result<(), OutOfMemory>
        requires finds { FindsSheets ids.old self.old }
        requires within { index < length self.old }
        ensures ok { OnOk result ((sheet : HeldSheet) → slice_get self.old index ≡ Some sheet
            → sheets_of self.new ≡ remove (map (changed_pool (sheet_gone
            (F.scene definitions.now) sheet.id sheet.name)) (sheets_of self.old)) index) }
        ensures looks_up { OnOk result ((sheet : HeldSheet) → slice_get self.old index ≡ Some sheet
            → look_ups self.new ≡ remove (map (looks_up_after (sheet_gone
            (F.scene definitions.now) sheet.id sheet.name)) self.old) index) }
        ensures err { OnErr result (self.new ≡ self.old) }
        ensures finds { FindsSheets ids.new self.new }
    {
        let sheet = self.list[index].as_ref();
        let name = sheet.name.as_str();
        let gone = SheetGone {
            id: sheet.id,
            name,
            definitions,
        };
        let prepared = self.prepare(&gone)?;
        self.apply(prepared);
        self.take_out(ids, index);
        Ok(())
    }

    /// What a change does to the formulas of all sheets, all prepared before any of them changes: it looks at the sheets that
    /// may mention what it is about, and tells for each its id.
    pub fn prepare<C: BookChange>(&self, change: &C) -> Result<Vec<(u32, Rewrites)>, OutOfMemory>
        ensures { IfOk result (λ prepared. Makes (C.change change.now) prepared.items self.now) }
    {
        let ids = self.ids_about(&[change.topic()])?;
        prepare_own(self.alloc, &self.list, &self.indexes, &ids, change)
    }

    /// What a rule that makes formulas anew does to those of all sheets, if it leaves each that it doesn't touch: likewise,
    /// in the order of the sheets.
    pub fn prepare_remade<R: Remaking>(
        &self,
        remaking: &R,
    ) -> Result<Vec<(u32, Rewrites)>, OutOfMemory>
        requires { AllByRecursion (λ s. AllByRecursion (LeavesUntouched (R.made remaking.now)
            (Some s.id)) s.pool.formulas) self.now }
        ensures { IfOk result (λ prepared.
            AreRemade (R.made remaking.now) prepared.items self.now) }
    {
        let (one, other) = remaking.topics();
        let ids = self.ids_about(&[one, other])?;
        prepare_remade(self.alloc, &self.list, &self.indexes, &ids, remaking)
    }

    /// What a definition that comes does to the formulas of all sheets, for each sheet at which it looks with its id: it
    /// looks at the sheets in which something wasn't found, and at the one that it is local to.
    pub fn prepare_added(
        &self,
        added: &DefinitionAdded<'_>,
    ) -> Result<Vec<(u32, Rewrites)>, OutOfMemory>
        ensures { IfOk result (λ prepared.
            Makes (definition_added added.now) prepared.items self.now) }
    {
        match added.scope() {
            None => self.prepare_dangling(added),
            Some(id) => self.prepare_beside(id, added),
        }
    }

    /// What a change that leaves each formula in which all was found does to the formulas of all sheets: it looks at the
    /// sheets with others alone, and tells for each its id.
    fn prepare_dangling<C: BookChange>(
        &self,
        change: &C,
    ) -> Result<Vec<(u32, Rewrites)>, OutOfMemory>
        requires { (id : ℕ) → SparesFound (C.change change.now) (Some id) }
        ensures { IfOk result (λ prepared. Makes (C.change change.now) prepared.items self.now) }
    {
        prepare_own(
            self.alloc,
            &self.list,
            &self.indexes,
            &self.dangling,
            change,
        )
    }

    /// The same for a change that can change others in the sheet with this id.
    fn prepare_beside<C: BookChange>(
        &self,
        id: u32,
        change: &C,
    ) -> Result<Vec<(u32, Rewrites)>, OutOfMemory>
        requires { SparesElsewhere (Some id) (C.change change.now) }
        ensures { IfOk result (λ prepared. Makes (C.change change.now) prepared.items self.now) }
    {
        let sheets = self.list.as_slice();
        let ids = looked_at(self.alloc, sheets, &self.indexes, &self.dangling, id)?;
        prepare_own(self.alloc, sheets, &self.indexes, &ids, change)
    }

    /// Does to the formulas of each sheet what was prepared for its id, from the last one on; the others stay.
    pub fn apply(&mut self, mut prepared: Vec<(u32, Rewrites)>)
        requires { FitOwn prepared.items self.old }
        ensures { self.new ≡ with_own_rewrites prepared.items self.old }
    {
        while let Some((id, rewrites)) = prepared.pop() {
            if let Some(index) = index_in(&self.indexes, id) {
                self.apply_at(index, rewrites);
            }
        }
        self.renew();
    }

    /// Does to the formulas of the sheet at an index, from 0, what was prepared for it.
    fn apply_at(&mut self, index: usize, rewrites: Rewrites)
        requires within { index < length self.old }
        requires fits { IfSome (slice_get self.old index)
            (λ s. FitsPool rewrites s.pool.formulas) }
        ensures { self.new ≡ updated_at (with_rewrites rewrites) index self.old }
    {
        let sheet = self.list[index].as_mut();
        let was = dangles(sheet);
        self.mentioners.note_changes(sheet.id, rewrites.changes());
        sheet.pool.apply(rewrites);
        settle(&mut self.dangling, sheet.id, was, dangles(sheet));
    }

    /// Notes anew what all sheets mention, where too much is noted or not all.
    fn renew(&mut self)
        ensures { self.new ≡ self.old }
    {
        self.mentioners.renew(&self.list);
    }
}
