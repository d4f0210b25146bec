//! Which sheets have formulas that mention what, each thing told by its topic and each sheet by its id.
ghost use Rattle.std.specs.Prelude.{◌≡◌, drop};
ghost use Rattle.std.specs.List.{AllByRecursion};
ghost use Rattle.ic_laws.specs.declared.tree.Formula.{Formula};
ghost use Rattle.ic_pool.specs.MentionPlaces.{places_with};
ghost use Rattle.ic_sheets.specs.Mentioners.{KeepsKnown, KnowsFormula, KnowsPool, KnowsSheets};

use crate::Sheet;
use ic_laws::{Boxed, Formula};
use ic_pool::{MentionIndex, Pool, Replacement};
use std::alloc::Global;

/// For each topic the ids of the sheets that have a formula which mentions it. It may have more than those: none is taken out
/// when a formula changes or a sheet goes.
pub struct Mentioners {
    alloc: Global,
    index: MentionIndex,
    /// Where it is false, there was no memory for some id.
    has_all: bool,
}

impl Drop for Mentioners {
    fn drop(self) {
        let Self {
            alloc,
            index,
            has_all: _,
        } = self;
        drop(alloc);
        drop(index);
    }
}

impl Mentioners {
    /// Of no sheets.
    pub fn new(alloc: Global) -> Mentioners {
        Mentioners {
            alloc,
            index: MentionIndex::new(alloc),
            has_all: true,
        }
    }

    /// Of these sheets.
    fn of(alloc: Global, sheets: &[Boxed<Sheet>]) -> Mentioners
        ensures { KnowsSheets result sheets.now }
    {
        let mut mentioners = Mentioners::new(alloc);
        for sheet in sheets {
            let sheet = sheet.as_ref();
            mentioners.note_from(sheet.id, &sheet.pool, 0);
        }
        mentioners
    }

    /// Whether it has all ids: where not, any sheet may mention anything.
    pub fn has_all(&self) -> bool
        ensures { result ≡ self.now.has_all }
    {
        self.has_all
    }

    /// The ids that it has of a topic.
    pub fn ids_with(&self, topic: u64) -> &[u32]
        ensures { result.now ≡ places_with self.now.index topic }
    {
        self.index.places_with(topic)
    }

    /// Notes what a formula of the sheet with this id mentions. Where there is no memory for that, it has not all from then on.
    fn note(&mut self, id: u32, formula: &Formula)
        ensures noted { KnowsFormula self.new id formula.now }
        ensures kept { KeepsKnown self.old self.new }
    {
        if self.index.note(id as usize, formula).is_err() {
            self.has_all = false;
        }
    }

    /// Notes what the formulas of that sheet mention, from this place on, from 0.
    pub fn note_from(&mut self, id: u32, pool: &Pool, from: usize)
        ensures noted { KnowsPool self.new id (drop from pool.now.formulas) }
        ensures kept { KeepsKnown self.old self.new }
    {
        for at in from..pool.len() {
            if let Some(formula) = pool.get(at) {
                self.note(id, formula);
            }
        }
    }

    /// Notes what the formulas of that sheet mention which become others.
    pub fn note_changes(&mut self, id: u32, changes: &[Replacement])
        ensures noted { AllByRecursion (λ change. KnowsFormula self.new id change.formula)
            changes.now }
        ensures kept { KeepsKnown self.old self.new }
    {
        for change in changes {
            self.note_again(id, &change.formula);
        }
    }

    /// Notes what a formula of that sheet mentions after it changed.
    fn note_again(&mut self, id: u32, formula: &Formula)
        ensures noted { KnowsFormula self.new id formula.now }
        ensures kept { KeepsKnown self.old self.new }
    {
        if self.index.note_again(id as usize, formula).is_err() {
            self.has_all = false;
        }
    }

    /// Is made anew of these sheets, where it lacks something or may have much too much.
    pub fn renew(&mut self, sheets: &[Boxed<Sheet>])
        ensures { KnowsSheets self.old sheets.now → KnowsSheets self.new sheets.now }
    {
        if !self.has_all || self.index.is_stale() {
            *self = Mentioners::of(self.alloc, sheets);
        }
    }
}
