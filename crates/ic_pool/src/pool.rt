ghost use Rattle.std.specs.Prelude.{◌≡◌, ◌≤◌, ◌+◌, ◌<◌, ◌&&◌, ◌++◌, List, [], ◌∷◌, None, false, true, length, option_map, IfOk, IfSome, IsOk, OnErr, OnOk, Some};
ghost use Rattle.std.specs.List.{slice_get};
ghost use Rattle.ic_laws.specs.declared.tree.Formula.{Formula};
ghost use Rattle.ic_pool.specs.Code.{code};
ghost use Rattle.ic_pool.specs.MentionPlaces.{AscendFrom, HasPassing};
ghost use Rattle.ic_pool.specs.Rewrites.{FitsPool, changes_nothing, rewritten_by};
ghost use Rattle.ic_pool.specs.Pool.{EndsWithNew, IsPlaced, dangling_places, first_place};
ghost use Rattle.ic_pool.specs.Topics.{mentions_some};

mod index;
mod mentioning;
mod preparing;
mod rewrites;
mod testing;

use crate::look_up::LookUp;
use crate::mention_index::MentionIndex;
use crate::same::are_same;
use crate::{HashedKey, Steps, copy_formula, key_of};
use ic_laws::{Formula, OutOfMemory};
use index::{all_places, dangling_in, dangling_weight, index_of, put_late, renewed};
pub use mentioning::{mentions_name, mentions_sheet};
pub use rewrites::{Replacement, Rewrites};
use std::alloc::Global;
use std::collections::LinkedList;
use std::marker::{Brand, Model};
use std::sync::ledger::{Blank, Ledger};

/// The formulas of one sheet, each in its place, from 0.
pub struct Pool {
    alloc: Global,
    formulas: Vec<Formula>,
    /// How many formulas mention something that wasn't found.
    dangling: usize,
    /// Where they mention what, so that a change looks at those alone that mention what it is about.
    mentions: MentionIndex,
    /// Whether that has each formula.
    knows_mentions: bool,
    /// Where it is whole: for each formula its first place, by its key. Where it isn't, a change has taken keys out, and
    /// the places of the formulas that it made are late: the next write puts their keys in. Or a change that looked at most
    /// formulas has given it up: the next write makes it anew.
    index: LookUp,
    is_whole: bool,
    /// The place where `place` found or put a formula last, while it is the first one of an equal formula.
    last: Option<usize>,
    /// Whether the look-up has all formulas but those at the late places.
    knows_rest: bool,
    late: LinkedList<usize>,
}

impl Drop for Pool {
    fn drop(self) {
        let Self {
            alloc,
            formulas,
            index,
            is_whole: _,
            last: _,
            knows_rest: _,
            late,
            mentions,
            knows_mentions: _,
            dangling: _,
        } = self;
        drop(alloc);
        drop(formulas);
        drop(index);
        drop(late);
        drop(mentions);
    }
}

impl Model for Pool {
    ghost use Rattle.ic_pool.specs.Kept.{IsKept};
    ghost use Rattle.ic_pool.specs.Pool.{PoolState};

    ghost Value = { PoolState };

    ghost use Rattle.std.specs.Coded.{codes};
    ghost use Rattle.ic_laws.specs.contracts.tree.Formula as formula;

    ghost coded = { Prim.hlevel (codes, formula.the_row.coded) };

    ghost view = { λ p. record { formulas = p.formulas.items; is_whole = p.is_whole } };

    ghost invariant = { λ p. IsKept p.index p.is_whole p.last p.knows_rest p.late p.mentions p.knows_mentions p.dangling p.formulas.items };
}

impl Pool {
    /// No formulas. Its look-up is whole.
    pub fn new(alloc: Global) -> Pool
        ensures formulas { result.formulas ≡ [] }
        ensures whole { result.is_whole ≡ true }
    {
        Pool {
            alloc,
            formulas: Vec::new(alloc),
            index: LookUp::new(alloc),
            is_whole: true,
            last: None,
            knows_rest: true,
            late: LinkedList::new(alloc),
            mentions: MentionIndex::new(alloc),
            knows_mentions: true,
            dangling: 0,
        }
    }

    /// These formulas in their places, equal ones too. Its look-up has none of them: the next write makes it.
    pub fn from_formulas(alloc: Global, formulas: Vec<Formula>) -> Result<Pool, OutOfMemory>
        ensures { IfOk result (λ p. p
            ≡ record { formulas = formulas.items; is_whole = false }) }
    {
        let mentions = MentionIndex::of(alloc, &formulas)?;
        let dangling = dangling_in(&formulas);
        Ok(Pool {
            alloc,
            formulas,
            index: LookUp::new(alloc),
            is_whole: false,
            last: None,
            knows_rest: false,
            late: LinkedList::new(alloc),
            mentions,
            knows_mentions: true,
            dangling,
        })
    }

    /// How many formulas there are.
    pub fn len(&self) -> usize
        ensures { result ≡ length self.now.formulas }
    {
        self.formulas.len()
    }

    /// The formula at an index, from 0. None past the end.
    pub fn get(&self, at: usize) -> Option<&Formula>
        ensures { option_map (λ f. f.now) result ≡ slice_get self.now.formulas at }
    {
        self.formulas.get(at)
    }

    /// Whether its look-up knows each formula, as `place` needs it.
    pub fn is_whole(&self) -> bool
        ensures { result ≡ self.now.is_whole }
    {
        self.is_whole
    }

    /// How many formulas mention something that wasn't found.
    pub fn dangling_count(&self) -> usize
        ensures { result ≡ length (dangling_places self.now.formulas) }
    {
        self.dangling
    }

    /// Makes its look-up whole, in one step for each formula that it lacks, at most one for each formula; where it is whole
    /// already, in none and without memory. `OutOfMemory` leaves it as it was.
    pub fn make_whole<L: Ledger>(&mut self, steps: &mut Steps<L>) -> Result<(), OutOfMemory>
        ensures ok { OnOk result (self.new ≡ record self.old { is_whole = true }) }
        ensures err { OnErr result (self.new ≡ self.old) }
        ensures ready { self.old.is_whole ≡ true → IsOk result }
        ensures still { self.old.is_whole ≡ true → steps.new ≡ steps.old }
        ensures cost { steps.new ≤ steps.old + length self.old.formulas }
        ensures grows { steps.old ≤ steps.new }
    {
        if self.is_whole {
            return Ok(());
        }
        if self.knows_rest && self.late.len() <= self.formulas.len() {
            put_late(
                self.alloc,
                &self.formulas,
                &mut self.index,
                &mut self.late,
                steps,
            )?;
            self.is_whole = true;
            return Ok(());
        }
        self.make_anew(steps)
    }

    /// Makes its look-up whole from nothing, in one step for each formula. `OutOfMemory` leaves it as it was.
    fn make_anew<L: Ledger>(&mut self, steps: &mut Steps<L>) -> Result<(), OutOfMemory>
        ensures ok { OnOk result (self.new ≡ record self.old { is_whole = true }) }
        ensures err { OnErr result (self.new ≡ self.old) }
        ensures cost { steps.new ≤ steps.old + length self.old.formulas }
        ensures grows { steps.old ≤ steps.new }
    {
        self.index = index_of(self.alloc, &self.formulas, steps)?;
        self.late.clear();
        self.knows_rest = true;
        self.is_whole = true;
        Ok(())
    }

    /// The same for a caller that counts no steps.
    pub fn make_whole_uncounted(&mut self) -> Result<(), OutOfMemory>
        ensures ok { OnOk result (self.new ≡ record self.old { is_whole = true }) }
        ensures err { OnErr result (self.new ≡ self.old) }
        ensures ready { self.old.is_whole ≡ true → IsOk result }
    {
        self.make_whole_in::<Brand>(Blank::new(1))
    }

    /// The same with a count of its own, which this blank names.
    fn make_whole_in<L: Ledger>(&mut self, blank: Blank) -> Result<(), OutOfMemory>
        requires name { blank.name ≡ L.name }
        requires parts { blank.parts ≡ L.parts }
        requires some { 0 < blank.parts }
        ensures ok { OnOk result (self.new ≡ record self.old { is_whole = true }) }
        ensures err { OnErr result (self.new ≡ self.old) }
        ensures ready { self.old.is_whole ≡ true → IsOk result }
    {
        let mut steps = Steps::<L>::new(blank);
        self.make_whole(&mut steps)
    }

    /// The first place of an equal formula; where there is none, the formula is put at the end. `OutOfMemory` changes
    /// nothing.
    pub fn place(&mut self, formula: Formula) -> Result<usize, OutOfMemory>
        requires { self.old.is_whole ≡ true }
        ensures ok { IfOk result (λ at. IsPlaced formula at self.old.formulas self.new.formulas) }
        ensures within { IfOk result (λ at. at < length self.new.formulas) }
        ensures whole { OnOk result (self.new.is_whole ≡ true) }
        ensures err { OnErr result (self.new ≡ self.old) }
    {
        if let Some(at) = self.met_last(&formula) {
            return Ok(at);
        }
        let key = key_of(self.alloc, &formula)?;
        let at = self.place_by(key, formula)?;
        self.last = Some(at);
        Ok(at)
    }

    /// The place where `place` found or put a formula last, if this one is seen to equal that. A formula that is filled down or
    /// put into many cells is mostly found here, without its key.
    fn met_last(&self, formula: &Formula) -> Option<usize>
        ensures { IfSome result (λ at.
            first_place (code formula.now) self.now.formulas ≡ Some at) }
    {
        let at = self.last?;
        match self.get(at) {
            Some(other) if are_same(formula, other) => Some(at),
            _ => None,
        }
    }

    /// The same for a formula that stays its owner's: where there is no equal one, a copy is put at the end.
    pub fn place_copy(&mut self, formula: &Formula) -> Result<usize, OutOfMemory>
        requires { self.old.is_whole ≡ true }
        ensures ok { IfOk result (λ at. IsPlaced formula.now at self.old.formulas
            self.new.formulas) }
        ensures within { IfOk result (λ at. at < length self.new.formulas) }
        ensures whole { OnOk result (self.new.is_whole ≡ true) }
        ensures err { OnErr result (self.new ≡ self.old) }
    {
        let key = key_of(self.alloc, formula)?;
        let found = self.place_of(&key)?;
        match found {
            Some(at) => Ok(at),
            None => {
                let copy = copy_formula(self.alloc, formula)?;
                self.place_by(key, copy)
            }
        }
    }

    /// Takes its last formula out again, where its key is this and no other formula has it. It takes no memory.
    pub fn take_back(&mut self, key: &HashedKey)
        requires whole { self.old.is_whole ≡ true }
        requires last { EndsWithNew key.now self.old.formulas }
        ensures formulas { (formula : Formula) (before : List Formula)
            → self.old.formulas ≡ before ++ formula ∷ [] → self.new.formulas ≡ before }
        ensures whole { self.new.is_whole ≡ true }
    {
        if let Some(formula) = self.formulas.pop() {
            self.last = None;
            self.index.take_out(key, self.formulas.len());
            self.dangling -= dangling_weight(&formula);
        }
    }

    /// The places of the formulas that mention something with one of these topics, and maybe others, each once, in ascending
    /// order.
    fn places_of(&self, topics: &[u64]) -> Result<Vec<usize>, OutOfMemory>
        ensures ascend { IfOk result (λ places. AscendFrom 0 places.items) }
        ensures all { IfOk result (λ places.
            HasPassing (mentions_some topics.now) places.items self.now.formulas) }
    {
        if self.knows_mentions {
            self.mentions.places_of(topics)
        } else {
            all_places(self.alloc, self.formulas.len())
        }
    }

    /// Rewrites its formulas, each in its place, also where two become equal. Where some formula becomes another the
    /// look-up lacks those that did, or all, where the change looked at half of them or more, until `make_whole` is called;
    /// else it stays. It needs no memory: where there is none for the index by mention, later changes look at all formulas.
    pub fn apply(&mut self, rewrites: Rewrites)
        requires { FitsPool rewrites self.old.formulas }
        ensures formulas { self.new.formulas ≡ rewritten_by rewrites self.old.formulas }
        ensures whole { self.new.is_whole ≡ (self.old.is_whole && changes_nothing rewrites) }
    {
        if !rewrites.is_empty() {
            self.rewrite(rewrites);
        }
    }

    /// The same where some formula becomes another: its key goes out of the look-up, and its place is late. Where no keys are
    /// kept, the look-up is given up.
    fn rewrite(&mut self, mut rewrites: Rewrites)
        requires fits { FitsPool rewrites self.old.formulas }
        requires some { changes_nothing rewrites ≡ false }
        ensures formulas { self.new.formulas ≡ rewritten_by rewrites self.old.formulas }
        ensures whole { self.new.is_whole ≡ (self.old.is_whole && changes_nothing rewrites) }
    {
        self.knows_rest &= rewrites.take_out(self.alloc, &mut self.index, &mut self.late);
        self.is_whole = false;
        self.last = None;
        self.knows_mentions &= rewrites.note_in(&mut self.mentions).is_ok();
        self.dangling = rewrites.put(&mut self.formulas, self.dangling);
        self.knows_mentions = renewed(
            self.alloc,
            &self.formulas,
            &mut self.mentions,
            self.knows_mentions,
        );
    }

    /// The first place of a formula with this key.
    fn place_of(&self, key: &HashedKey) -> Result<Option<usize>, OutOfMemory>
        requires { self.now.is_whole ≡ true }
        ensures { IfOk result (λ place. place ≡ first_place key.now self.now.formulas) }
    {
        self.index.find(self.alloc, &self.formulas, key)
    }

    /// The first place of a formula with this key, which is this formula's; where there is none, it is put at the end. One
    /// that is met by its hash is found by its key from then on. Where there is no memory for the index by mention alone, later
    /// changes look at all formulas; what else may fail comes before the first change.
    fn place_by(&mut self, key: HashedKey, formula: Formula) -> Result<usize, OutOfMemory>
        requires whole { self.old.is_whole ≡ true }
        requires its { key ≡ code formula }
        ensures first { IfOk result (λ at. first_place key self.new.formulas ≡ Some at) }
        ensures ok { IfOk result (λ at. IsPlaced formula at self.old.formulas self.new.formulas) }
        ensures within { IfOk result (λ at. at < length self.new.formulas) }
        ensures whole { OnOk result (self.new.is_whole ≡ true) }
        ensures err { OnErr result (self.new ≡ self.old) }
    {
        if let Some(at) = self.index.kept(&key) {
            return Ok(at);
        }
        self.formulas.reserve(1)?;
        let at = self.formulas.len();
        if let Some(other) = self.index.meet_or_put(self.alloc, &self.formulas, key, at)? {
            return Ok(other);
        }
        let weight = dangling_weight(&formula);
        self.knows_mentions &= self.mentions.note(at, &formula).is_ok();
        self.formulas.push_reserved(formula);
        self.dangling += weight;
        Ok(at)
    }
}
