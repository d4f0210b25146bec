ghost use Rattle.std.specs.Prelude.{◌≡◌, ◌<◌, ◌++◌, [], ◌∷◌, true, false, is_some, length, map, set, IfOk, OnOk};
ghost use Rattle.std.specs.List.{AllByRecursion};
ghost use Rattle.std.specs.Option.{unwrap_or};
ghost use Rattle.ic_laws.specs.declared.tree.Formula.{Formula};
ghost use Rattle.ic_pool.specs.Code.{code};
ghost use Rattle.ic_pool.specs.LookUp.{IsEmpty};
ghost use Rattle.ic_pool.specs.MentionPlaces.{AscendFrom, HasAt, HasPassing, KeepsAll};
ghost use Rattle.ic_pool.specs.Mentions.{formula_after, is_changed_by};
ghost use Rattle.ic_pool.specs.Pool.{dangling_count};
ghost use Rattle.ic_pool.specs.Remade.{LeavesUntouched, touched_from};
ghost use Rattle.ic_pool.specs.Rewrites.{AreOut, FitsPool, IsNoted, IsNotedAt, ListsChanged, changed_by, changes_nothing, rewritten_by};
ghost use Rattle.ic_pool.specs.Topics.{topics_in};

use super::index::{dangling_weight, formula_in};
use crate::look_up::LookUp;
use crate::mention_index::MentionIndex;
use crate::{BookChange, HashedKey, Remaking, changed_formula, key_of, remade_formula};
use ic_laws::{Formula, OutOfMemory};
use std::alloc::Global;
use std::collections::LinkedList;
use std::marker::Model;

/// A formula that becomes another.
pub struct Replacement {
    /// Where it stands, from 0.
    pub at: usize,
    /// What it becomes.
    pub formula: Formula,
}

impl Drop for Replacement {
    fn drop(self) {
        let Self { at: _, formula } = self;
        drop(formula);
    }
}

impl Replacement {
    /// Puts the formula at its place, and answers how many then mention something that isn't found, of so many before.
    fn put(self, formulas: &mut [Formula], dangling: usize) -> usize
        requires within { self.at < length formulas.old }
        requires counted { dangling ≡ dangling_count formulas.old }
        ensures formulas { formulas.new ≡ set formulas.old self.at self.formula }
        ensures counted { result ≡ dangling_count formulas.new }
    {
        let Self { at, formula } = self;
        let others = dangling - dangling_weight(&formulas[at]);
        let weight = dangling_weight(&formula);
        formulas[at] = formula;
        others + weight
    }
}

/// The key of a formula that becomes another.
#[derive(Drop)]
struct OldKey {
    /// Where the formula stands, from 0.
    at: usize,
    /// The key that it has before.
    key: HashedKey,
}

/// What is prepared for a pool before its formulas are rewritten, so that the rewriting itself can't fail.
pub struct Rewrites {
    changes: Vec<Replacement>,
    /// Whether the pool's look-up stays for the other formulas; else it is given up, and the next two lists stay empty.
    keeps_keys: bool,
    /// The places of the changes, as a list that a pool takes over without memory.
    places: LinkedList<usize>,
    /// The keys that the changed formulas had, in the order of the changes.
    old_keys: Vec<OldKey>,
}

impl Drop for Rewrites {
    fn drop(self) {
        let Self {
            changes,
            keeps_keys: _,
            places,
            old_keys,
        } = self;
        drop(changes);
        drop(places);
        drop(old_keys);
    }
}

impl Model for Rewrites {
    ghost use Rattle.ic_pool.specs.Rewrites.{RewritesState};

    ghost Value = { RewritesState };

    ghost use Rattle.std.specs.Coded.{codes};
    ghost use Rattle.ic_laws.specs.contracts.tree.Formula as formula;

    ghost coded = { Prim.hlevel (codes, formula.the_row.coded) };

    ghost view = { λ w. record { changes = w.changes.items; keeps_keys = w.keeps_keys; places = w.places; old_keys = w.old_keys.items } };
}

impl Rewrites {
    /// Whether no formula becomes another.
    pub fn is_empty(&self) -> bool
        ensures { result ≡ changes_nothing self.now }
    {
        self.changes.is_empty()
    }

    /// The formulas that become others, by their places.
    pub fn changes(&self) -> &[Replacement]
        ensures { result.now ≡ self.now.changes }
    {
        &self.changes
    }

    /// Takes the changed formulas out of a look-up by the keys that they had, puts their places behind the late ones, and
    /// answers whether it did both, as it does for lists of fewer than 2^63 places. Where no keys are kept, it gives up the
    /// look-up and the late places. It takes no memory.
    pub(super) fn take_out(
        &mut self,
        alloc: Global,
        index: &mut LookUp,
        late: &mut LinkedList<usize>,
    ) -> bool
        ensures changes { self.new.changes ≡ self.old.changes }
        ensures out { self.old.keeps_keys ≡ true → AreOut self.old.old_keys index.old index.new }
        ensures given_up { self.old.keeps_keys ≡ false → IsEmpty index.new }
        ensures forgotten { self.old.keeps_keys ≡ false → late.new ≡ [] }
        ensures kept { result ≡ true → self.old.keeps_keys ≡ true }
        ensures moved { result ≡ true → late.new ≡ late.old ++ self.old.places }
    {
        if !self.keeps_keys {
            *index = LookUp::new(alloc);
            late.clear();
            return false;
        }
        remove_keys(&self.old_keys, index);
        late.append(&mut self.places).is_ok()
    }

    /// Notes what the changed formulas will mention.
    pub(super) fn note_in(&self, mentions: &mut MentionIndex) -> Result<(), OutOfMemory>
        ensures noted { OnOk result (AllByRecursion (λ change. HasAt mentions.new change.at
            (topics_in change.formula)) self.now.changes) }
        ensures kept { KeepsAll mentions.old mentions.new }
    {
        note_all(&self.changes, mentions)
    }

    /// Makes the changes, and answers how many formulas then mention something that isn't found, of so many before.
    pub(super) fn put(self, formulas: &mut [Formula], dangling: usize) -> usize
        requires within { AllByRecursion (λ change. change.at < length formulas.old) self.changes }
        requires counted { dangling ≡ dangling_count formulas.old }
        ensures formulas { formulas.new ≡ rewritten_by self formulas.old }
        ensures counted { result ≡ dangling_count formulas.new }
    {
        let Rewrites {
            changes,
            keeps_keys: _,
            places,
            old_keys,
        } = self;
        drop(places);
        drop(old_keys);
        put_all(formulas, changes, dangling)
    }

    /// No change. Whether keys will be kept is settled here.
    pub(super) fn new(alloc: Global, keeps_keys: bool) -> Rewrites
        ensures changes { result.changes ≡ [] }
        ensures keeps { result.keeps_keys ≡ keeps_keys }
        ensures places { result.places ≡ [] }
        ensures keys { result.old_keys ≡ [] }
    {
        Rewrites {
            changes: Vec::new(alloc),
            keeps_keys,
            places: LinkedList::new(alloc),
            old_keys: Vec::new(alloc),
        }
    }

    /// Looks at the formula at a place.
    fn note<C: BookChange>(
        &mut self,
        alloc: Global,
        change: &C,
        scope: Option<u32>,
        at: usize,
        formula: &Formula,
    ) -> Result<(), OutOfMemory>
        ensures { OnOk result (IsNoted at formula.now
            (formula_after (C.change change.now) scope formula.now)
            (is_changed_by (C.change change.now) scope formula.now) self.old self.new) }
    {
        let becomes = changed_formula(alloc, change, scope, formula)?;
        self.note_becomes(alloc, at, formula, becomes)
    }

    /// The same where it may be made anew, if the rule leaves it where it doesn't touch it.
    fn note_remade<R: Remaking>(
        &mut self,
        alloc: Global,
        remaking: &R,
        scope: Option<u32>,
        at: usize,
        formula: &Formula,
    ) -> Result<(), OutOfMemory>
        requires { LeavesUntouched (R.made remaking.now) scope formula.now }
        ensures { OnOk result (IsNoted at formula.now
            ((R.made remaking.now).becomes scope formula.now)
            ((R.made remaking.now).touches scope formula.now) self.old self.new) }
    {
        let becomes = remade_formula(alloc, remaking, scope, formula)?;
        self.note_becomes(alloc, at, formula, becomes)
    }

    /// Puts behind the others what the formula at a place becomes, or that it stays.
    fn note_becomes(
        &mut self,
        alloc: Global,
        at: usize,
        formula: &Formula,
        becomes: Option<Formula>,
    ) -> Result<(), OutOfMemory>
        ensures { OnOk result (IsNoted at formula.now (unwrap_or becomes formula.now)
            (is_some becomes) self.old self.new) }
    {
        match becomes {
            None => Ok(()),
            Some(becomes) => {
                self.note_old_key(alloc, at, formula)?;
                self.note_change(at, becomes)
            }
        }
    }

    /// Puts the place and the key of a formula behind the others, where keys are kept.
    fn note_old_key(
        &mut self,
        alloc: Global,
        at: usize,
        formula: &Formula,
    ) -> Result<(), OutOfMemory>
        ensures changes { self.new.changes ≡ self.old.changes }
        ensures keeps { self.new.keeps_keys ≡ self.old.keeps_keys }
        ensures listed { OnOk result (self.old.keeps_keys ≡ true
            → self.new.places ≡ self.old.places ++ at ∷ []) }
        ensures key { OnOk result (self.old.keeps_keys ≡ true → self.new.old_keys
            ≡ self.old.old_keys ++ record { at = at; key = code formula.now } ∷ []) }
    {
        if !self.keeps_keys {
            return Ok(());
        }
        let key = key_of(alloc, formula)?;
        self.old_keys.push(OldKey { at, key })?;
        self.places.push_back(at)?;
        Ok(())
    }

    /// Looks at the formula at a place of these, where there is one.
    fn note_at<C: BookChange>(
        &mut self,
        alloc: Global,
        change: &C,
        scope: Option<u32>,
        formulas: &[Formula],
        at: usize,
    ) -> Result<(), OutOfMemory>
        ensures { OnOk result (IsNotedAt (formula_after (C.change change.now) scope)
            (is_changed_by (C.change change.now) scope) formulas.now at self.old self.new) }
    {
        match formula_in(formulas, at) {
            Some(formula) => self.note(alloc, change, scope, at, formula),
            None => Ok(()),
        }
    }

    /// The same where it may be made anew, if the rule leaves each of these that it doesn't touch.
    fn note_remade_at<R: Remaking>(
        &mut self,
        alloc: Global,
        remaking: &R,
        scope: Option<u32>,
        formulas: &[Formula],
        at: usize,
    ) -> Result<(), OutOfMemory>
        requires { AllByRecursion (LeavesUntouched (R.made remaking.now) scope) formulas.now }
        ensures { OnOk result (IsNotedAt ((R.made remaking.now).becomes scope)
            ((R.made remaking.now).touches scope) formulas.now at self.old self.new) }
    {
        match formula_in(formulas, at) {
            Some(formula) => self.note_remade(alloc, remaking, scope, at, formula),
            None => Ok(()),
        }
    }

    /// Puts a change behind the others.
    fn note_change(&mut self, at: usize, formula: Formula) -> Result<(), OutOfMemory>
        ensures { OnOk result (self.new ≡ record self.old {
          changes = self.old.changes ++ record { at = at; formula = formula } ∷ [];
        }) }
    {
        self.changes.push(Replacement { at, formula })?;
        Ok(())
    }
}

/// What a change does to formulas whose words are looked up from the sheet with this id, or from none. Those that it changes
/// stand at some of these places, which ascend. The keys that they had are kept where `keeps_keys` is true.
pub fn rewrites_at<C: BookChange>(
    alloc: Global,
    formulas: &[Formula],
    places: &[usize],
    change: &C,
    scope: Option<u32>,
    keeps_keys: bool,
) -> Result<Rewrites, OutOfMemory>
    requires ascend { AscendFrom 0 places.now }
    requires places { HasPassing (is_changed_by (C.change change.now) scope) places.now
        formulas.now }
    ensures made { IfOk result (λ w. rewritten_by w formulas.now
        ≡ map (formula_after (C.change change.now) scope) formulas.now) }
    ensures listed { IfOk result (ListsChanged (C.change change.now) scope formulas.now) }
    ensures fits { IfOk result (λ w. FitsPool w formulas.now) }
{
    let mut rewrites = Rewrites::new(alloc, keeps_keys);
    for at in places {
        rewrites.note_at(alloc, change, scope, formulas, *at)?;
    }
    Ok(rewrites)
}

/// What becomes of formulas that are made anew, if the rule leaves each that it doesn't touch. Those that it touches stand
/// at some of these places, which ascend. The keys that they had are kept where `keeps_keys` is true.
pub fn rewrites_remade<R: Remaking>(
    alloc: Global,
    formulas: &[Formula],
    places: &[usize],
    remaking: &R,
    scope: Option<u32>,
    keeps_keys: bool,
) -> Result<Rewrites, OutOfMemory>
    requires leaves { AllByRecursion (LeavesUntouched (R.made remaking.now) scope) formulas.now }
    requires ascend { AscendFrom 0 places.now }
    requires places { HasPassing ((R.made remaking.now).touches scope) places.now formulas.now }
    ensures made { IfOk result (λ w. rewritten_by w formulas.now
        ≡ map ((R.made remaking.now).becomes scope) formulas.now) }
    ensures listed { IfOk result (λ w. w.changes
        ≡ touched_from (R.made remaking.now) scope 0 formulas.now) }
    ensures fits { IfOk result (λ w. FitsPool w formulas.now) }
{
    let mut rewrites = Rewrites::new(alloc, keeps_keys);
    for at in places {
        rewrites.note_remade_at(alloc, remaking, scope, formulas, *at)?;
    }
    Ok(rewrites)
}

/// Notes what these formulas will mention.
fn note_all(changes: &[Replacement], mentions: &mut MentionIndex) -> Result<(), OutOfMemory>
    ensures noted { OnOk result (AllByRecursion (λ change. HasAt mentions.new change.at
        (topics_in change.formula)) changes.now) }
    ensures kept { KeepsAll mentions.old mentions.new }
{
    for change in changes {
        mentions.note_again(change.at, &change.formula)?;
    }
    Ok(())
}

/// Takes these keys out of a look-up, each with its place.
fn remove_keys(olds: &[OldKey], index: &mut LookUp)
    ensures { AreOut olds.now index.old index.new }
{
    for old in olds {
        index.take_out(&old.key, old.at);
    }
}

/// Puts each changed formula at its place, and answers how many then mention something that isn't found, of so many before.
fn put_all(formulas: &mut [Formula], changes: Vec<Replacement>, dangling: usize) -> usize
    requires within { AllByRecursion (λ change. change.at < length formulas.old) changes.items }
    requires counted { dangling ≡ dangling_count formulas.old }
    ensures formulas { formulas.new ≡ changed_by changes.items formulas.old }
    ensures counted { result ≡ dangling_count formulas.new }
{
    let mut count = dangling;
    for change in changes {
        count = change.put(formulas, count);
    }
    count
}
