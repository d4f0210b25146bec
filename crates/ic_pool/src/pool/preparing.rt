//! What a change will do to the formulas of a pool, told before any of them changes.
ghost use Rattle.std.specs.Prelude.{◌≡◌, ◌<◌, ◌≤◌, ◌+◌, IfOk, false, map, true};
ghost use Rattle.std.specs.List.{AllByRecursion};
ghost use Rattle.ic_pool.specs.MentionPlaces.{MentionsNone};
ghost use Rattle.ic_pool.specs.Mentions.{formula_after};
ghost use Rattle.ic_pool.specs.Remade.{LeavesUntouched, TouchesAbout, touched_from};
ghost use Rattle.ic_pool.specs.Rewrites.{FitsPool, ListsChanged, rewritten_by};
ghost use Rattle.ic_pool.specs.Topics.{SparesOthers};

use super::Pool;
use super::rewrites::{Rewrites, rewrites_at, rewrites_remade};
use crate::{BookChange, Remaking};
use ic_laws::OutOfMemory;

impl Pool {
    /// What a change will do to its formulas, whose words are looked up from the sheet with this id, or from none; all
    /// prepared before any of them changes. Where it has none, that takes neither a look nor memory.
    pub fn prepare<C: BookChange>(
        &self,
        change: &C,
        scope: Option<u32>,
    ) -> Result<Rewrites, OutOfMemory>
        ensures made { IfOk result (λ w. rewritten_by w self.now.formulas
            ≡ map (formula_after (C.change change.now) scope) self.now.formulas) }
        ensures listed { IfOk result (ListsChanged (C.change change.now) scope self.now.formulas) }
        ensures fits { IfOk result (λ w. FitsPool w self.now.formulas) }
    {
        if self.formulas.is_empty() {
            return Ok(Rewrites::new(self.alloc, false));
        }
        self.prepare_about(&[change.topic()], change, scope)
    }

    /// The same for a change that leaves each formula that mentions nothing with one of these topics.
    fn prepare_about<C: BookChange>(
        &self,
        topics: &[u64],
        change: &C,
        scope: Option<u32>,
    ) -> Result<Rewrites, OutOfMemory>
        requires { SparesOthers (C.change change.now) topics.now }
        ensures made { IfOk result (λ w. rewritten_by w self.now.formulas
            ≡ map (formula_after (C.change change.now) scope) self.now.formulas) }
        ensures listed { IfOk result (ListsChanged (C.change change.now) scope self.now.formulas) }
        ensures fits { IfOk result (λ w. FitsPool w self.now.formulas) }
    {
        if self.mentions_none(topics) {
            return Ok(Rewrites::new(self.alloc, false));
        }
        let places = self.places_of(topics)?;
        let keeps_keys = self.knows_rest && are_few(places.len(), self.formulas.len());
        rewrites_at(
            self.alloc,
            &self.formulas,
            &places,
            change,
            scope,
            keeps_keys,
        )
    }

    /// What becomes of its formulas that are made anew, if the rule leaves each that it doesn't touch.
    pub fn prepare_remade<R: Remaking>(
        &self,
        remaking: &R,
        scope: Option<u32>,
    ) -> Result<Rewrites, OutOfMemory>
        requires { AllByRecursion (LeavesUntouched (R.made remaking.now) scope) self.now.formulas }
        ensures made { IfOk result (λ w. rewritten_by w self.now.formulas
            ≡ map ((R.made remaking.now).becomes scope) self.now.formulas) }
        ensures listed { IfOk result (λ w. w.changes
            ≡ touched_from (R.made remaking.now) scope 0 self.now.formulas) }
        ensures fits { IfOk result (λ w. FitsPool w self.now.formulas) }
    {
        if self.formulas.is_empty() {
            return Ok(Rewrites::new(self.alloc, false));
        }
        let (one, other) = remaking.topics();
        self.remade_about(&[one, other], remaking, scope)
    }

    /// The same for a rule that touches no formula that mentions nothing with one of these topics.
    fn remade_about<R: Remaking>(
        &self,
        topics: &[u64],
        remaking: &R,
        scope: Option<u32>,
    ) -> Result<Rewrites, OutOfMemory>
        requires about { TouchesAbout (R.made remaking.now) topics.now }
        requires leaves { AllByRecursion (LeavesUntouched (R.made remaking.now) scope)
            self.now.formulas }
        ensures made { IfOk result (λ w. rewritten_by w self.now.formulas
            ≡ map ((R.made remaking.now).becomes scope) self.now.formulas) }
        ensures listed { IfOk result (λ w. w.changes
            ≡ touched_from (R.made remaking.now) scope 0 self.now.formulas) }
        ensures fits { IfOk result (λ w. FitsPool w self.now.formulas) }
    {
        if self.mentions_none(topics) {
            return Ok(Rewrites::new(self.alloc, false));
        }
        let places = self.places_of(topics)?;
        let keeps_keys = self.knows_rest && are_few(places.len(), self.formulas.len());
        rewrites_remade(
            self.alloc,
            &self.formulas,
            &places,
            remaking,
            scope,
            keeps_keys,
        )
    }

    /// Whether it is known that no formula mentions something with one of these topics. It takes no memory.
    fn mentions_none(&self, topics: &[u64]) -> bool
        ensures { result ≡ true → MentionsNone topics.now self.now.formulas }
    {
        if !self.knows_mentions {
            return false;
        }
        self.mentions.has_none(topics)
    }
}

/// Whether fewer than half of so many formulas are looked at. Only then it costs less to take the keys of those that change
/// out of a look-up, and to put their new ones in, than to make it anew.
fn are_few(looked_at: usize, count: usize) -> bool
    ensures few { result ≡ true → looked_at + looked_at < count }
    ensures many { result ≡ false → count ≤ looked_at + looked_at }
{
    looked_at < count - count / 2
}
