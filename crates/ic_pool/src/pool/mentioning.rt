//! The formulas that mention a sheet, and those that mention a definition.
ghost use Rattle.std.specs.Prelude.{◌≡◌, ◌&&◌, ◌||◌, [], ◌∷◌, ℕ, false, IfOk, OnOk, nat_eq};
ghost use Rattle.std.specs.BTreeSet.{contains};
ghost use Rattle.std.specs.Ordering.{nat_cmp};
ghost use Rattle.ic_laws.specs.Changes.{is_of_name, is_of_sheet};
ghost use Rattle.ic_laws.specs.declared.tree.Formula.{Formula};
ghost use Rattle.ic_pool.specs.MentionPlaces.{HasPassing};
ghost use Rattle.ic_pool.specs.Mentioning.{AreThosePassing, mentions_name, mentions_sheet, passes_at};
ghost use Rattle.ic_pool.specs.Mentions.{some_in};
ghost use Rattle.ic_pool.specs.Topics.{mentions_some};

use super::Pool;
use super::index::formula_in;
use crate::changes::{is_of_name, is_to_sheet};
use crate::mentions::{MentionTest, some_in};
use crate::topics::{folded_topic, sheet_topic};
use ic_laws::{Formula, NameKey, NameMention, OutOfMemory, SheetMention};
use std::alloc::Global;
use std::collections::BTreeSet;

/// A mention of the sheet with this id.
#[derive(Drop)]
struct OfSheet {
    id: u32,
}

impl MentionTest for OfSheet {
    ghost use Rattle.std.specs.Prelude.{false};
    ghost use Rattle.ic_laws.specs.Changes.{is_of_sheet};

    ghost is_sheet = { λ test mention. is_of_sheet test.id mention };

    ghost is_word = { λ test mention. false };

    ghost is_local = { λ test sheet mention. false };

    fn sheet(&self, mention: &SheetMention) -> bool {
        is_to_sheet(mention, self.id)
    }

    fn word(&self, _mention: &NameMention) -> bool {
        false
    }

    fn local(&self, _sheet: &SheetMention, _mention: &NameMention) -> bool {
        false
    }
}

/// A word that means the definition with this key.
#[derive(Drop)]
struct OfName<'k> {
    key: &'k NameKey,
}

impl<'k> MentionTest for OfName<'k> {
    ghost use Rattle.std.specs.Prelude.{false};
    ghost use Rattle.ic_laws.specs.Changes.{is_of_name};

    ghost is_sheet = { λ test mention. false };

    ghost is_word = { λ test mention. is_of_name test.key.now mention };

    ghost is_local = { λ test sheet mention. is_of_name test.key.now mention };

    fn sheet(&self, _mention: &SheetMention) -> bool {
        false
    }

    fn word(&self, mention: &NameMention) -> bool {
        is_of_name(self.key, mention)
    }

    fn local(&self, _sheet: &SheetMention, mention: &NameMention) -> bool {
        is_of_name(self.key, mention)
    }
}

/// Whether a formula mentions the sheet with this id.
pub fn mentions_sheet(formula: &Formula, id: u32) -> bool
    ensures { result ≡ mentions_sheet id formula.now }
{
    some_in(&OfSheet { id }, formula)
}

/// Whether a formula mentions the definition with this key.
pub fn mentions_name(formula: &Formula, key: &NameKey) -> bool
    ensures { result ≡ mentions_name key.now formula.now }
{
    some_in(&OfName { key }, formula)
}

impl Pool {
    /// The places of the formulas that mention the sheet with this id.
    pub fn places_of_sheet(&self, id: u32) -> Result<BTreeSet<usize>, OutOfMemory>
        ensures { IfOk result (AreThosePassing (mentions_sheet id) self.now.formulas) }
    {
        self.places_passing(&OfSheet { id }, sheet_topic(id))
    }

    /// The places of the formulas that mention the definition with this key.
    pub fn places_of_name(&self, key: &NameKey) -> Result<BTreeSet<usize>, OutOfMemory>
        ensures { IfOk result (AreThosePassing (mentions_name key.now) self.now.formulas) }
    {
        self.places_passing(&OfName { key }, folded_topic(key.name.as_str()))
    }

    /// The places of the formulas of which some mention passes a test, where each such mention has this topic.
    fn places_passing<T: MentionTest>(
        &self,
        test: &T,
        topic: u64,
    ) -> Result<BTreeSet<usize>, OutOfMemory>
        requires { (formula : Formula) → mentions_some (topic ∷ []) formula ≡ false
            → some_in (T.is_sheet test.now) (T.is_word test.now) (T.is_local test.now) formula
            ≡ false }
        ensures { IfOk result (AreThosePassing (some_in (T.is_sheet test.now)
            (T.is_word test.now) (T.is_local test.now)) self.now.formulas) }
    {
        let places = self.places_of(&[topic])?;
        passing_at(self.alloc, &self.formulas, &places, test)
    }
}

/// Those of these places at which a formula passes a test. None passes elsewhere.
fn passing_at<T: MentionTest>(
    alloc: Global,
    formulas: &[Formula],
    places: &[usize],
    test: &T,
) -> Result<BTreeSet<usize>, OutOfMemory>
    requires { HasPassing (some_in (T.is_sheet test.now) (T.is_word test.now)
        (T.is_local test.now)) places.now formulas.now }
    ensures { IfOk result (AreThosePassing (some_in (T.is_sheet test.now) (T.is_word test.now)
        (T.is_local test.now)) formulas.now) }
{
    let mut passing = BTreeSet::new(alloc);
    for at in places {
        put_passing(&mut passing, formulas, *at, test)?;
    }
    Ok(passing)
}

/// Puts a place in where its formula passes a test.
fn put_passing<T: MentionTest>(
    passing: &mut BTreeSet<usize>,
    formulas: &[Formula],
    at: usize,
    test: &T,
) -> Result<(), OutOfMemory>
    ensures { OnOk result ((k : ℕ) → contains nat_cmp passing.new k
        ≡ (contains nat_cmp passing.old k || (nat_eq k at && passes_at (some_in
        (T.is_sheet test.now) (T.is_word test.now) (T.is_local test.now)) formulas.now at))) }
{
    if passes_at(formulas, at, test) {
        passing.insert(at)?;
    }
    Ok(())
}

/// Whether there is a formula at a place, and it passes a test.
fn passes_at<T: MentionTest>(formulas: &[Formula], at: usize, test: &T) -> bool
    ensures { result ≡ passes_at (some_in (T.is_sheet test.now) (T.is_word test.now)
        (T.is_local test.now)) formulas.now at }
{
    match formula_in(formulas, at) {
        Some(formula) => some_in(test, formula),
        None => false,
    }
}
