//! Whether some formula of a pool passes a test.
ghost use Rattle.std.specs.Prelude.{◌≡◌, IfOk};
ghost use Rattle.std.specs.List.{list_any};
ghost use Rattle.ic_pool.specs.Mentioning.{passes_at};

use super::Pool;
use super::index::formula_in;
use crate::FormulaTest;
use crate::testing::has_passing;
use ic_laws::{Formula, OutOfMemory};
use std::alloc::Global;

impl Pool {
    /// Whether some of its formulas, whose words are looked up from the sheet with this id, or from none, passes a test. It
    /// looks at those that mention what the test is about.
    pub fn has_passing<T: FormulaTest>(
        &self,
        test: &T,
        scope: Option<u32>,
    ) -> Result<bool, OutOfMemory>
        ensures { IfOk result (λ has.
            has ≡ list_any (T.passing test.now scope) self.now.formulas) }
    {
        if !self.knows_mentions {
            return has_passing(self.alloc, &self.formulas, test, scope);
        }
        let (one, other) = test.topics();
        let places = self.mentions.places_with(one);
        if has_passing_at(self.alloc, &self.formulas, places, test, scope)? {
            return Ok(true);
        }
        let places = self.mentions.places_with(other);
        has_passing_at(self.alloc, &self.formulas, places, test, scope)
    }
}

/// Whether a formula passes a test that stands at one of these places.
fn has_passing_at<T: FormulaTest>(
    alloc: Global,
    formulas: &[Formula],
    places: &[u32],
    test: &T,
    scope: Option<u32>,
) -> Result<bool, OutOfMemory>
    ensures { IfOk result (λ has.
        has ≡ list_any (passes_at (T.passing test.now scope) formulas.now) places.now) }
{
    for at in places {
        if passes_at(alloc, formulas, *at as usize, test, scope)? {
            return Ok(true);
        }
    }
    Ok(false)
}

/// Whether there is a formula at a place, and it passes a test.
fn passes_at<T: FormulaTest>(
    alloc: Global,
    formulas: &[Formula],
    at: usize,
    test: &T,
    scope: Option<u32>,
) -> Result<bool, OutOfMemory>
    ensures { IfOk result (λ r. r ≡ passes_at (T.passing test.now scope) formulas.now at) }
{
    match formula_in(formulas, at) {
        Some(formula) => test.passes(alloc, scope, formula),
        None => Ok(false),
    }
}
