//! Tests of formulas by a rule of the caller's.
ghost use Rattle.std.specs.Prelude.{◌≡◌, [], ◌∷◌, IfOk};
ghost use Rattle.std.specs.List.{list_any};
ghost use Rattle.ic_pool.specs.Tested.{PassesAbout, Test};

use ic_laws::{Formula, OutOfMemory};
use std::alloc::Global;

/// A test of formulas, each by itself, which may take memory.
pub trait FormulaTest {
    /// The formulas that pass.
    ghost passing: { Self → Test };

    /// Two topics of which each formula that passes mentions one.
    fn topics(&self) -> (u64, u64)
        ensures { PassesAbout (passing self.now) (result.0 ∷ result.1 ∷ []) };

    /// Whether a formula passes whose words are looked up from the sheet with this id, or from none.
    fn passes(
        &self,
        alloc: Global,
        scope: Option<u32>,
        formula: &Formula,
    ) -> Result<bool, OutOfMemory>
        ensures { IfOk result (λ r. r ≡ passing self.now scope formula.now) };
}

/// Whether one of these formulas passes a test.
pub(crate) fn has_passing<T: FormulaTest>(
    alloc: Global,
    formulas: &[Formula],
    test: &T,
    scope: Option<u32>,
) -> Result<bool, OutOfMemory>
    ensures { IfOk result (λ has. has ≡ list_any (T.passing test.now scope) formulas.now) }
{
    for formula in formulas {
        if test.passes(alloc, scope, formula)? {
            return Ok(true);
        }
    }
    Ok(false)
}
