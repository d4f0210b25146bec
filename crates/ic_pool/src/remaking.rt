//! Formulas that are made anew by a rule of the caller's.
ghost use Rattle.std.specs.Prelude.{◌≡◌, [], ◌∷◌, IfOk};
ghost use Rattle.ic_pool.specs.Remade.{Remade, TouchesAbout, touched_becomes};

use ic_laws::{Formula, OutOfMemory};
use std::alloc::Global;

/// A rule by which formulas are made anew, each by itself.
pub trait Remaking {
    /// The formulas that it touches, and what they become.
    ghost made: { Self → Remade };

    /// Two topics of which each formula mentions one that it touches.
    fn topics(&self) -> (u64, u64)
        ensures { TouchesAbout (made self.now) (result.0 ∷ result.1 ∷ []) };

    /// Whether it touches a formula whose words are looked up from the sheet with this id, or from none.
    fn touches(&self, scope: Option<u32>, formula: &Formula) -> bool
        ensures { result ≡ (made self.now).touches scope formula.now };

    /// What it makes of a formula whose words are looked up from the sheet with this id, or from none.
    fn remade(
        &self,
        alloc: Global,
        scope: Option<u32>,
        formula: &Formula,
    ) -> Result<Formula, OutOfMemory>
        ensures { IfOk result (λ f. f ≡ (made self.now).becomes scope formula.now) };
}

/// What a formula becomes where it is made anew, if its words are looked up from the sheet with this id, or from none. None
/// exactly where the rule doesn't touch it: then nothing is copied.
pub fn remade_formula<R: Remaking>(
    alloc: Global,
    remaking: &R,
    scope: Option<u32>,
    formula: &Formula,
) -> Result<Option<Formula>, OutOfMemory>
    ensures { IfOk result (λ r. r ≡ touched_becomes (R.made remaking.now) scope formula.now) }
{
    if !remaking.touches(scope, formula) {
        return Ok(None);
    }
    Ok(Some(remaking.remade(alloc, scope, formula)?))
}
