//! Whether some body of the definitions passes a test.
ghost use Rattle.std.specs.Prelude.{◌≡◌, IfOk};
ghost use Rattle.std.specs.List.{list_any};
ghost use Rattle.ic_definitions.specs.Tested.{passes_body};

use super::Definitions;
use crate::Definition;
use ic_laws::OutOfMemory;
use ic_pool::FormulaTest;
use std::alloc::Global;

impl Definitions {
    /// Whether some body passes a test. Where none mentions what the test is about it looks at none.
    pub fn has_passing<T: FormulaTest>(&self, test: &T) -> Result<bool, OutOfMemory>
        ensures { IfOk result (λ has.
            has ≡ list_any (passes_body (T.passing test.now)) self.now) }
    {
        if !self.may_mention_either(test.topics()) {
            return Ok(false);
        }
        has_passing_body(self.alloc, &self.list, test)
    }
}

/// Whether the body of one of these definitions passes a test.
fn has_passing_body<T: FormulaTest>(
    alloc: Global,
    definitions: &[Definition],
    test: &T,
) -> Result<bool, OutOfMemory>
    ensures { IfOk result (λ has.
        has ≡ list_any (passes_body (T.passing test.now)) definitions.now) }
{
    for definition in definitions {
        if test.passes(alloc, definition.scope(), definition.body())? {
            return Ok(true);
        }
    }
    Ok(false)
}
