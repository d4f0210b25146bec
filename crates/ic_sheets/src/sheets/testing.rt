//! Whether some formula of the sheets passes a test.
ghost use Rattle.std.specs.Prelude.{◌≡◌, IfOk};
ghost use Rattle.std.specs.List.{list_any};
ghost use Rattle.ic_sheets.specs.Index.{AreAtIndexes};
ghost use Rattle.ic_sheets.specs.Tested.{passes_in, passes_with};

use super::Sheets;
use super::dangling::sheet_with;
use super::spots::Spots;
use crate::Sheet;
use ic_laws::{Boxed, OutOfMemory};
use ic_pool::FormulaTest;

impl Sheets {
    /// Whether some formula of a sheet passes a test. It looks at the sheets that may mention what the test is about.
    pub fn has_passing<T: FormulaTest>(&self, test: &T) -> Result<bool, OutOfMemory>
        ensures { IfOk result (λ has. has ≡ list_any (passes_in (T.passing test.now)) self.now) }
    {
        let (one, other) = test.topics();
        let ids = self.ids_about(&[one, other])?;
        has_passing_with(&self.list, &self.indexes, &ids, test)
    }
}

/// Whether some formula of a sheet passes a test that has one of these ids.
fn has_passing_with<T: FormulaTest>(
    sheets: &[Boxed<Sheet>],
    indexes: &Spots,
    ids: &[u32],
    test: &T,
) -> Result<bool, OutOfMemory>
    requires { AreAtIndexes indexes.now sheets.now }
    ensures { IfOk result (λ has.
        has ≡ list_any (passes_with (T.passing test.now) sheets.now) ids.now) }
{
    for id in ids {
        if passes_with(sheets, indexes, *id, test)? {
            return Ok(true);
        }
    }
    Ok(false)
}

/// Whether there is a sheet with this id, of which some formula passes a test.
fn passes_with<T: FormulaTest>(
    sheets: &[Boxed<Sheet>],
    indexes: &Spots,
    id: u32,
    test: &T,
) -> Result<bool, OutOfMemory>
    requires { AreAtIndexes indexes.now sheets.now }
    ensures { IfOk result (λ r. r ≡ passes_with (T.passing test.now) sheets.now id) }
{
    match sheet_with(sheets, indexes, id) {
        Some(sheet) => sheet.pool.has_passing(test, Some(sheet.id)),
        None => Ok(false),
    }
}
