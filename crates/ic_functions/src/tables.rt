ghost use Rattle.std.specs.Prelude.{◌≡◌, IfOk, length};
ghost use Rattle.ic_tables.specs.Sample.{sample};
ghost use Rattle.ic_functions.specs.All.{all_functions, first_functions};

use crate::columns::kinds;
use crate::languages::languages;
use crate::places::{locales, zones};
use ic_laws::OutOfMemory;
use ic_tables::{Tables, TablesError};
use std::alloc::Global;

/// The tables of 497 functions in five languages, with five locales (`en`, `es`, `fr`, `de`, `it`) and three time zones.
pub fn all_tables(alloc: Global) -> Result<Tables, OutOfMemory>
    ensures tables { IfOk result (λ tables. tables ≡ all_functions) }

    // Without the functions after the first 42 they are the sample tables.
    ensures front { IfOk result (λ tables. first_functions 42 tables ≡ sample) }
    ensures count { IfOk result (λ tables. length tables.kinds ≡ 497) }
{
    let languages = languages(alloc)?;
    let locales = locales(alloc)?;
    let zones = zones(alloc)?;
    let kinds = kinds(alloc)?;
    match Tables::new(alloc, languages, locales, zones, kinds) {
        Ok(tables) => Ok(tables),
        Err(TablesError::OutOfMemory) => Err(OutOfMemory),
        Err(TablesError::BadTables(_)) => unreachable!(),
    }
}
