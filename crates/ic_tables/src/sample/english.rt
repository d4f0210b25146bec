//! English.
ghost use Rattle.std.specs.Prelude.{◌≡◌, IfOk, Some};
ghost use Rattle.ic_tables.specs.Sample.{english_words};

use crate::Language;
use ic_laws::OutOfMemory;
use std::alloc::Global;

pub const CODE: &str = "en";

pub const NAME: &str = "English";

pub const BOOLEANS: &str = "TRUE FALSE";

pub const ERRORS: &str = "#REF! #NAME? #VALUE! #DIV/0! #N/A #NUM! #N/IMPL! #SPILL! #CALC! #CIRC! \
    #ERROR! #NULL!";

pub const FUNCTIONS: &str = "LET LAMBDA TRUE FALSE SUM PRODUCT AVERAGE MIN MAX COUNT COUNTA \
    COUNTIF SUMIF IF IFERROR IFNA AND OR NOT XOR ABS SIN COS TAN PI SQRT POWER LOG10 ROUND INT MOD \
    LEN LEFT RIGHT MID UPPER CONCAT INDEX VLOOKUP SEQUENCE UNIQUE TODAY";

pub fn language(alloc: Global) -> Result<Language, OutOfMemory>
    ensures { IfOk result (λ l. Some l ≡ english_words) }
{
    let language = Language::from_words(alloc, CODE, NAME, BOOLEANS, ERRORS, FUNCTIONS)?;
    Ok(language.unwrap())
}
