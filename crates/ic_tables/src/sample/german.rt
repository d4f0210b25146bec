//! German.
ghost use Rattle.std.specs.Prelude.{◌≡◌, IfOk, Some};
ghost use Rattle.ic_tables.specs.Sample.{german_words};

use crate::Language;
use ic_laws::OutOfMemory;
use std::alloc::Global;

pub const CODE: &str = "de";

pub const NAME: &str = "German";

pub const BOOLEANS: &str = "WAHR FALSCH";

pub const ERRORS: &str = "#BEZUG! #NAME? #WERT! #DIV/0! #NV #ZAHL! #N/IMPL! #ÜBERLAUF! #CALC! \
    #CIRC! #FEHLER! #NULL!";

pub const FUNCTIONS: &str = "LET LAMBDA WAHR FALSCH SUMME PRODUKT MITTELWERT MIN MAX ANZAHL \
    ANZAHL2 ZÄHLENWENN SUMMEWENN WENN WENNFEHLER WENNNV UND ODER NICHT XODER ABS SIN COS TAN PI \
    WURZEL POTENZ LOG10 RUNDEN GANZZAHL REST LÄNGE LINKS RECHTS TEIL GROSS TEXTKETTE INDEX \
    SVERWEIS SEQUENZ EINDEUTIG HEUTE";

pub fn language(alloc: Global) -> Result<Language, OutOfMemory>
    ensures { IfOk result (λ l. Some l ≡ german_words) }
{
    let language = Language::from_words(alloc, CODE, NAME, BOOLEANS, ERRORS, FUNCTIONS)?;
    Ok(language.unwrap())
}
