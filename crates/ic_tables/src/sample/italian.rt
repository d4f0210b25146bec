//! Italian.
ghost use Rattle.std.specs.Prelude.{◌≡◌, IfOk, Some};
ghost use Rattle.ic_tables.specs.Sample.{italian_words};

use crate::Language;
use ic_laws::OutOfMemory;
use std::alloc::Global;

pub const CODE: &str = "it";

pub const NAME: &str = "Italian";

pub const BOOLEANS: &str = "VERO FALSO";

pub const ERRORS: &str = "#RIF! #NOME? #VALORE! #DIV/0! #N/D #NUM! #N/IMPL! #ESPANSIONE! #CALC! \
    #CIRC! #ERRORE! #NULLO!";

pub const FUNCTIONS: &str = "LET LAMBDA VERO FALSO SOMMA PRODOTTO MEDIA MIN MAX CONTA.NUMERI \
    CONTA.VALORI CONTA.SE SOMMA.SE SE SE.ERRORE SE.NON.DISP E O NON XOR ABS SEN COS TAN PI.GRECO \
    RADQ POTENZA LOG10 ARROTONDA INT RESTO LUNGHEZZA SINISTRA DESTRA STRINGA.ESTRAI MAIUSC CONCAT \
    INDICE CERCA.VERT SEQUENZA UNICI OGGI";

pub fn language(alloc: Global) -> Result<Language, OutOfMemory>
    ensures { IfOk result (λ l. Some l ≡ italian_words) }
{
    let language = Language::from_words(alloc, CODE, NAME, BOOLEANS, ERRORS, FUNCTIONS)?;
    Ok(language.unwrap())
}
