//! Spanish.
ghost use Rattle.std.specs.Prelude.{◌≡◌, IfOk, Some};
ghost use Rattle.ic_tables.specs.Sample.{spanish_words};

use crate::Language;
use ic_laws::OutOfMemory;
use std::alloc::Global;

pub const CODE: &str = "es";

pub const NAME: &str = "Spanish";

pub const BOOLEANS: &str = "VERDADERO FALSO";

pub const ERRORS: &str = "#¡REF! #¿NOMBRE? #¡VALOR! #¡DIV/0! #N/D #¡NUM! #N/IMPL! \
    #¡DESBORDAMIENTO! #¡CALC! #¡CIRC! #¡ERROR! #¡NULO!";

pub const FUNCTIONS: &str = "LET LAMBDA VERDADERO FALSO SUMA PRODUCTO PROMEDIO MIN MAX CONTAR \
    CONTARA CONTAR.SI SUMAR.SI SI SI.ERROR SI.ND Y O NO XO ABS SENO COS TAN PI RAIZ POTENCIA LOG10 \
    REDONDEAR ENTERO RESIDUO LARGO IZQUIERDA DERECHA EXTRAE MAYUSC CONCAT INDICE BUSCARV SECUENCIA \
    UNICOS HOY";

pub fn language(alloc: Global) -> Result<Language, OutOfMemory>
    ensures { IfOk result (λ l. Some l ≡ spanish_words) }
{
    let language = Language::from_words(alloc, CODE, NAME, BOOLEANS, ERRORS, FUNCTIONS)?;
    Ok(language.unwrap())
}
