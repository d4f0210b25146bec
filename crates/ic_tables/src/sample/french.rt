//! French.
ghost use Rattle.std.specs.Prelude.{◌≡◌, IfOk, Some};
ghost use Rattle.ic_tables.specs.Sample.{french_words};

use crate::Language;
use ic_laws::OutOfMemory;
use std::alloc::Global;

pub const CODE: &str = "fr";

pub const NAME: &str = "French";

pub const BOOLEANS: &str = "VRAI FAUX";

pub const ERRORS: &str = "#REF! #NOM? #VALEUR! #DIV/0! #N/A #NOMBRE! #N/IMPL! #PROPAGATION! #CALC! \
    #CIRC! #ERREUR! #NUL!";

pub const FUNCTIONS: &str = "LET LAMBDA VRAI FAUX SOMME PRODUIT MOYENNE MIN MAX NB NBVAL NB.SI \
    SOMME.SI SI SIERREUR SI.NON.DISP ET OU NON OUX ABS SIN COS TAN PI RACINE PUISSANCE LOG10 \
    ARRONDI ENT MOD NBCAR GAUCHE DROITE STXT MAJUSCULE CONCAT INDEX RECHERCHEV SEQUENCE UNIQUE \
    AUJOURDHUI";

pub fn language(alloc: Global) -> Result<Language, OutOfMemory>
    ensures { IfOk result (λ l. Some l ≡ french_words) }
{
    let language = Language::from_words(alloc, CODE, NAME, BOOLEANS, ERRORS, FUNCTIONS)?;
    Ok(language.unwrap())
}
