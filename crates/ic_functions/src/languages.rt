//! The languages, whose words of booleans and error values are those of the sample tables.
ghost use Rattle.std.specs.Prelude.{◌≡◌, IfOk, Some, chars, codes, map, option_map};
ghost use Rattle.ic_tables.specs.LanguageWords.{language_in, numbered};
ghost use Rattle.ic_tables.specs.Sample.{english_words, french_words, german_words, italian_words, spanish_words};
ghost use Rattle.ic_functions.specs.All.{all_languages, with_column, with_functions};
ghost use Rattle.ic_functions.specs.Rows.{all_rows, column};

use crate::columns::column;
use ic_laws::{Items, OutOfMemory};
use ic_tables::{Functions, Language};
use std::alloc::Global;

/// The languages of all functions.
pub fn languages(alloc: Global) -> Result<Items<Language>, OutOfMemory>
    ensures { IfOk result (λ ls. map Some ls ≡ all_languages) }
{
    let mut languages = Vec::new(alloc);
    languages.reserve(5)?;
    languages.push_reserved(english(alloc)?);
    languages.push_reserved(spanish(alloc)?);
    languages.push_reserved(french(alloc)?);
    languages.push_reserved(german(alloc)?);
    languages.push_reserved(italian(alloc)?);
    Ok(Items::from(languages))
}

fn english(alloc: Global) -> Result<Language, OutOfMemory>
    ensures { IfOk result (λ l. Some l ≡ with_column 1 english_words) }
{
    let errors = "#REF! #NAME? #VALUE! #DIV/0! #N/A #NUM! #N/IMPL! #SPILL! #CALC! #CIRC! #ERROR! \
        #NULL!";
    let language = language(alloc, "en", "English", "TRUE FALSE", errors, 1)?;
    Ok(language.unwrap())
}

fn spanish(alloc: Global) -> Result<Language, OutOfMemory>
    ensures { IfOk result (λ l. Some l ≡ with_column 2 spanish_words) }
{
    let errors =
        "#¡REF! #¿NOMBRE? #¡VALOR! #¡DIV/0! #N/D #¡NUM! #N/IMPL! #¡DESBORDAMIENTO! #¡CALC! \
        #¡CIRC! #¡ERROR! #¡NULO!";
    let language = language(alloc, "es", "Spanish", "VERDADERO FALSO", errors, 2)?;
    Ok(language.unwrap())
}

fn french(alloc: Global) -> Result<Language, OutOfMemory>
    ensures { IfOk result (λ l. Some l ≡ with_column 3 french_words) }
{
    let errors = "#REF! #NOM? #VALEUR! #DIV/0! #N/A #NOMBRE! #N/IMPL! #PROPAGATION! #CALC! #CIRC! \
        #ERREUR! #NUL!";
    let language = language(alloc, "fr", "French", "VRAI FAUX", errors, 3)?;
    Ok(language.unwrap())
}

fn german(alloc: Global) -> Result<Language, OutOfMemory>
    ensures { IfOk result (λ l. Some l ≡ with_column 4 german_words) }
{
    let errors =
        "#BEZUG! #NAME? #WERT! #DIV/0! #NV #ZAHL! #N/IMPL! #ÜBERLAUF! #CALC! #CIRC! #FEHLER! \
        #NULL!";
    let language = language(alloc, "de", "German", "WAHR FALSCH", errors, 4)?;
    Ok(language.unwrap())
}

fn italian(alloc: Global) -> Result<Language, OutOfMemory>
    ensures { IfOk result (λ l. Some l ≡ with_column 5 italian_words) }
{
    let errors = "#RIF! #NOME? #VALORE! #DIV/0! #N/D #NUM! #N/IMPL! #ESPANSIONE! #CALC! #CIRC! \
        #ERRORE! #NULLO!";
    let language = language(alloc, "it", "Italian", "VERO FALSO", errors, 5)?;
    Ok(language.unwrap())
}

/// The language of these words, whose functions' words stand at this place of the rows. None exactly where they aren't
/// two words of booleans and twelve of error values.
fn language(
    alloc: Global,
    code: &str,
    name: &str,
    booleans: &str,
    errors: &str,
    place: usize,
) -> Result<Option<Language>, OutOfMemory>
    ensures { IfOk result (λ l. l ≡ with_column place (language_in (chars code.now)
        (chars name.now) (chars booleans.now) (chars errors.now) (chars (codes "")))) }
{
    let functions = functions_at(alloc, place)?;
    let language = Language::from_words(alloc, code, name, booleans, errors, "")?;
    Ok(with_functions(language, functions))
}

/// A language with these functions.
fn with_functions(language: Option<Language>, functions: Functions) -> Option<Language>
    ensures { result ≡ option_map (with_functions functions) language }
{
    let mut language = language?;
    language.functions = functions;
    Some(language)
}

/// The functions by the words at this place of the rows, of which LET, LAMBDA, TRUE and FALSE are the first.
fn functions_at(alloc: Global, place: usize) -> Result<Functions, OutOfMemory>
    ensures { IfOk result (λ f. f ≡ numbered (column place all_rows)) }
{
    Ok(Functions {
        words: column(alloc, place)?,
        let_fn: 0,
        lambda_fn: 1,
        true_fn: 2,
        false_fn: 3,
    })
}
