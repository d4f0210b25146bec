//! The formats of the locale in force, with an example of each.
ghost use Rattle.std.specs.Prelude.{◌≡◌, ◌++◌, ◌∷◌, [], IfOk, OnOk, chars, flat_map, map, string_bytes};
ghost use Rattle.ic_laws.specs.Character.{double_quote};
ghost use Rattle.ic_machine.specs.Fields.{fields_of_settings};
ghost use Rattle.ic_machine.specs.Format.{formatted};
ghost use Rattle.ic_machine.specs.subjects.Notation as notation;
ghost use Rattle.ic_machine.specs.subjects.Notation.{as_code, currency_code, plain_blank, settings_fields};

use ic_cells::FmtSettings;
use ic_input::format_amount;
use ic_laws::scan::{first_char, push_char, push_text};
use ic_laws::{Amount, OutOfMemory, Text};
use ic_tables::Locale;
use std::alloc::Global;

/// The formats of a locale.
pub fn settings_of(alloc: Global, locale: &Locale) -> Result<FmtSettings, OutOfMemory>
    ensures { IfOk result (λ s. fields_of_settings s ≡ settings_fields locale.now) }
{
    let dates = &locale.dates.date_formats;
    let (short_date, short_date_example) = example(
        alloc,
        dates.short.as_str(),
        example_day(),
        locale,
    )?;
    let (long_date, long_date_example) = example(
        alloc,
        dates.long.as_str(),
        example_day(),
        locale,
    )?;
    let (number_fmt, number_example) = example(alloc, "#,##0.00", example_amount(), locale)?;
    let currency = Text::from_str(alloc, locale.currency.iso.as_str())?;
    let currency_format = currency_code(alloc, locale)?;
    Ok(FmtSettings {
        currency,
        currency_format,
        short_date,
        short_date_example,
        long_date,
        long_date_example,
        number_fmt,
        number_example,
    })
}

/// A code, and an amount that is shown by it.
fn example(
    alloc: Global,
    code: &str,
    amount: Amount,
    locale: &Locale,
) -> Result<(Text, Text), OutOfMemory>
    ensures code { IfOk result (λ e. e.0 ≡ chars code.now) }
    ensures shown { IfOk result (λ e. e.1 ≡ formatted locale.now (chars code.now) amount) }
{
    let shown = Text::from(amount_by(alloc, amount, code, locale)?);
    Ok((Text::from_str(alloc, code)?, shown))
}

/// An amount by a code.
fn amount_by(
    alloc: Global,
    amount: Amount,
    code: &str,
    locale: &Locale,
) -> Result<String, OutOfMemory>
    ensures { IfOk result (λ s. chars (string_bytes s)
        ≡ formatted locale.now (chars code.now) amount) }
{
    format_amount(alloc, amount, code, locale)
}

/// 15 December 2025.
fn example_day() -> Amount
    ensures { result ≡ notation.example_day }
{
    match Amount::from_units(46_006_000_000_000) {
        Some(day) => day,
        None => unreachable!(),
    }
}

/// 1234.567.
fn example_amount() -> Amount
    ensures { result ≡ notation.example_amount }
{
    match Amount::from_units(1_234_567_000_000) {
        Some(amount) => amount,
        None => unreachable!(),
    }
}

/// The locale's standard format of currencies, with the symbol in double quotes, and then plain spaces for no-break
/// spaces.
fn currency_code(alloc: Global, locale: &Locale) -> Result<Text, OutOfMemory>
    ensures { IfOk result (λ text. text ≡ currency_code locale.now) }
{
    let mut code = String::new(alloc);
    let format = locale.numbers.currency_formats.standard.as_str();
    push_code(&mut code, locale.currency.symbol.as_str(), format)?;
    let mut plain = String::new(alloc);
    push_plain(&mut plain, code.as_str())?;
    Ok(Text::from(plain))
}

/// Appends a text with plain spaces for its no-break spaces.
fn push_plain(plain: &mut String, text: &str) -> Result<(), OutOfMemory>
    ensures { OnOk result (chars (string_bytes plain.new)
        ≡ chars (string_bytes plain.old) ++ map plain_blank (chars text.now)) }
{
    let mut rest = text;
    while let Some((c, after)) = first_char(rest) {
        push_char(plain, plain_blank(c))?;
        rest = after;
    }
    Ok(())
}

/// A plain space for a no-break space.
fn plain_blank(c: char) -> char
    ensures { result ≡ plain_blank c }
{
    if c == '\u{a0}' { ' ' } else { c }
}

/// Appends a format of currencies, with the symbol in double quotes for its sign.
fn push_code(code: &mut String, symbol: &str, format: &str) -> Result<(), OutOfMemory>
    ensures { OnOk result (chars (string_bytes code.new)
        ≡ chars (string_bytes code.old) ++ flat_map (as_code (chars symbol.now))
        (chars format.now)) }
{
    let mut rest = format;
    while let Some((c, after)) = first_char(rest) {
        push_sign(code, symbol, c)?;
        rest = after;
    }
    Ok(())
}

/// Appends a character of such a format: the symbol in double quotes for the sign that stands for it.
fn push_sign(code: &mut String, symbol: &str, c: char) -> Result<(), OutOfMemory>
    ensures { OnOk result (chars (string_bytes code.new)
        ≡ chars (string_bytes code.old) ++ as_code (chars symbol.now) c) }
{
    match c {
        '\u{a4}' => push_quoted(code, symbol),
        _ => push_char(code, c),
    }
}

/// Appends a symbol in double quotes.
fn push_quoted(code: &mut String, symbol: &str) -> Result<(), OutOfMemory>
    ensures { OnOk result (chars (string_bytes code.new)
        ≡ chars (string_bytes code.old) ++ double_quote ∷ (chars symbol.now ++ double_quote ∷ [])) }
{
    push_char(code, '"')?;
    push_text(code, symbol)?;
    push_char(code, '"')
}
