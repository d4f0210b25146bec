//! What of a locale tells how numbers are typed and shown.
ghost use Rattle.std.specs.Prelude.{◌≡◌, chars};
ghost use Rattle.ic_input.specs.Convention.{group_of, is_currency, is_dollar_or_euro, is_nothing};

use ic_laws::scan::first_char;
use ic_tables::Locale;

/// Whether a text has no character.
pub(crate) fn is_nothing(text: &str) -> bool
    ensures { result ≡ is_nothing (chars text.now) }
{
    first_char(text).is_none()
}

/// The separator between groups of digits.
pub(crate) fn group_of(locale: &Locale) -> char
    ensures { result ≡ group_of locale.now }
{
    match first_char(locale.numbers.symbols.group.as_str()) {
        Some((c, _)) => c,
        None => ' ',
    }
}

/// Whether a number may stand beside it: it is the dollar sign, the euro sign or the locale's symbol.
pub(crate) fn is_currency(locale: &Locale, symbol: &str) -> bool
    ensures { result ≡ is_currency locale.now (chars symbol.now) }
{
    is_dollar_or_euro(symbol) || locale.currency.symbol.is(symbol)
}

fn is_dollar_or_euro(symbol: &str) -> bool
    ensures { result ≡ is_dollar_or_euro (chars symbol.now) }
{
    match first_char(symbol) {
        Some((c, rest)) => (c == '$' || c == '€') && is_nothing(rest),
        None => false,
    }
}
