ghost use Rattle.std.specs.Prelude.{◌≡◌, chars, option_map, string_bytes, IfOk};
ghost use Rattle.ic_laws.specs.Amount as amounts;
ghost use Rattle.ic_input.specs.Amount.{negated, signed_amount};

use ic_laws::scan::first_char;
use ic_laws::{Amount, OutOfMemory, amount_spelling, unsigned_amount};
use std::alloc::Global;

/// The text of an amount: the shortest decimal with this separator, and a minus where it is below 0. It has no group
/// separator, no zero at the end after the separator, and no separator without digits after it.
pub fn amount_text(alloc: Global, v: Amount, decimal: char) -> Result<String, OutOfMemory>
    ensures { IfOk result (λ s. chars (string_bytes s) ≡ amounts.amount_text decimal v) }
{
    amount_spelling(alloc, v, decimal)
}

/// The amount that the whole text writes: digits with or without the separator and at most nine digits after it, or
/// the separator and one to nine digits, and a minus before them or none. None exactly for every other text, and where
/// it is no amount.
pub fn read_amount(text: &str, decimal: char) -> Option<Amount>
    ensures { result ≡ signed_amount decimal (chars text.now) }
{
    match first_char(text) {
        Some(('-', rest)) => below_zero(rest, decimal),
        _ => unsigned_amount(text, decimal),
    }
}

// The amount that the text writes, below 0.
fn below_zero(text: &str, decimal: char) -> Option<Amount>
    ensures { result ≡ option_map negated (amounts.unsigned_amount decimal (chars text.now)) }
{
    Amount::from_units(-unsigned_amount(text, decimal)?.units())
}
