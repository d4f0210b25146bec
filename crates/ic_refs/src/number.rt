ghost use Rattle.std.specs.Prelude.{◌≡◌, ◌≤◌, ◌^◌, chars};
ghost use Rattle.ic_refs.specs.Digits.{decimal_from, with_digit};

use ic_laws::scan::first_char;

/// The number of the digits at the front, and the rest. Digits are taken while the number is at most
/// the limit; it is 0 where there is none.
pub(crate) fn read_number(limit: u32, text: &str) -> (u32, &str)
    requires { limit ≤ 2 ^ 31 }
    ensures exact { decimal_from limit 0 (chars text.now) ≡ (result.0, chars result.1.now) }
    ensures within { result.0 ≤ limit }
{
    let mut number = 0;
    let mut rest = text;
    while let Some((c, after)) = first_char(rest) {
        let Some(next) = with_digit(limit, number, c) else {
            break;
        };
        number = next;
        rest = after;
    }
    (number, rest)
}

// The number with one more digit, where the character is a digit and the number stays within the limit.
fn with_digit(limit: u32, number: u32, c: char) -> Option<u32>
    requires { limit ≤ 2 ^ 31 }
    ensures { result ≡ with_digit limit number c }
{
    if !c.is_ascii_digit() {
        return None;
    }
    let next = u64::from(number) * 10 + (u64::from(u32::from(c)) - 48);
    if next > u64::from(limit) {
        return None;
    }
    Some(next as u32)
}
